//! The points of systems, one after another.
#![tactic(auto)]

mod division;
mod fibre;
mod interval;
mod level;
mod line;
mod list;
mod progression;
mod row;
mod walk;

pub use fibre::Fibre;
pub use list::{Points, check_count};
