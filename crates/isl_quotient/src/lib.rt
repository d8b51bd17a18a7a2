//! Projections that keep quotients.
#![tactic(auto)]

mod alone;
mod candidate;
mod opened;
mod pairs;
mod projection;
mod quotient;
mod solved;
mod told;

pub use projection::project;
pub use told::without_definitions;
