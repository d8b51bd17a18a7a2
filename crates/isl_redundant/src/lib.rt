//! Rows that the others imply, left out.
#![tactic(auto)]

mod certificate;
mod line;
mod ratio;
mod reduction;
mod search;
mod tableau;

pub use reduction::without_redundant;
