//! The least and the greatest elements of sets, and images of maps.
#![tactic(auto)]

mod beaten;
mod ends;
mod extremes;
mod fault;
mod pieces;
mod systems;

pub use extremes::{lexmax, lexmin};
pub use fault::LexFault;
