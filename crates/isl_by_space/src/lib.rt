//! Pieces by the spaces that they lie in, and pieces over more parameters.
#![tactic(auto)]

mod over;
mod spaces;
mod systems;

pub use over::aligned_over;
pub use spaces::distinct_spaces;
pub use systems::{indexed, systems_in};
