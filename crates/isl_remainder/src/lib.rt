//! What is left of a system without others, and without its last columns.
#![tactic(auto)]

mod equations;
mod over;

pub use equations::left_without;
pub use over::{Remainder, left_over};
