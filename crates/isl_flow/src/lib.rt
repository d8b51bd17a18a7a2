//! Which accesses are the last before others. It offers which come before others too.
#![tactic(auto)]

mod sinks;
mod sources;
mod turned;

pub use isl_precedence::any;
pub use sources::{Flow, last};
