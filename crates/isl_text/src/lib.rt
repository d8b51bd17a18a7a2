//! Literals of sets and maps, and parameter sets: how tokens spell them, their limits, and why a text is refused.
#![tactic(auto)]

pub mod bound;
pub mod formed;
pub mod limits;
pub mod literal;
pub mod piece;
pub mod pset;
pub mod read;
pub mod tuple;
pub mod wide;

pub use isl_refusal::Refusal;
