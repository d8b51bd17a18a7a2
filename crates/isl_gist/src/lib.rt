//! The gist of a value: what is left of it where another one is known to hold.
#![tactic(auto)]

mod half;
mod idle;
mod needed;
mod pass;
mod pieces;
mod values;

pub use values::gist;
