//! Loops from values: the items of a value in one tree, which lists the calls of all of them in the order of their times.
#![tactic(auto)]

mod generate;
mod groups;
mod only;
mod order;
mod together;

pub use generate::codegen;
