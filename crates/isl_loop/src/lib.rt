//! Loops: their trees, and what they execute.
#![tactic(auto)]

mod tree;

pub use tree::{Atom, Expr, Item, Loop};
