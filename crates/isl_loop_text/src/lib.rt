//! Loops as text.
#![tactic(auto)]

mod expr;
mod lines;

pub use lines::loop_text;
