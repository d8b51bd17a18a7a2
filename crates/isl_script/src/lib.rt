//! Statements: how a script is cut into them.
#![tactic(auto)]

mod cutter;
mod script;

pub use cutter::Cutter;
pub use script::scripts_are_cut;
