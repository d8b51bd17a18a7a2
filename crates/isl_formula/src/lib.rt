//! Terms and formulas of literals: how tokens spell them, and how they are read.
#![tactic(auto)]

pub mod ahead;
pub mod chain;
pub mod formula;
pub mod list;
pub mod term;
