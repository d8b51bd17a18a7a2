//! Formulas as alternatives: lists of systems of which some holds exactly where the formula does.
#![tactic(auto)]

mod bound;
mod chains;
mod comparisons;
mod formulas;
mod lists;

pub use formulas::alternatives;
