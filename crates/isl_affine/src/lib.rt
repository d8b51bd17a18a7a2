//! Comparisons of terms as rows of a system, in which floors, ceilings and remainders are defined columns.
#![tactic(auto)]

mod comparison;
mod difference;
mod division;
mod form;
mod scope;
mod term;

pub use comparison::{Comparison, with_comparison, with_entry};
pub use scope::Scope;
