//! What programs of tests read and print: cases, systems whose preconditions are looked at when they run, and how many cases differ.
#![tactic(auto)]

mod case;
mod count;
mod rows;

pub use case::{Form, bytes, field, is_case, number, numbers, words};
pub use count::Count;
pub use rows::{are_definitions_within, are_proper, is_proper_row, rows_of, system_of};
