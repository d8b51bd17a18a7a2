//! Trees of tests that tell the greatest lists of numbers which systems leave behind others.
#![tactic(auto)]

mod candidate;
mod case;
mod decide;
mod expressed;
mod fault;
mod next;
mod problem;
mod question;
mod search;
mod state;
mod sum;

pub use case::{Case, case_of};
pub use fault::PipFault;
pub use problem::{Level, Problem};
pub use search::greatest_tree;
