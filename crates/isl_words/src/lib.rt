//! The words of the command line, and what they choose.
#![tactic(auto)]

mod binding;
mod command;
mod fault;
mod number;
mod options;
mod words;

pub use fault::WordsFault;
pub use options::Options;
pub use words::{options_are_one, read_words};
