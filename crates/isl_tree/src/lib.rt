//! Literals and statements as trees, and the table of words.
#![tactic(auto)]

pub mod statement;
pub mod tree;
pub mod words;
