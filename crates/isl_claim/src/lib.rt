//! Proofs of subset claims as lines of text.
#![tactic(auto)]

mod claim;

pub use claim::proved_lines;
