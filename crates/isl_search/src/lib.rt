//! A search for proofs that a system has no point outside others. What it finds is a guess until `isl_refute` has checked it.
#![tactic(auto)]

mod cover;
mod ends;
mod found;
mod line;
mod needs;
mod number;
mod refute;
mod search;
mod shadows;
mod splinters;
mod tidy;
mod writer;

pub use found::proof_of;
