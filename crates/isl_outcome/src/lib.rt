//! Why the evaluation of a statement ends without a value, and what it paid until then.
#![tactic(auto)]

mod refused;

pub use refused::refusal_of;
