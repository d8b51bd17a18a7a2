//! What a refused session answers.

use isl_refusal::Refusal;

/// A refusal, and the number of the statement that it speaks of, counted from 1.
#[derive(Clone, Copy, PartialEq, Eq)]
pub struct Fault {
    pub statement: u64,
    pub refusal: Refusal,
}
