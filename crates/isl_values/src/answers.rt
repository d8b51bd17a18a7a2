//! What calls answer, to be shared, and what refuses a statement where they answer nothing.

ghost use Rattle.std.specs.Prelude.{◌≡◌, MatchResult, Ok};
ghost use Rattle.isl_values.specs.Made.{refusal_of_fault, refusal_of_word_fault};

use isl_operators::WordFault;
use isl_outcome::refusal_of;
use isl_refusal::Refusal;
use isl_union::{OpFault, Value};
use std::alloc::Global;
use std::rc::Rc;

/// What an operation made, to be shared, or what refuses it.
pub(crate) fn answered(alloc: Global, outcome: Result<Value, OpFault>) -> Result<Rc<Value>, Refusal>
    ensures { MatchResult result (λ value. outcome ≡ Ok value.value)
        (λ refusal. MatchResult outcome (λ _. refusal ≡ Refusal.NoMemory) (λ fault. refusal ≡ refusal_of_fault fault)) }
{
    match outcome {
        Ok(value) => Ok(Rc::new(alloc, value)?),
        Err(OpFault::Cut(cut)) => Err(refusal_of(cut)),
        Err(OpFault::TooWide) => Err(Refusal::TooWide),
    }
}

/// What a word makes of a value, to be shared, or what refuses it.
pub(crate) fn word_answered(
    alloc: Global,
    outcome: Result<Value, WordFault>,
) -> Result<Rc<Value>, Refusal>
    ensures { MatchResult result (λ value. outcome ≡ Ok value.value)
        (λ refusal. MatchResult outcome (λ _. refusal ≡ Refusal.NoMemory) (λ fault. refusal ≡ refusal_of_word_fault fault)) }
{
    match outcome {
        Ok(value) => Ok(Rc::new(alloc, value)?),
        Err(WordFault::Cut(cut)) => Err(refusal_of(cut)),
        Err(WordFault::TooWide) => Err(Refusal::TooWide),
        Err(WordFault::NoMinimum) => Err(Refusal::NoMinimum),
    }
}
