//! What a statement answers.

ghost use Rattle.std.specs.Prelude.{◌≡◌, ◌≢◌, ◌++◌, [], Some, IfOk, OnErr, OnOk, string_bytes};
ghost use Rattle.isl_union.specs.KeptValue.{HasNoDefinitions};
ghost use Rattle.isl_eval.specs.Machine as machine;

use isl_print::{text_of, write_value};
use isl_scan::Listing;
use isl_union::Value;
use isl_values::Kept;
use std::alloc::{AllocError, Global};
use std::marker::Model;

/// The bytes of an answer, which may be none; whether it is `True`; and how many elements it lists.
#[derive(Drop)]
pub struct Answer {
    text: String,
    is_true: bool,
    elements: usize,
}

// Both values of a list in round brackets.
fn text_of_two(alloc: Global, first: &Value, second: &Value) -> Result<String, AllocError>
    requires first { HasNoDefinitions first.now }
    requires second { HasNoDefinitions second.now }
    ensures { IfOk result (λ text. string_bytes text ≡ machine.text_of_two first.now (Some second.now)) }
{
    let mut text = String::from_str(alloc, "(")?;
    write_value(alloc, &mut text, first)?;
    text.push_str(", ")?;
    write_value(alloc, &mut text, second)?;
    text.push(')')?;
    Ok(text)
}

// What is kept: a value, or both values of a list in round brackets.
fn text_of_kept(alloc: Global, kept: &Kept) -> Result<String, AllocError>
    ensures { IfOk result (λ text. string_bytes text ≡ machine.text_of_two kept.now.value kept.now.second) }
{
    match kept.second() {
        Some(second) => text_of_two(alloc, kept.value(), second),
        None => text_of(alloc, kept.value()),
    }
}

impl Model for Answer {
    ghost use Rattle.std.specs.Prelude.{string_bytes};
    ghost use Rattle.isl_eval.specs.Machine.{Answer as AnswerView};

    ghost Value = { AnswerView };

    ghost view = { λ a. record { bytes = string_bytes a.text; is_true = a.is_true; elements = a.elements } };
}

impl Answer {
    // Bindings and empty statements answer nothing.
    pub(crate) fn nothing(alloc: Global) -> Answer
        ensures { result ≡ machine.nothing }
    {
        Answer {
            text: String::new(alloc),
            is_true: false,
            elements: 0,
        }
    }

    // The line that shows what is kept: a value, or the two of a list in round brackets.
    pub(crate) fn of_kept(alloc: Global, kept: &Kept) -> Result<Answer, AllocError>
        ensures { IfOk result (λ answer. answer ≡ machine.shown kept.now) }
    {
        let mut text = text_of_kept(alloc, kept)?;
        text.push('\n')?;
        Ok(Answer {
            text,
            is_true: false,
            elements: 0,
        })
    }

    // The line that tells whether a test holds, and the lines behind it.
    pub(crate) fn of_truth(alloc: Global, holds: bool, lines: &str) -> Result<Answer, AllocError>
        ensures { IfOk result (λ answer. answer ≡ machine.told holds lines.now) }
    {
        let word = if holds { "True\n" } else { "False\n" };
        let mut text = String::from_str(alloc, word)?;
        text.push_str(lines)?;
        Ok(Answer {
            text,
            is_true: holds,
            elements: 0,
        })
    }

    // The line that lists elements.
    pub(crate) fn of_listing(alloc: Global, listing: &Listing) -> Result<Answer, AllocError>
        ensures { IfOk result (λ answer. answer ≡ machine.listed listing.now) }
    {
        let mut text = listing.text(alloc)?;
        text.push('\n')?;
        Ok(Answer {
            text,
            is_true: false,
            elements: listing.len(),
        })
    }

    // The lines of loops, or of their calls.
    pub(crate) fn of_code(text: String) -> Answer
        ensures { result ≡ machine.coded (string_bytes text) }
    {
        Answer {
            text,
            is_true: false,
            elements: 0,
        }
    }

    /// Appends the bytes. No memory is asked for where there are none.
    ///
    /// # Errors
    /// An `AllocError` where memory ends: nothing is appended then, and there are bytes.
    pub fn append_to(&self, text: &mut Vec<u8>) -> Result<(), AllocError>
        ensures ok { OnOk result (text.new.items ≡ text.old.items ++ self.now.bytes) }
        ensures err { OnErr result ((text.new.items ≡ text.old.items) × (self.now.bytes ≢ [])) }
    {
        let bytes = self.text.as_bytes();
        if !bytes.is_empty() {
            text.extend_from_slice(bytes)?;
        }
        Ok(())
    }

    /// Whether the answer is `True`.
    pub fn is_true(&self) -> bool
        ensures { result ≡ self.now.is_true }
    {
        self.is_true
    }

    /// How many elements it lists.
    pub fn elements(&self) -> usize
        ensures { result ≡ self.now.elements }
    {
        self.elements
    }
}
