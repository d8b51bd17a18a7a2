//! What trees execute, as it is written: `2 turns | S(0); S(1);`, or `not well formed`.

use isl_ast::{Call, Loop, execute, is_loop_over};
use isl_meter::{Cut, Meter};
use std::alloc::{AllocError, Global};
use std::fmt::Write;

// Writes ` S(0, 1);`.
fn write_call(text: &mut String, call: &Call) -> Result<(), AllocError> {
    text.push_str(" ")?;
    if let Some(name) = call.name() {
        text.push_str(name.as_str())?;
    }
    text.push_str("(")?;
    let mut lead = "";
    for number in call.args() {
        write!(text, "{lead}{number}")?;
        lead = ", ";
    }
    text.push_str(");")
}

/// How many turns the tree takes where parameters have these numbers, and its calls.
///
/// # Errors
///
/// As every call under a meter.
pub(crate) fn executed(alloc: Global, tree: &Loop, at: &[i128]) -> Result<String, Cut> {
    let mut meter = Meter::new(127, 1_000_000);
    if !is_loop_over(alloc, tree, at.len(), &meter)? {
        return Ok(String::from_str(alloc, "not well formed")?);
    }
    let calls = execute(alloc, tree, at, &mut meter)?;
    let turns = meter.units();
    let mut text = String::new(alloc);
    write!(&mut text, "{turns} turns |")?;
    for call in calls.as_slice() {
        write_call(&mut text, call)?;
    }
    Ok(text)
}

/// The numbers that are written, where each word is one.
///
/// # Errors
///
/// Where memory ends.
pub(crate) fn numbers_of(alloc: Global, written: &str) -> Result<Option<Vec<i128>>, AllocError> {
    let mut numbers = Vec::new(alloc);
    for word in written.split(' ').filter(|word| !word.is_empty()) {
        match word.parse::<i128>() {
            Ok(number) => numbers.push(number)?,
            Err(_) => return Ok(None),
        }
    }
    Ok(Some(numbers))
}
