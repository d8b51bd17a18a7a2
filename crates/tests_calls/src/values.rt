//! Values of pieces with any rows, defined columns and nested tuples, what operations answer of them, and how they print.

ghost use Rattle.std.specs.Prelude.{All, IfOk, IfSome};
ghost use Rattle.isl_union.specs.Piece.{IsPieceOver};

use crate::limit::is_within;
use crate::operation::{Answer, worked_out};
use crate::params::params_of;
use crate::spaces::space_of;
use isl_meter::Meter;
use isl_piece::Piece;
use isl_print::text_of;
use isl_space::{Params, SpaceFault};
use isl_union::{OpFault, Value};
use std::alloc::Global;
use std::io;
use tests_made::{field, number, system_of};

// The piece that is written so: its space, and then lines of definitions and rows. `None` where it is not well written.
fn piece_of(
    alloc: Global,
    params: &Params,
    written: &str,
    meter: &Meter,
) -> Result<Option<Piece>, SpaceFault>
    ensures { IfOk result (λ made. IfSome made (IsPieceOver meter.now params.now)) }
{
    let (space, rows) = written.split_once('\n').unwrap_or((written, ""));
    let Some(space) = space_of(alloc, space)? else {
        return Ok(None);
    };
    let columns = params.len() + space.width() as usize;
    let Some(system) = system_of(alloc, rows, columns, ("defined ", "row "), meter)? else {
        return Ok(None);
    };
    if system.free() != columns {
        return Ok(None);
    }
    Ok(Some(Piece::new(alloc, space, system)?))
}

// The pieces that a case writes.
fn pieces_of(
    alloc: Global,
    params: &Params,
    case: &str,
    meter: &Meter,
) -> Result<Option<Vec<Piece>>, SpaceFault>
    ensures { IfOk result (λ made. IfSome made (λ pieces. All (IsPieceOver meter.now params.now) pieces.items)) }
{
    let mut pieces = Vec::new(alloc);
    for written in case.split("\npiece ").skip(1) {
        let Some(piece) = piece_of(alloc, params, written, meter)? else {
            return Ok(None);
        };
        pieces.push(piece)?;
    }
    Ok(Some(pieces))
}

// The value that a part of a case writes.
fn value_of(alloc: Global, part: &str) -> Result<Option<Value>, OpFault> {
    let mut meter = Meter::new(127, 1_000_000);
    let Some(params) = params_of(alloc, field(part, "params ").unwrap_or(""))? else {
        return Ok(None);
    };
    match pieces_of(alloc, &params, part, &meter)? {
        Some(pieces) => Ok(Some(Value::from_pieces(alloc, params, pieces, &mut meter)?)),
        None => Ok(None),
    }
}

// What an operation of this name answers of two values within the budget of the case.
fn worked_within(
    alloc: Global,
    case: &str,
    said: &str,
    value: &Value,
    other: &Value,
) -> Result<Option<Answer>, OpFault> {
    let budget = number(case, "budget ", 1_000_000).clamp(1, 1_000_000) as u64;
    let mut meter = Meter::new(127, budget);
    worked_out(alloc, said, value, other, &mut meter)
}

// What the operation that a part of a case begins with answers of the value, and of the one that the part writes. Before it another one
// may be worked out of them.
fn asked(alloc: Global, case: &str, part: &str, value: &Value) -> Result<Option<Answer>, OpFault> {
    let said = part.lines().next().unwrap_or("");
    let Some(other) = value_of(alloc, part)? else {
        return Ok(None);
    };
    if let Some(before) = field(case, "before ") {
        let _gone = worked_within(alloc, case, before, value, &other)?;
    }
    worked_within(alloc, case, said, value, &other)
}

// What a case answers last: the value that it writes, or what each operation answers of the value before it.
fn answer_of(alloc: Global, case: &str) -> Result<Option<Answer>, OpFault> {
    let (first, _rest) = case.split_once("\noperation ").unwrap_or((case, ""));
    let mut answer = value_of(alloc, first)?.map(|value| Answer::Made(value));
    for part in case.split("\noperation ").skip(1) {
        answer = match answer {
            Some(Answer::Made(value)) => asked(alloc, case, part, &value)?,
            _ => None,
        };
    }
    Ok(answer)
}

// The text of the value without definitions.
fn value_text(alloc: Global, value: &Value) -> Result<Option<String>, OpFault> {
    let mut meter = Meter::new(127, 1_000_000);
    if !is_within(value, &meter) {
        return Ok(None);
    }
    let flat = value.flat(alloc, &mut meter)?;
    Ok(Some(text_of(alloc, &flat)?))
}

// How the answer of a case prints, or why there is none.
fn printed(alloc: Global, case: &str) -> Result<Option<String>, OpFault> {
    match answer_of(alloc, case) {
        Ok(Some(Answer::Made(value))) => value_text(alloc, &value),
        Ok(Some(Answer::Told(so))) => Ok(Some(format!(in alloc; "{so}")?)),
        Ok(None) => Ok(None),
        Err(OpFault::TooWide) => Ok(Some(String::from_str(alloc, "too wide")?)),
        Err(fault) => Err(fault),
    }
}

/// Whether the answer of a case prints as is wanted.
pub(crate) fn value_holds(rt: &impl Print, alloc: Global, case: &str) -> io::Result<bool> {
    let found = printed(alloc, case);
    let right = match &found {
        Ok(Some(text)) => field(case, "answer ") == Some(text.as_str()),
        _ => false,
    };
    if !right {
        println!(rt; "{case}\n  {found:?}\n")?;
    }
    Ok(right)
}
