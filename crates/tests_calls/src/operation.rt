//! What operations answer.

ghost use Rattle.isl_union.specs.Numbers.{IsWithinLimit};

use crate::limit::is_within;
use crate::spaces::space_of;
use isl_assumed::{Assumed, live};
use isl_lex::{order_le, order_lt};
use isl_maps::{domain, inverse, wrap, zip};
use isl_meter::{Cut, Meter};
use isl_space::Space;
use isl_union::{OpFault, Value};
use std::alloc::Global;

/// What an operation answers: a value, or whether something is so.
#[derive(Drop)]
pub(crate) enum Answer {
    Made(Value),
    Told(bool),
}

// The value without some coordinates: `FROM COUNT SPACE to SPACE`.
fn projected(
    alloc: Global,
    said: &str,
    value: &Value,
    meter: &mut Meter,
) -> Result<Option<Value>, OpFault>
    requires { IsWithinLimit meter.old value.now }
{
    let (from, rest) = said.split_once(' ').unwrap_or((said, ""));
    let (count, spaces) = rest.split_once(' ').unwrap_or((rest, ""));
    let (space, to) = spaces.split_once(" to ").unwrap_or((spaces, ""));
    let (Some(space), Some(to)) = (space_of(alloc, space)?, space_of(alloc, to)?) else {
        return Ok(None);
    };
    let from = from.parse::<u32>().unwrap_or(0) as usize;
    let count = count.parse::<u32>().unwrap_or(0) as usize;
    let width = space.width() as usize;
    if from + count > width || to.width() as usize + count != width {
        return Ok(None);
    }
    let value = value.project(alloc, &space, from, count, &to, meter)?;
    Ok(Some(value))
}

// The order of this name of all elements of the shape of the first piece, if that lies in a set.
fn ordered(
    alloc: Global,
    name: &str,
    value: &Value,
    meter: &mut Meter,
) -> Result<Option<Value>, OpFault> {
    let Some(first) = value.pieces().first() else {
        return Ok(None);
    };
    let Space::Set(shape) = first.space() else {
        return Ok(None);
    };
    match name {
        "order-lt" => Ok(Some(order_lt(alloc, shape, meter)?)),
        "order-le" => Ok(Some(order_le(alloc, shape, meter)?)),
        _ => Ok(None),
    }
}

// The pieces of the value that have an element where the other has one.
fn live_with_other(
    alloc: Global,
    value: &Value,
    other: &Value,
    meter: &mut Meter,
) -> Result<Value, Cut>
    requires own { IsWithinLimit meter.old value.now }
    requires other { IsWithinLimit meter.old other.now }
{
    let assumed = Assumed::of(alloc, other, meter)?;
    live(alloc, value, &assumed, meter)
}

// What an operation of this name makes of the value, and of the other.
fn made(
    alloc: Global,
    said: &str,
    value: &Value,
    other: &Value,
    meter: &mut Meter,
) -> Result<Option<Value>, OpFault>
    requires own { IsWithinLimit meter.old value.now }
    requires other { IsWithinLimit meter.old other.now }
{
    let (name, rest) = said.split_once(' ').unwrap_or((said, ""));
    match name {
        "union" => Ok(Some(value.union(alloc, other, meter)?)),
        "meet" => Ok(Some(value.meet(alloc, other, meter)?)),
        "minus" => Ok(Some(value.minus(alloc, other, meter)?)),
        "project" => projected(alloc, rest, value, meter),
        "live" => Ok(Some(live_with_other(alloc, value, other, meter)?)),
        "inverse" => Ok(Some(inverse(alloc, value, meter)?)),
        "wrap" => Ok(Some(wrap(alloc, value, meter)?)),
        "zip" => Ok(Some(zip(alloc, value, meter)?)),
        "domain" => Ok(Some(domain(alloc, value, meter)?)),
        _ => ordered(alloc, name, value, meter),
    }
}

// Whether what the name says is so of the value, and of the other.
fn told(
    alloc: Global,
    name: &str,
    value: &Value,
    other: &Value,
    meter: &mut Meter,
) -> Result<Option<bool>, OpFault>
    requires own { IsWithinLimit meter.old value.now }
    requires other { IsWithinLimit meter.old other.now }
{
    match name {
        "subset" => Ok(Some(value.is_subset(alloc, other, meter)?)),
        "equal" => Ok(Some(value.is_equal(alloc, other, meter)?)),
        _ => Ok(None),
    }
}

fn is_question(name: &str) -> bool {
    matches!(name, "subset" | "equal")
}

/// What an operation of this name answers of the value, and of the other. `None` where there is no such operation.
///
/// # Errors
///
/// As the operation.
pub(crate) fn worked_out(
    alloc: Global,
    said: &str,
    value: &Value,
    other: &Value,
    meter: &mut Meter,
) -> Result<Option<Answer>, OpFault> {
    if !is_within(value, meter) || !is_within(other, meter) {
        return Ok(None);
    }
    if is_question(said) {
        let told = told(alloc, said, value, other, meter)?;
        Ok(told.map(|so| Answer::Told(so)))
    } else {
        let made = made(alloc, said, value, other, meter)?;
        Ok(made.map(|value| Answer::Made(value)))
    }
}
