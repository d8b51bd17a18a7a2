//! Calls without those that come twice.

ghost use Rattle.std.specs.Prelude.{◌≡◌, ◌++◌, [], All, IfOk, OnOk, map};
ghost use Rattle.isl_meter.specs.Gauge.{IsMetered};
ghost use Rattle.isl_space.specs.Shape.{form_of};
ghost use Rattle.isl_piece.specs.System.{free_columns};
ghost use Rattle.isl_calls.specs.Apart.{called_form, AreApartOf, AreEven, AreLeftOf, AreSystemsFor, IsLike, IsPlainWithin};

use crate::Calls;
use isl_difference::{are_too_many, outside};
use isl_meter::{Cut, Meter};
use isl_piece::System;
use isl_space::Shape;
use std::alloc::{AllocError, Global};

// The systems of those calls that are of points of the shape.
fn systems_for<'a>(
    alloc: Global,
    shape: &Shape,
    calls: &'a [Calls],
) -> Result<Vec<&'a System>, AllocError>
    ensures { IfOk result (λ systems. AreSystemsFor (form_of shape.now) calls.now (map (λ system. system.now) systems.items)) }
{
    let mut systems = Vec::new(alloc);
    for one in calls {
        if one.domain.same(shape) {
            systems.push(&one.system)?;
        }
    }
    Ok(systems)
}

// Calls of the same form, times and layout, with each of the systems.
fn parts_of(alloc: Global, calls: &Calls, systems: Vec<System>) -> Result<Vec<Calls>, AllocError>
    ensures systems { IfOk result (λ parts. map (λ part. part.system) parts.items ≡ systems.items) }
    ensures like { IfOk result (λ parts. All (IsLike calls.now) parts.items) }
{
    let mut parts = Vec::with_capacity(alloc, systems.len())?;
    for system in systems {
        parts.push(Calls {
            domain: calls.domain.clone()?,
            time: calls.time.clone()?,
            is_own: calls.is_own,
            system,
        })?;
    }
    Ok(parts)
}

// What is left of calls without the earlier ones.
fn left_of(
    alloc: Global,
    calls: &Calls,
    earlier: &[Calls],
    meter: &mut Meter,
) -> Result<Vec<Calls>, Cut>
    requires sound { IsPlainWithin meter.old calls.now }
    requires earlier_sound { All (IsPlainWithin meter.old) earlier.now }
    requires columns { All (λ c. called_form calls.now ≡ called_form c → free_columns calls.now.system ≡ free_columns c.system) earlier.now }
    ensures left { IfOk result (λ left. AreLeftOf meter.old calls.now earlier.now left.items) }
    ensures meter { IsMetered meter.old meter.new result }
{
    let others = systems_for(alloc, &calls.domain, earlier)?;
    let left = outside(alloc, &calls.system, others.as_slice(), meter)?;
    Ok(parts_of(alloc, calls, left)?)
}

// Puts the other calls behind these. They are as many together as are kept.
fn append(calls: &mut Vec<Calls>, more: &mut Vec<Calls>) -> Result<(), AllocError>
    ensures items { OnOk result (calls.new.items ≡ calls.old.items ++ more.old.items) }
{
    let count = calls.len().saturating_add(more.len());
    if more
        .last()
        .is_some_and(|one| are_too_many(count, &one.system))
    {
        return Err(AllocError);
    }
    calls.append(more)
}

/// The same calls, without those that an earlier one has: no two have a point in common.
///
/// # Errors
///
/// As every call under a meter.
pub(crate) fn apart(alloc: Global, calls: &[Calls], meter: &mut Meter) -> Result<Vec<Calls>, Cut>
    requires sound { All (IsPlainWithin meter.old) calls.now }
    requires even { AreEven calls.now }
    ensures apart { IfOk result (λ apart. AreApartOf meter.old calls.now apart.items) }
    ensures meter { IsMetered meter.old meter.new result }
{
    let mut apart = Vec::new(alloc);
    for i in 0..calls.len() {
        let mut left = left_of(alloc, &calls[i], &calls[..i], meter)?;
        append(&mut apart, &mut left)?;
    }
    Ok(apart)
}
