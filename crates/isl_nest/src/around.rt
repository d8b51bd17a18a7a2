//! Columns that a loop goes through.

ghost use Rattle.std.specs.Prelude.{◌≡◌, ◌+◌, ◌^◌, ◌<◌, ◌++◌, All, IfOk, IfSome, IsNone, MatchOption, OnOk, length};
ghost use Rattle.isl_meter.specs.Gauge.{IsDone, IsMetered};
ghost use Rattle.isl_frame.specs.Needed.{AreRowsOver};
ghost use Rattle.isl_bounds.specs.Bound.{AreEndGroups};
ghost use Rattle.isl_bounds.specs.Ends.{AreEnded};
ghost use Rattle.isl_bounds.specs.Head.{IsHeadOf};
ghost use Rattle.isl_bounds.specs.Step.{IsStep};
ghost use Rattle.isl_bounds.specs.declared.side.Side.TheVariants.{Low, High};
ghost use Rattle.isl_nest.specs.Places.{AreGuards, IsPlace};
ghost use Rattle.isl_nest.specs.Stepping.{only_of, steps_of, IsStepAmong, TellsStep};

use crate::Place;
use crate::sides::{Sides, ends_through, joined};
use isl_bounds::{Head, pruned, step_of};
use isl_frame::{needed, widened};
use isl_meter::{Cut, Meter};
use isl_piece::{Row, RowKind, Rows};
use std::alloc::{AllocError, Global};

/// The head of a loop, rows that its variable meets at each turn, and rows to be asked there.
#[derive(Drop)]
pub struct Around {
    pub head: Head,
    pub inside: Rows,
    pub guards: Rows,
}

// The first of the rows that is a step; `None` where no row tells one. Uses no unit.
fn step_among(
    alloc: Global,
    rows: &Rows,
    variables: usize,
    meter: &mut Meter,
) -> Result<Option<Row>, Cut>
    requires { AreRowsOver meter.old (variables + 1) rows.now }
    ensures { IsDone meter.old meter.new (λ step. IfSome step (IsStepAmong meter.old variables rows.now)
        × (IsNone step → All (λ r. ¬ TellsStep variables r) rows.now)) result }
{
    for row in rows.as_slice() {
        if row.kind != RowKind::Divides {
            continue;
        }
        if let Some(step) = step_of(alloc, row, variables, meter)? {
            return Ok(Some(step));
        }
    }
    Ok(None)
}

// The head between the bounds, with the step where there is one. Uses no unit.
fn head_of(
    alloc: Global,
    lows: &[Rows],
    highs: &[Rows],
    step: &Option<Row>,
    variables: usize,
    meter: &mut Meter,
) -> Result<Head, Cut>
    requires lows { AreEndGroups meter.old variables Low lows.now }
    requires highs { AreEndGroups meter.old variables High highs.now }
    requires step { IfSome step.now (IsStep meter.old variables) }
    ensures { IsDone meter.old meter.new (IsHeadOf meter.old variables lows.now highs.now (steps_of step.now)) result }
{
    match step {
        Some(step) => Head::stepping(alloc, lows, highs, step, variables, meter),
        None => Ok(Head::plain(alloc, lows, highs, variables, meter)?),
    }
}

// Puts the rows of the group to the rows, where there is but one.
fn push_only(alloc: Global, rows: &mut Rows, groups: &[Rows]) -> Result<(), AllocError>
    ensures { OnOk result (rows.new ≡ rows.old ++ only_of groups.now) }
{
    if groups.len() == 1 {
        rows.append(alloc, &groups[0])?;
    }
    Ok(())
}

// Rows that hold where some group of either side and the step do.
fn inside_of(
    alloc: Global,
    lows: &[Rows],
    highs: &[Rows],
    step: &Option<Row>,
) -> Result<Rows, AllocError>
    ensures { IfOk result (λ inside. inside ≡ only_of lows.now ++ only_of highs.now ++ steps_of step.now) }
{
    let mut inside = Rows::new(alloc);
    push_only(alloc, &mut inside, lows)?;
    push_only(alloc, &mut inside, highs)?;
    if let Some(step) = step {
        inside.push(step.copy(alloc)?)?;
    }
    Ok(inside)
}

impl Around {
    ghost use Rattle.isl_nest.specs.Around.{IsAround, IsAroundNothing};
    ghost use Rattle.isl_nest.specs.Between.{IsBetween};

    // A loop between the groups of either side, under the other rows.
    fn between(
        alloc: Global,
        place: &Place,
        sides: &Sides,
        others: Rows,
        meter: &mut Meter,
    ) -> Result<Around, Cut>
        requires place { IsPlace meter.old place.now }
        requires room { place.now.variables + 1 < 2 ^ 64 }
        requires lows { AreEndGroups meter.old place.now.variables Low sides.now.lows.items }
        requires highs { AreEndGroups meter.old place.now.variables High sides.now.highs.items }
        requires others { AreGuards meter.old (place.now.variables + 1) others }
        ensures between { IfOk result (IsBetween meter.old place.now sides.now others) }
        ensures meter { IsMetered meter.old meter.new result }
    {
        // For what a meter keeps: it has at least 8 bits.
        let _limit = meter.limit();
        let columns = place.variables + 1;
        let step = step_among(alloc, &others, place.variables, meter)?;
        let context = widened(alloc, &place.context)?;
        let lows = pruned(alloc, &context, sides.lows.as_slice(), columns, meter)?;
        let highs = pruned(alloc, &context, sides.highs.as_slice(), columns, meter)?;
        let head = head_of(
            alloc,
            lows.as_slice(),
            highs.as_slice(),
            &step,
            place.variables,
            meter,
        )?;
        let inside = inside_of(alloc, lows.as_slice(), highs.as_slice(), &step)?;
        let known = joined(alloc, &context, &inside)?;
        let guards = needed(alloc, &known, others, 0, columns, meter)?;
        Ok(Around {
            head,
            inside,
            guards,
        })
    }

    /// A loop for the column behind those of the place: through the numbers at which its own rows and a system hold; `None` where they
    /// hold nowhere.
    ///
    /// # Errors
    ///
    /// As every call under a meter.
    pub fn of(
        alloc: Global,
        place: &Place,
        own: &Rows,
        systems: &[Rows],
        meter: &mut Meter,
    ) -> Result<Option<Around>, Cut>
        requires place { IsPlace meter.old place.now }
        requires room { place.now.variables + 1 < 2 ^ 64 }
        requires own { AreRowsOver meter.old (length place.now.frame + 1) own.now }
        requires systems { All (AreRowsOver meter.old (length place.now.frame + 1)) systems.now }
        requires ended { All (AreEnded (length place.now.frame)) systems.now }
        ensures around { IfOk result (λ around. MatchOption around (IsAroundNothing place.now own.now systems.now)
            (IsAround meter.old place.now own.now systems.now)) }
        ensures meter { IsMetered meter.old meter.new result }
    {
        if systems.is_empty() {
            return Ok(None);
        }
        let ends = ends_through(alloc, place, own, meter)?;
        let sides = Sides::of(alloc, place, &ends, systems, meter)?;
        let Some(others) = ends.others.normalise(alloc, meter)? else {
            return Ok(None);
        };
        Ok(Some(Around::between(alloc, place, &sides, others, meter)?))
    }
}
