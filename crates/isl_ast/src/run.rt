//! The execution of loops.

ghost use Rattle.std.specs.Prelude.{◌≡◌, ◌+◌, ◌+ℤ◌, ◌<◌, ◌<ℤ◌, ◌≤ℤ◌, pos, length, All, Any, IfErr, OnOk, MatchOption, MatchResult};
ghost use Rattle.isl_meter.specs.Gauge.{IsCutBy};
ghost use Rattle.isl_meter.specs.declared.Cut.TheVariants.{Overflow, Budget};
ghost use Rattle.isl_loop.specs.Formed.{IsLoopOver, RunPasses};
ghost use Rattle.isl_loop.specs.Lists.{calls_of, turns_through};
ghost use Rattle.isl_loop.specs.Run.{trace, turns_of};
ghost use Rattle.isl_loop.specs.Turns.{turns};
ghost use Rattle.isl_ast.specs.Called.{AreCalled};
ghost use Rattle.isl_ast.specs.Run.{turn_calls, turn_units, IsAppended, TurnsPass};

use crate::arguments::set_values;
use crate::call::Calls;
use crate::value::value;
use crate::{Call, Callee};
use isl_loop::Loop;
use isl_meter::{Cut, Int, Meter};
use std::alloc::Global;

// The numbers from `low` to `high`, a step apart.
#[derive(Clone, Copy)]
struct Range {
    low: Int,
    high: Int,
    step: Int,
}

impl Range {
    fn first(&self) -> Option<Int>
        ensures { MatchOption result (self.now.high <ℤ self.now.low) (λ x. (x ≡ self.now.low) × x ≤ℤ self.now.high) }
    {
        (self.low <= self.high).then_some(self.low)
    }

    // The number behind `x`. No sum passes what an `i128` holds.
    fn after(&self, x: Int) -> Option<Int>
        requires { pos 0 ≤ℤ self.now.step }
        ensures { MatchOption result (self.now.high <ℤ (x +ℤ self.now.step)) (λ y. (y ≡ x +ℤ self.now.step) × y ≤ℤ self.now.high) }
    {
        let high = self.high.get();
        match x.get().checked_add(self.step.get()) {
            Some(sum) if sum <= high => Some(Int::new(sum)),
            _ => None,
        }
    }
}

// The numbers of the columns so far, and room for those of a call.
#[derive(Drop)]
struct Run {
    point: Vec<i128>,
    args: Vec<i128>,
}

// The body, for each number of a range.
#[cycle(run)]
fn repeat<C: Callee>(
    body: &Loop,
    range: Range,
    run: &mut Run,
    callee: &mut C,
    meter: &mut Meter,
) -> Result<(), Cut>
    requires body { IsLoopOver meter.old (length run.old.point.items + 1) body.now }
    requires step { pos 0 <ℤ range.step }
    ensures run { IsAppended C.called meter.old meter.new callee.old callee.new
        (turn_calls body.now run.old.point.items (turns range.low range.high range.step))
        (turn_units body.now run.old.point.items (turns range.low range.high range.step))
        (TurnsPass meter.old body.now run.old.point.items (turns range.low range.high range.step)) result }
    ensures point { OnOk result (run.new.point.items ≡ run.old.point.items) }
{
    let mut next = range.first();
    while let Some(x) = next {
        meter.unit()?;
        run.point.push(x.get())?;
        append(body, run, callee, meter)?;
        run.point.pop();
        next = range.after(x);
    }
    Ok(())
}

// Loops one behind another.
#[cycle(run)]
fn append_all<C: Callee>(
    parts: &[Loop],
    run: &mut Run,
    callee: &mut C,
    meter: &mut Meter,
) -> Result<(), Cut>
    requires { All (IsLoopOver meter.old (length run.old.point.items)) parts.now }
    ensures run { IsAppended C.called meter.old meter.new callee.old callee.new
        (calls_of parts.now run.old.point.items) (turns_through parts.now run.old.point.items)
        (Any (RunPasses meter.old run.old.point.items) parts.now) result }
    ensures point { OnOk result (run.new.point.items ≡ run.old.point.items) }
{
    for part in parts {
        append(part, run, callee, meter)?;
    }
    Ok(())
}

// The calls of the tree, behind others.
#[cycle(run)]
fn append<C: Callee>(
    tree: &Loop,
    run: &mut Run,
    callee: &mut C,
    meter: &mut Meter,
) -> Result<(), Cut>
    requires { IsLoopOver meter.old (length run.old.point.items) tree.now }
    ensures run { IsAppended C.called meter.old meter.new callee.old callee.new
        (trace tree.now run.old.point.items) (turns_of tree.now run.old.point.items)
        (RunPasses meter.old run.old.point.items tree.now) result }
    ensures point { OnOk result (run.new.point.items ≡ run.old.point.items) }
{
    match tree {
        Loop::Block(parts) => append_all(parts.as_slice(), run, callee, meter),
        Loop::For(low, high, step, body) => {
            let low = value(low, run.point.as_slice(), meter)?;
            let high = value(high, run.point.as_slice(), meter)?;
            let step = Int::new(*step);
            repeat(body.get(), Range { low, high, step }, run, callee, meter)
        }
        Loop::If(rows, body) => {
            if rows.hold_at(run.point.as_slice(), meter)? {
                append(body.get(), run, callee, meter)
            } else {
                Ok(())
            }
        }
        Loop::Call(name, args) => {
            set_values(&mut run.args, args.as_slice(), run.point.as_slice(), meter)?;
            callee.call(name, run.args.as_slice())?;
            Ok(())
        }
    }
}

/// Runs the tree, where `at` has the numbers of the declared parameters: each call of it, in order. A unit is used for each turn of a
/// loop, and no other.
///
/// # Errors
///
/// `Overflow` where a product or a sum of the run passes the limit of the meter, `Budget` where the budget has no unit for some
/// turn, and `NoMemory`.
pub fn run_loops<C: Callee>(
    alloc: Global,
    tree: &Loop,
    at: &[i128],
    callee: &mut C,
    meter: &mut Meter,
) -> Result<(), Cut>
    requires { IsLoopOver meter.old (length at.now) tree.now }
    ensures exact { MatchResult result
        (λ _. AreCalled C.called callee.old (trace tree.now at.now) callee.new
        × (meter.new ≡ record meter.old { units = meter.old.units + turns_of tree.now at.now }))
        (IsCutBy meter.old meter.new) }
    ensures overflow { IfErr result (λ cut. cut ≡ Overflow → RunPasses meter.old at.now tree.now) }
    ensures budget { IfErr result (λ cut. cut ≡ Budget → meter.old.budget < meter.old.units + turns_of tree.now at.now) }
{
    let mut run = Run {
        point: Vec::from_slice(alloc, at)?,
        args: Vec::new(alloc),
    };
    append(tree, &mut run, callee, meter)
}

/// The calls of the tree, in order, where `at` has the numbers of the declared parameters. A unit is used for each turn of a
/// loop, and no other.
///
/// # Errors
///
/// As of `run_loops`.
pub fn execute(alloc: Global, tree: &Loop, at: &[i128], meter: &mut Meter) -> Result<Vec<Call>, Cut>
    requires { IsLoopOver meter.old (length at.now) tree.now }
    ensures exact { MatchResult result
        (λ calls. (calls.items ≡ trace tree.now at.now)
        × (meter.new ≡ record meter.old { units = meter.old.units + turns_of tree.now at.now }))
        (IsCutBy meter.old meter.new) }
    ensures overflow { IfErr result (λ cut. cut ≡ Overflow → RunPasses meter.old at.now tree.now) }
    ensures budget { IfErr result (λ cut. cut ≡ Budget → meter.old.budget < meter.old.units + turns_of tree.now at.now) }
{
    let mut calls = Calls::new(alloc);
    run_loops(alloc, tree, at, &mut calls, meter)?;
    Ok(calls.into_vec())
}
