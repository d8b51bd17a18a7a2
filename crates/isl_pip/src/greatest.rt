//! Trees of the greatest lists that systems leave behind a front.

ghost use Rattle.std.specs.Prelude.{◌+◌, ◌<◌, ◌≤◌, ◌^◌, IfOk, MatchResult};
ghost use Rattle.isl_meter.specs.Gauge.{IsCharged};
ghost use Rattle.isl_greatest.specs.Fault.{IsPipFault};
ghost use Rattle.isl_pip.specs.Greatest.{HaveGreatest, IsGreatestTree};
ghost use Rattle.isl_pip.specs.Levels.{ArePlainOver};

use crate::levels::problem_of;
use crate::lift::{anchor_of, lifted_systems};
use crate::without::without;
use isl_greatest::{PipFault, greatest_tree};
use isl_meter::Meter;
use isl_piece::System;
use isl_quast::Quast;
use std::alloc::Global;

/// The tree of the greatest lists that the systems leave behind each front.
///
/// A congruence on one of the first `at` numbers, of which that is the last one, is not tried number by number: its quotient is put before the
/// number as one more, which the greatest list has too, since it does not fall where the number rises, and is taken out of the leaves.
///
/// # Errors
///
/// As every call under a meter; and `NoMinimum` only where behind some front there are lists, and none is the greatest.
#[tactic(auto, using(std::proofs::lemmas::Grind::common_steps, isl_meter::proofs::CutLemmas::charges))]
pub(crate) fn greatest_in(
    alloc: Global,
    systems: Vec<System>,
    front: usize,
    width: usize,
    at: usize,
    meter: &mut Meter,
) -> Result<Quast, PipFault>
    requires systems { ArePlainOver meter.old (front + width) systems.items }
    requires some { 0 < width }
    requires at { at ≤ width }
    requires fits { front + width + at + 1 < 2 ^ 64 }
    ensures tree { IfOk result (IsGreatestTree meter.old front width systems.items) }
    ensures meter { MatchResult result (λ _. IsCharged meter.old meter.new)
        (IsPipFault (¬ HaveGreatest front width systems.items) meter.old meter.new) }
{
    if at == 0 {
        let problem = problem_of(alloc, systems, front, width, meter)?;
        return greatest_tree(alloc, &problem, meter);
    }
    let place = at - 1;
    let columns = front + width;
    let column = front + place;
    let found = anchor_of(alloc, systems.as_slice(), columns, column, meter)?;
    let Some(anchor) = found else {
        return greatest_in(alloc, systems, front, width, place, meter);
    };
    let more = lifted_systems(alloc, systems.as_slice(), columns, column, &anchor, meter)?;
    let tree = greatest_in(alloc, more, front, width + 1, place, meter)?;
    let left = without(alloc, tree, width, place)?;
    Ok(left)
}
