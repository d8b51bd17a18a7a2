//! Chains of comparisons, which must hold or must not, on lists of systems.

ghost use Rattle.std.specs.Prelude.{◌≡◌, false, All, MatchResult};
ghost use Rattle.isl_meter.specs.Gauge.{IsCutBy};
ghost use Rattle.isl_affine.specs.Comparison as spec;
ghost use Rattle.isl_alternatives.specs.Ahead.{ahead_of};
ghost use Rattle.isl_alternatives.specs.Chain as chain;
ghost use Rattle.isl_alternatives.specs.Chain.{HoldsCompared, EachCompared, IsComparedKnown, chain_compared};
ghost use Rattle.isl_alternatives.specs.Restricted.{AreRestricted, HoldsAs, IsOver};
ghost use Rattle.isl_tree.specs.Formula.{ChainHolds};

use crate::comparisons::Comparisons;
use crate::lists::{ROOM, append, begun, copies, with_room};
use isl_affine::{Comparison, Scope, with_comparison};
use isl_meter::{Cut, Meter};
use isl_piece::System;
use isl_tree::tree::{Compare, Link, Term};
use std::alloc::Global;

/// A chain, which must hold or must not.
#[derive(Clone, Copy)]
pub(crate) struct Chain<'a> {
    pub(crate) first: &'a [Term],
    pub(crate) links: &'a [Link],
    pub(crate) holds: bool,
}

// The sign that holds where this one does not.
fn opposite(compare: Compare) -> Compare
    ensures { result ≡ chain.opposite compare }
{
    match compare {
        Compare::Equal => Compare::Differs,
        Compare::Less => Compare::GreaterEqual,
        Compare::LessEqual => Compare::Greater,
        Compare::Greater => Compare::LessEqual,
        Compare::GreaterEqual => Compare::Less,
        Compare::Differs => Compare::Equal,
    }
}

// ---- systems with comparisons
// The systems with a comparison that one row tells.
#[tactic(auto, using(std::proofs::lemmas::Grind::common_steps, crate::proofs::ChainLaws::steps))]
fn with_row(
    alloc: Global,
    systems: Vec<System>,
    comparison: &Comparison<'_>,
    scope: &Scope,
    meter: &mut Meter,
) -> Result<Vec<System>, Cut>
    requires over { All (IsOver meter.old scope.now) systems.items }
    requires known { IsComparedKnown scope.now (comparison.now.left.now, comparison.now.compare, comparison.now.right.now) }
    requires single { spec.splits comparison.now.compare comparison.now.left.now comparison.now.right.now ≡ false }
    ensures { MatchResult result
        (λ new. AreRestricted meter.old meter.new scope.now systems.items
        (λ point env. HoldsCompared (comparison.now.left.now, comparison.now.compare, comparison.now.right.now) env) new.items)
        (IsCutBy meter.old meter.new) }
{
    let mut new = Vec::with_capacity(alloc, systems.len())?;
    for system in systems {
        let with = with_comparison(alloc, system, comparison, scope, meter)?;
        new.push(with)?;
    }
    Ok(new)
}

// The systems with a comparison: two for each where no single row tells it, the second of which costs a unit.
#[tactic(auto, using(std::proofs::lemmas::Grind::common_steps, crate::proofs::ChainLaws::steps))]
fn compared(
    alloc: Global,
    systems: Vec<System>,
    comparison: &Comparison<'_>,
    scope: &Scope,
    meter: &mut Meter,
) -> Result<Vec<System>, Cut>
    requires over { All (IsOver meter.old scope.now) systems.items }
    requires known { IsComparedKnown scope.now (comparison.now.left.now, comparison.now.compare, comparison.now.right.now) }
    ensures { MatchResult result
        (λ new. AreRestricted meter.old meter.new scope.now systems.items
        (λ point env. HoldsCompared (comparison.now.left.now, comparison.now.compare, comparison.now.right.now) env) new.items)
        (IsCutBy meter.old meter.new) }
{
    if !comparison.splits() {
        return with_row(alloc, systems, comparison, scope, meter);
    }
    let less = Comparison {
        left: comparison.left,
        compare: Compare::Less,
        right: comparison.right,
    };
    let greater = Comparison {
        left: comparison.left,
        compare: Compare::Greater,
        right: comparison.right,
    };
    let base = copies(alloc, systems.as_slice())?;
    let mut below = with_row(alloc, base, &less, scope, meter)?;
    let rest = begun(alloc, systems.as_slice(), below.as_slice(), meter)?;
    let mut above = with_row(alloc, rest, &greater, scope, meter)?;
    append(&mut below, &mut above)?;
    Ok(below)
}

// The systems where each of the comparisons holds. They are made normal on the way as often as their rows have become many, so that
// rows that say the same are not kept.
#[tactic(auto, using(std::proofs::lemmas::Grind::common_steps, crate::proofs::ChainLaws::steps))]
fn with_all(
    alloc: Global,
    mut systems: Vec<System>,
    mut ahead: Comparisons<'_>,
    scope: &Scope,
    meter: &mut Meter,
) -> Result<Vec<System>, Cut>
    requires over { All (IsOver meter.old scope.now) systems.items }
    requires known { All (IsComparedKnown scope.now) (ahead_of ahead) }
    ensures { MatchResult result
        (λ new. AreRestricted meter.old meter.new scope.now systems.items (λ point env. EachCompared (ahead_of ahead.entry) env) new.items)
        (IsCutBy meter.old meter.new) }
{
    let mut room = ROOM;
    while let Some(comparison) = ahead.next() {
        let new = compared(alloc, systems, &comparison, scope, meter)?;
        systems = with_room(alloc, new, &mut room, scope, meter)?;
    }
    Ok(systems)
}

// The systems where some of the comparisons does not hold.
#[tactic(auto, using(std::proofs::lemmas::Grind::common_steps, crate::proofs::ChainLaws::steps))]
fn with_denied(
    alloc: Global,
    systems: &[System],
    mut ahead: Comparisons<'_>,
    scope: &Scope,
    meter: &mut Meter,
) -> Result<Vec<System>, Cut>
    requires over { All (IsOver meter.old scope.now) systems.now }
    requires known { All (IsComparedKnown scope.now) (ahead_of ahead) }
    ensures { MatchResult result
        (λ new. AreRestricted meter.old meter.new scope.now systems.now (λ point env. ¬ EachCompared (ahead_of ahead.entry) env) new.items)
        (IsCutBy meter.old meter.new) }
{
    let mut found = Vec::new(alloc);
    while let Some(comparison) = ahead.next() {
        let denied = Comparison {
            left: comparison.left,
            compare: opposite(comparison.compare),
            right: comparison.right,
        };
        let base = begun(alloc, systems, found.as_slice(), meter)?;
        let mut more = compared(alloc, base, &denied, scope, meter)?;
        append(&mut found, &mut more)?;
    }
    Ok(found)
}

/// The systems where the chain holds, or where it does not.
#[tactic(auto, using(std::proofs::lemmas::Grind::common_steps, crate::proofs::ChainLaws::steps))]
pub(crate) fn with_chain(
    alloc: Global,
    systems: Vec<System>,
    chain: &Chain<'_>,
    scope: &Scope,
    meter: &mut Meter,
) -> Result<Vec<System>, Cut>
    requires over { All (IsOver meter.old scope.now) systems.items }
    requires known { All (IsComparedKnown scope.now) (chain_compared chain.now.first.now chain.now.links.now) }
    ensures { MatchResult result
        (λ new. AreRestricted meter.old meter.new scope.now systems.items
        (HoldsAs chain.now.holds (ChainHolds chain.now.first.now chain.now.links.now)) new.items)
        (IsCutBy meter.old meter.new) }
{
    let ahead = Comparisons::of_chain(chain.first, chain.links);
    if chain.holds {
        return with_all(alloc, systems, ahead, scope, meter);
    }
    with_denied(alloc, systems.as_slice(), ahead, scope, meter)
}
