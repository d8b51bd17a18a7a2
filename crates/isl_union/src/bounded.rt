//! Whether values have finitely many elements.

ghost use Rattle.std.specs.Prelude.{◌≡◌, ◌↔◌, ◌≤◌, [], All, IfOk, IsTrue, MatchResult, length};
ghost use Rattle.isl_meter.specs.Gauge.{IsCharged, IsMetered};
ghost use Rattle.isl_space.specs.Valuation.{Valuation, values_of};
ghost use Rattle.isl_piece.specs.System.{IsSystemWithin, free_columns};
ghost use Rattle.isl_union.specs.Fault.{IsCutFault};
ghost use Rattle.isl_union.specs.Finite.{IsFinite, IsFiniteAt};
ghost use Rattle.isl_union.specs.Front.{front_width, IsBoundedBehind};
ghost use Rattle.isl_union.specs.Numbers.{AreWithinLimit, IsWithinLimit};

use crate::{OpFault, Value};
use isl_elim::flatten;
use isl_meter::{Cut, Meter};
use isl_piece::{Piece, System};
use isl_tower::{is_bounded, is_bounded_at};
use std::alloc::Global;

// The numbers at the front of points, behind which others are asked to be bounded: all lists of so many, or this one.
#[derive(Clone, Copy)]
enum Front<'a> {
    Each(usize),
    At(&'a [i128]),
}

// Whether the system, which defines no column, is bounded behind the front.
#[tactic(auto, using(std::proofs::lemmas::Grind::common_steps, isl_meter::proofs::CutLemmas::charges))]
fn is_plain_bounded(
    alloc: Global,
    system: &System,
    front: &Front<'_>,
    meter: &mut Meter,
) -> Result<bool, Cut>
    requires within { IsSystemWithin meter.old system.now }
    requires plain { system.now.definitions ≡ [] }
    requires columns { front_width front.now ≤ free_columns system.now }
    ensures exact { IfOk result (λ bounded. IsTrue bounded ↔ IsBoundedBehind front.now system.now) }
    ensures meter { IsMetered meter.old meter.new result }
{
    match *front {
        Front::Each(outer) => is_bounded(alloc, system, outer, meter),
        Front::At(numbers) => is_bounded_at(alloc, system, numbers, meter),
    }
}

// Whether each of the systems, which define no column, is bounded behind the front.
#[tactic(auto, using(std::proofs::lemmas::Grind::common_steps, isl_meter::proofs::CutLemmas::charges))]
fn are_bounded(
    alloc: Global,
    systems: &[System],
    front: &Front<'_>,
    meter: &mut Meter,
) -> Result<bool, Cut>
    requires within { All (IsSystemWithin meter.old) systems.now }
    requires plain { All (λ s. s.definitions ≡ []) systems.now }
    requires columns { All (λ s. front_width front.now ≤ free_columns s) systems.now }
    ensures exact { IfOk result (λ bounded. IsTrue bounded ↔ All (IsBoundedBehind front.now) systems.now) }
    ensures meter { IsMetered meter.old meter.new result }
{
    for system in systems {
        if !is_plain_bounded(alloc, system, front, meter)? {
            return Ok(false);
        }
    }
    Ok(true)
}

// The same of one system, with defined columns or without.
#[tactic(auto, using(std::proofs::lemmas::Grind::common_steps, isl_meter::proofs::CutLemmas::charges))]
fn is_system_bounded(
    alloc: Global,
    system: &System,
    front: &Front<'_>,
    meter: &mut Meter,
) -> Result<bool, Cut>
    requires within { IsSystemWithin meter.old system.now }
    requires columns { front_width front.now ≤ free_columns system.now }
    ensures exact { IfOk result (λ bounded. IsTrue bounded ↔ IsBoundedBehind front.now system.now) }
    ensures meter { IsMetered meter.old meter.new result }
{
    let systems = flatten(alloc, system, meter)?;
    are_bounded(alloc, systems.as_slice(), front, meter)
}

// The same of the systems of the pieces.
#[tactic(auto, using(std::proofs::lemmas::Grind::common_steps, isl_meter::proofs::CutLemmas::charges))]
fn are_pieces_bounded(
    alloc: Global,
    pieces: &[Piece],
    front: &Front<'_>,
    meter: &mut Meter,
) -> Result<bool, Cut>
    requires within { AreWithinLimit meter.old pieces.now }
    requires columns { All (λ piece. front_width front.now ≤ free_columns piece.system) pieces.now }
    ensures exact { IfOk result (λ bounded. IsTrue bounded ↔ All (λ piece. IsBoundedBehind front.now piece.system) pieces.now) }
    ensures meter { IsMetered meter.old meter.new result }
{
    for piece in pieces {
        if !is_system_bounded(alloc, piece.system(), front, meter)? {
            return Ok(false);
        }
    }
    Ok(true)
}

impl Value {
    /// Whether the value has finitely many elements at every valuation. (isl manual, on bounded sets)
    ///
    /// # Errors
    ///
    /// `Overflow` where a number passes the limit of the meter, `Budget` where its units are used up, and `NoMemory`; never
    /// `TooWide`.
    #[tactic(auto, using(std::proofs::lemmas::Grind::common_steps, isl_meter::proofs::CutLemmas::charges))]
    pub fn bounded(&self, alloc: Global, meter: &mut Meter) -> Result<bool, OpFault>
        requires { IsWithinLimit meter.old self.now }
        ensures exact { IfOk result (λ bounded. IsTrue bounded ↔ IsFinite self.now) }
        ensures meter { MatchResult result (λ _. IsCharged meter.old meter.new) (IsCutFault meter.old meter.new) }
    {
        let front = Front::Each(self.params().len());
        Ok(are_pieces_bounded(alloc, self.pieces(), &front, meter)?)
    }

    /// Whether the value has finitely many elements where its parameters have these numbers, in their order. (isl manual, on
    /// bounded sets)
    ///
    /// # Errors
    ///
    /// `Overflow` where a number passes the limit of the meter, `Budget` where its units are used up, and `NoMemory`; never
    /// `TooWide`.
    #[tactic(auto, using(std::proofs::lemmas::Grind::common_steps, isl_meter::proofs::CutLemmas::charges))]
    pub fn bounded_at(&self, alloc: Global, at: &[i128], meter: &mut Meter) -> Result<bool, OpFault>
        requires within { IsWithinLimit meter.old self.now }
        requires numbers { length at.now ≡ length self.now.params }
        ensures exact { (valuation : Valuation) → values_of self.now.params valuation ≡ at.now
            → IfOk result (λ bounded. IsTrue bounded ↔ IsFiniteAt self.now valuation) }
        ensures meter { MatchResult result (λ _. IsCharged meter.old meter.new) (IsCutFault meter.old meter.new) }
    {
        let front = Front::At(at);
        Ok(are_pieces_bounded(alloc, self.pieces(), &front, meter)?)
    }
}
