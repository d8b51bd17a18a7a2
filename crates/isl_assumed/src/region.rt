//! Valuations at which one of some systems holds.

ghost use Rattle.std.specs.Prelude.{◌≡◌, ◌↔◌, ◌+◌, ◌*◌, ◌≤◌, [], All, Any, IfOk, IsTrue, MatchResult, length};
ghost use Rattle.isl_meter.specs.Gauge.{IsCharged, IsMetered};
ghost use Rattle.isl_space.specs.Limits.{most_parameters};
ghost use Rattle.isl_space.specs.Element.{Element};
ghost use Rattle.isl_space.specs.Names.{joined};
ghost use Rattle.isl_space.specs.Valuation.{Valuation, value_at, values_of};
ghost use Rattle.isl_piece.specs.Cut.{IsCutFor};
ghost use Rattle.isl_piece.specs.System.{IsSystemWithin, SystemPassesLimit, free_columns};
ghost use Rattle.isl_difference.specs.Split.{IsLive};
ghost use Rattle.isl_elim.specs.Elimination.{HoldsAtAny};
ghost use Rattle.isl_union.specs.Fault.{IsFaultBy};
ghost use Rattle.isl_union.specs.KeptValue.{Has, HasNoDefinitions};
ghost use Rattle.isl_union.specs.Numbers.{IsWithinLimit};
ghost use Rattle.isl_assumed.specs.Region.{IsRegion};
ghost use Rattle.isl_assumed.specs.Left.{AreMet, IsCommon};

use crate::left::left_of;
use crate::onto::systems_onto;
use crate::pairing::pairs;
use isl_blocks::live_without;
use isl_difference::append;
use isl_meter::{Cut, Meter};
use isl_piece::System;
use isl_space::{Name, Params};
use isl_union::{OpFault, Value};
use std::alloc::{AllocError, Global};

/// Names, and systems over a column for each of them.
#[derive(Drop)]
pub struct Region {
    pub params: Params,
    pub systems: Vec<System>,
}

// Copies of the systems.
fn copies(alloc: Global, systems: &[System]) -> Result<Vec<System>, AllocError>
    ensures { IfOk result (λ copies. copies.items ≡ systems.now) }
{
    let mut copies = Vec::with_capacity(alloc, systems.len())?;
    for system in systems {
        copies.push(system.copy(alloc)?)?;
    }
    Ok(copies)
}

// The number that is given to the name, or 0.
fn number_of(name: &Name, at: &[(Name, i128)]) -> i128
    ensures { result ≡ value_at at.now name.now }
{
    for given in at {
        if given.0 == *name {
            return given.1;
        }
    }
    0
}

// The numbers that are given to the parameters.
fn numbers_of(alloc: Global, params: &Params, at: &[(Name, i128)]) -> Result<Vec<i128>, AllocError>
    ensures { IfOk result (λ numbers. numbers.items ≡ values_of params.now at.now) }
{
    let mut numbers = Vec::with_capacity(alloc, params.len())?;
    for place in 0..params.len() {
        numbers.push(number_of(params.name(place), at))?;
    }
    Ok(numbers)
}

// Whether one of the systems holds at the point.
fn hold_at_any(
    alloc: Global,
    systems: &[System],
    point: &[i128],
    meter: &mut Meter,
) -> Result<bool, Cut>
    requires within { All (IsSystemWithin meter.old) systems.now }
    requires columns { All (λ s. free_columns s ≡ length point.now) systems.now }
    ensures { MatchResult result
        (λ holds. (IsTrue holds ↔ HoldsAtAny systems.now point.now) × (meter.new ≡ meter.old))
        (IsCutFor (Any (λ s. SystemPassesLimit meter.old s point.now) systems.now) meter.old meter.new) }
{
    for system in systems {
        if system.holds_at(alloc, point, meter)? {
            return Ok(true);
        }
    }
    Ok(false)
}

// The systems that hold where one of these does, and one of the others, over a column for each name.
#[tactic(auto, using(std::proofs::lemmas::Grind::common_steps, isl_meter::proofs::CutLemmas::charges))]
fn all_pairs(
    alloc: Global,
    systems: &[System],
    others: &[System],
    names: usize,
    meter: &mut Meter,
) -> Result<Vec<System>, Cut>
    requires systems { All (IsLive meter.old names) systems.now }
    requires others { All (IsLive meter.old names) others.now }
    ensures met { IfOk result (λ met. AreMet meter.old names systems.now others.now met.items) }
    ensures units { IfOk result (λ _. meter.new.units ≡ meter.old.units + length systems.now * length others.now) }
    ensures meter { IsMetered meter.old meter.new result }
{
    let mut all = Vec::new(alloc);
    for system in systems {
        let mut more = pairs(alloc, system, others, names, 0, meter)?;
        append(&mut all, &mut more)?;
    }
    Ok(all)
}

impl Region {
    /// The valuations at which the value has an element.
    #[tactic(auto, using(std::proofs::lemmas::Grind::common_steps, isl_meter::proofs::CutLemmas::charges))]
    pub(crate) fn of(alloc: Global, value: &Value, meter: &mut Meter) -> Result<Region, Cut>
        requires { IsWithinLimit meter.old value.now }
        ensures names { IfOk result (λ region. region.params ≡ value.now.params) }
        ensures valuations { (valuation : Valuation) → IfOk result (λ region.
            HoldsAtAny region.systems.items (values_of region.params valuation)
            ↔ ((element : Element) × Has value.now valuation element)) }
        ensures sound { IfOk result (λ region. IsRegion meter.old region.params region.systems.items) }
        ensures plain { HasNoDefinitions value.now → IfOk result (λ region. All (λ s. s.definitions ≡ []) region.systems.items) }
        ensures meter { IsMetered meter.old meter.new result }
    {
        let params = value.params();
        let names = params.len();
        let mut systems = Vec::new(alloc);
        let pieces = value.pieces();
        for piece in pieces {
            let count = piece.space().width() as usize;
            let mut more = live_without(alloc, piece.system(), names, count, meter)?;
            append(&mut systems, &mut more)?;
        }
        let params = params.copy(alloc)?;
        Ok(Region { params, systems })
    }

    pub(crate) fn copy(&self, alloc: Global) -> Result<Region, AllocError>
        ensures { IfOk result (λ region. (region.params ≡ self.now.params) × (region.systems.items ≡ self.now.systems.items)) }
    {
        Ok(Region {
            params: self.params.copy(alloc)?,
            systems: copies(alloc, self.systems.as_slice())?,
        })
    }

    /// The valuations of both.
    pub(crate) fn meet(
        &self,
        alloc: Global,
        other: &Region,
        meter: &mut Meter,
    ) -> Result<Region, OpFault>
        requires own { IsRegion meter.old self.now.params self.now.systems.items }
        requires other { IsRegion meter.old other.now.params other.now.systems.items }
        ensures names { IfOk result (λ region. region.params ≡ joined self.now.params other.now.params) }
        ensures valuations { (valuation : Valuation) → IfOk result (λ region.
            HoldsAtAny region.systems.items (values_of region.params valuation)
            ↔ (HoldsAtAny self.now.systems.items (values_of self.now.params valuation)
            × HoldsAtAny other.now.systems.items (values_of other.now.params valuation))) }
        ensures sound { IfOk result (λ region. IsRegion meter.old region.params region.systems.items) }
        ensures plain { All (λ s. s.definitions ≡ []) self.now.systems.items → All (λ s. s.definitions ≡ []) other.now.systems.items
            → IfOk result (λ region. All (λ s. s.definitions ≡ []) region.systems.items) }
        ensures units { MatchResult result
            (λ _. (length (joined self.now.params other.now.params) ≤ most_parameters) × IsCharged meter.old meter.new)
            (IsFaultBy (joined self.now.params other.now.params) meter.old meter.new) }
        ensures work { IfOk result (λ _.
            meter.old.units + length self.now.systems.items * length other.now.systems.items ≤ meter.new.units) }
    {
        let (params, _places) = self.params.align(alloc, &other.params)?;
        let systems = common(alloc, &params, self, other, meter)?;
        Ok(Region { params, systems })
    }

    /// Whether the valuation is one of these.
    pub(crate) fn holds(
        &self,
        alloc: Global,
        at: &[(Name, i128)],
        meter: &mut Meter,
    ) -> Result<bool, Cut>
        requires { IsRegion meter.old self.now.params self.now.systems.items }
        ensures { MatchResult result
            (λ holds. (IsTrue holds ↔ HoldsAtAny self.now.systems.items (values_of self.now.params at.now)) × (meter.new ≡ meter.old))
            (IsCutFor (Any (λ s. SystemPassesLimit meter.old s (values_of self.now.params at.now)) self.now.systems.items)
            meter.old meter.new) }
    {
        let numbers = numbers_of(alloc, &self.params, at)?;
        hold_at_any(alloc, self.systems.as_slice(), numbers.as_slice(), meter)
    }
}

// The systems that hold where one of both regions does, over the joined names.
#[tactic(auto, using(std::proofs::lemmas::Grind::common_steps, isl_meter::proofs::CutLemmas::charges))]
fn common(
    alloc: Global,
    all: &Params,
    region: &Region,
    other: &Region,
    meter: &mut Meter,
) -> Result<Vec<System>, Cut>
    requires own { IsRegion meter.old region.now.params region.now.systems.items }
    requires other { IsRegion meter.old other.now.params other.now.systems.items }
    requires all { all.now ≡ joined region.now.params other.now.params }
    ensures common { IfOk result (λ common. IsCommon meter.old all.now region.now.params region.now.systems.items other.now.params
        other.now.systems.items common.items) }
    ensures work { IfOk result (λ _.
        meter.old.units + length region.now.systems.items * length other.now.systems.items ≤ meter.new.units) }
    ensures meter { IsMetered meter.old meter.new result }
{
    let own = systems_onto(alloc, region, all, meter)?;
    let others = systems_onto(alloc, other, all, meter)?;
    let names = all.len();
    let met = all_pairs(alloc, own.as_slice(), others.as_slice(), names, meter)?;
    left_of(alloc, met.as_slice(), names, 0, meter)
}
