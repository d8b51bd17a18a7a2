//! The elements of values at assumed valuations.

ghost use Rattle.std.specs.Prelude.{◌≡◌, ◌↔◌, [], All, Any, Contains, IfOk, IsTrue, Ok, length, map, unsigned_abs};
ghost use Rattle.isl_meter.specs.Gauge.{IsMetered, limit_of};
ghost use Rattle.isl_space.specs.Element.{Element};
ghost use Rattle.isl_space.specs.Names.{AreDistinct};
ghost use Rattle.isl_space.specs.Valuation.{Valuation, values_of};
ghost use Rattle.isl_piece.specs.System.{IsSystemWithin};
ghost use Rattle.isl_difference.specs.Split.{IsLive};
ghost use Rattle.isl_elim.specs.Elimination.{HoldsAtAny};
ghost use Rattle.isl_union.specs.KeptValue.{Has, HasElement, HasNoDefinitions, IsKeptValue};
ghost use Rattle.isl_union.specs.Numbers.{IsPieceUpTo, IsWithinLimit};
ghost use Rattle.isl_union.specs.Piece.{kept_piece, IsPieceOf};
ghost use Rattle.isl_assumed.specs.declared.assumed.Assumed.TheVariants.{Nothing};
ghost use Rattle.isl_assumed.specs.Assumed.{names_of, Assumes, IsPlain, IsSound};
ghost use Rattle.isl_assumed.specs.Region.{IsRegion};
ghost use Rattle.isl_assumed.specs.Under.{IsLiveValue, IsUnder};
ghost use Rattle.isl_assumed.specs.Values.{AreLiveUnder, IsDeadAt};

use crate::onto::systems_onto;
use crate::pairing::{pair, pairs};
use crate::{Assumed, Region};
use isl_elim::is_empty;
use isl_meter::{Cut, Meter};
use isl_piece::{Piece, System};
use isl_space::Params;
use isl_union::{Value, append, live_pieces_in};
use std::alloc::{AllocError, Global};

// The elements of the piece at the points of which one of the systems holds, which are over a column for each parameter.
#[tactic(auto, using(std::proofs::lemmas::Grind::common_steps, isl_meter::proofs::CutLemmas::charges))]
fn piece_under(
    alloc: Global,
    params: &Params,
    piece: &Piece,
    systems: &[System],
    meter: &mut Meter,
) -> Result<Vec<Piece>, Cut>
    requires piece { IsPieceOf params.now piece.now }
    requires within { IsSystemWithin meter.old piece.now.system }
    requires systems { All (IsLive meter.old (length params.now)) systems.now }
    ensures elements { (valuation : Valuation) (element : Element)
        → IfOk result (λ under. Any (HasElement params.now valuation element) (map kept_piece under.items)
        ↔ (HasElement params.now valuation element (kept_piece piece.now) × HoldsAtAny systems.now (values_of params.now valuation))) }
    ensures sound { IfOk result (λ under. All (IsPieceOf params.now) under.items) }
    ensures definitions { piece.now.system.definitions ≡ [] → All (λ s. s.definitions ≡ []) systems.now
        → IfOk result (λ under. All (λ part. part.definitions ≡ []) (map kept_piece under.items)) }
    ensures numbers { IfOk result (λ under. All (IsPieceUpTo (unsigned_abs (limit_of meter.old))) (map kept_piece under.items)) }
    ensures meter { IsMetered meter.old meter.new result }
{
    let space = piece.space();
    let more = space.width() as usize;
    let names = params.len();
    let pairs = pairs(alloc, piece.system(), systems, names, more, meter)?;
    live_pieces_in(alloc, params, space, pairs, meter)
}

// Whether the piece has an element at which one of the systems holds. Nothing is asked behind the first that has one.
#[tactic(auto, using(std::proofs::lemmas::Grind::common_steps, isl_meter::proofs::CutLemmas::charges))]
fn is_live(
    alloc: Global,
    params: &Params,
    piece: &Piece,
    systems: &[System],
    meter: &mut Meter,
) -> Result<bool, Cut>
    requires names { AreDistinct params.now }
    requires piece { IsPieceOf params.now piece.now }
    requires within { IsSystemWithin meter.old piece.now.system }
    requires systems { All (IsLive meter.old (length params.now)) systems.now }
    ensures exact { IfOk result (λ live. IsTrue live
        ↔ (¬ IsDeadAt (λ valuation. HoldsAtAny systems.now (values_of params.now valuation)) params.now (kept_piece piece.now))) }
    ensures meter { IsMetered meter.old meter.new result }
{
    let more = piece.space().width() as usize;
    let names = params.len();
    for system in systems {
        let both = pair(alloc, piece.system(), system, names, more, meter)?;
        if !is_empty(alloc, &both, meter)? {
            return Ok(true);
        }
    }
    Ok(false)
}

// The same value.
fn copy_of(alloc: Global, value: &Value) -> Result<Value, AllocError>
    ensures same { IfOk result (λ copy. copy ≡ value.now) }
    ensures kept { IsKeptValue value.now }
{
    // For what a value keeps.
    let _pieces = value.pieces();
    value.copy(alloc)
}

// The elements of the value at the valuations of the region.
#[tactic(auto, using(std::proofs::lemmas::Grind::common_steps, isl_meter::proofs::CutLemmas::charges))]
fn under_region(
    alloc: Global,
    value: &Value,
    region: &Region,
    meter: &mut Meter,
) -> Result<Value, Cut>
    requires value { IsWithinLimit meter.old value.now }
    requires region { IsRegion meter.old region.now.params region.now.systems.items }
    requires declared { All (Contains value.now.params) region.now.params }
    ensures under { IfOk result (IsUnder meter.old value.now region.now.params region.now.systems.items) }
    ensures meter { IsMetered meter.old meter.new result }
{
    let params = value.params();
    let systems = systems_onto(alloc, region, params, meter)?;
    let pieces = value.pieces();
    let mut kept = Vec::new(alloc);
    for piece in pieces {
        let more = piece_under(alloc, params, piece, systems.as_slice(), meter)?;
        append(&mut kept, more)?;
    }
    Ok(Value::from_normal(params.copy(alloc)?, kept))
}

// The pieces of the value that have an element at a valuation of the region.
#[tactic(auto, using(std::proofs::lemmas::Grind::common_steps, isl_meter::proofs::CutLemmas::charges))]
fn live_in(alloc: Global, value: &Value, region: &Region, meter: &mut Meter) -> Result<Value, Cut>
    requires value { IsWithinLimit meter.old value.now }
    requires region { IsRegion meter.old region.now.params region.now.systems.items }
    ensures live { IfOk result (IsLiveValue meter.old value.now region.now.params region.now.systems.items) }
    ensures meter { IsMetered meter.old meter.new result }
{
    let params = value.params();
    let systems = systems_onto(alloc, region, params, meter)?;
    let pieces = value.pieces();
    let mut kept = Vec::new(alloc);
    for piece in pieces {
        if is_live(alloc, params, piece, systems.as_slice(), meter)? {
            kept.push(piece.copy()?)?;
        }
    }
    Ok(Value::from_normal(params.copy(alloc)?, kept))
}

/// The elements of the value at assumed valuations alone. The value declares all names of what is assumed. (isl manual, on parameter
/// domains)
///
/// # Errors
///
/// As every call under a meter.
pub fn under(
    alloc: Global,
    value: &Value,
    assumed: &Assumed,
    meter: &mut Meter,
) -> Result<Value, Cut>
    requires value { IsWithinLimit meter.old value.now }
    requires assumed { IsSound meter.old assumed.now }
    requires declared { All (Contains value.now.params) (names_of assumed.now) }
    ensures kept { IfOk result IsKeptValue }
    ensures params { IfOk result (λ under. under.params ≡ value.now.params) }
    ensures elements { (valuation : Valuation) (element : Element)
        → IfOk result (λ under. Has under valuation element ↔ (Has value.now valuation element × Assumes assumed.now valuation)) }
    ensures definitions { HasNoDefinitions value.now → IsPlain assumed.now → IfOk result HasNoDefinitions }
    ensures numbers { IfOk result (IsWithinLimit meter.old) }
    ensures meter { IsMetered meter.old meter.new result }
    ensures nothing { assumed.now ≡ Nothing → IfOk result (λ under. under ≡ value.now) × (meter.new ≡ meter.old) }
{
    match assumed {
        Assumed::Nothing => Ok(copy_of(alloc, value)?),
        Assumed::Where(region) => under_region(alloc, value, region, meter),
    }
}

/// The pieces of the value that have an element at an assumed valuation, unchanged and in order. (isl manual, on parameter domains)
///
/// # Errors
///
/// As every call under a meter.
pub fn live(
    alloc: Global,
    value: &Value,
    assumed: &Assumed,
    meter: &mut Meter,
) -> Result<Value, Cut>
    requires value { IsWithinLimit meter.old value.now }
    requires assumed { IsSound meter.old assumed.now }
    ensures kept { IfOk result IsKeptValue }
    ensures params { IfOk result (λ live. live.params ≡ value.now.params) }
    ensures pieces { IfOk result (λ live. AreLiveUnder assumed.now value.now.params value.now.pieces live.pieces) }
    ensures meter { IsMetered meter.old meter.new result }
    ensures nothing { assumed.now ≡ Nothing → IfOk result (λ live. live ≡ value.now) × (meter.new ≡ meter.old) }
{
    match assumed {
        Assumed::Nothing => Ok(copy_of(alloc, value)?),
        Assumed::Where(region) => live_in(alloc, value, region, meter),
    }
}
