//! Maps without what sets have at one of their places.

ghost use Rattle.std.specs.Prelude.{◌≡◌, ◌↔◌, ◌+◌, ◌≤◌, List, [], All, Any, IfOk, length, map, unsigned_abs};
ghost use Rattle.isl_meter.specs.Gauge.{Gauge, IsMetered, limit_of};
ghost use Rattle.isl_space.specs.Element.{Element};
ghost use Rattle.isl_space.specs.Name.{Name};
ghost use Rattle.isl_space.specs.Names.{joined};
ghost use Rattle.isl_space.specs.Valuation.{Valuation};
ghost use Rattle.isl_piece.specs.System.{IsSystemWithin, free_columns};
ghost use Rattle.isl_relation.specs.Maps.{RemoveDomainHas, RemoveRangeHas};
ghost use Rattle.isl_relation.specs.Together.{IsWorkedFrom};
ghost use Rattle.isl_union.specs.KeptValue.{Has, HasElement, HasNoDefinitions, IsKeptValue};
ghost use Rattle.isl_union.specs.Numbers.{AreWithinLimit, IsPieceUpTo, IsWithinLimit};
ghost use Rattle.isl_union.specs.Piece.{kept_piece, IsPieceOf};
ghost use Rattle.isl_products.specs.Made.{AreBeside, AreLeft, IsApartFrom, RemoveHas};

use crate::layout::{Place, Product, layout_of};
use crate::near::near;
use crate::placed::placed;
use isl_difference::{outside, references};
use isl_index::ShapeIndex;
use isl_meter::{Cut, Meter};
use isl_piece::{Piece, System};
use isl_space::{Params, Space};
use isl_union::{OpFault, Value, aligned_pair, append, pieces_in};
use std::alloc::{AllocError, Global};

// The systems that hold at those elements of the piece that have at the place what the others have, which are looked at
// one by one.
fn systems_among(
    alloc: Global,
    place: Place,
    params: &Params,
    piece: &Piece,
    others: &[Piece],
) -> Result<Vec<System>, AllocError>
    requires piece { IsPieceOf params.now piece.now }
    requires others { All (IsPieceOf params.now) others.now }
    ensures { (g : Gauge) → AreWithinLimit g others.now
        → IfOk result (λ systems. AreBeside g place params.now piece.now others.now systems.items) }
{
    let mut systems = Vec::new(alloc);
    for other in others {
        let product = Product::Restrict(place);
        if let Some(layout) = layout_of(alloc, product, piece.space(), other.space())? {
            systems.push(placed(alloc, params, &layout.space, layout.other, other)?)?;
        }
    }
    Ok(systems)
}

// The systems that hold at those elements of the piece that have at the place what the others have.
fn systems_beside(
    alloc: Global,
    place: Place,
    params: &Params,
    piece: &Piece,
    others: &ShapeIndex,
) -> Result<Vec<System>, AllocError>
    requires piece { IsPieceOf params.now piece.now }
    requires others { All (IsPieceOf params.now) others.now }
    ensures { (g : Gauge) → AreWithinLimit g others.now
        → IfOk result (λ systems. AreBeside g place params.now piece.now others.now systems.items) }
{
    let near = near(alloc, Product::Restrict(place), piece.space(), others)?;
    systems_among(alloc, place, params, piece, near)
}

// What is left of the piece without the elements at which one of the systems holds.
#[tactic(auto, using(std::proofs::lemmas::Grind::common_steps, isl_meter::proofs::CutLemmas::charges))]
fn left_of(
    alloc: Global,
    piece: &Piece,
    systems: &[System],
    meter: &mut Meter,
) -> Result<Vec<Piece>, Cut>
    requires within { IsSystemWithin meter.old piece.now.system }
    requires others { All (IsSystemWithin meter.old) systems.now }
    requires columns { All (λ s. free_columns s ≡ free_columns piece.now.system) systems.now }
    ensures exact { (params : List Name) → IsPieceOf params piece.now
        → IfOk result (λ left. AreLeft meter.old params piece.now systems.now left.items) }
    ensures counted { IfOk result (λ left. length left.items + meter.old.units ≤ meter.new.units + 1) }
    ensures meter { IsMetered meter.old meter.new result }
{
    if systems.is_empty() {
        let mut whole = Vec::new(alloc);
        whole.push(piece.copy()?)?;
        return Ok(whole);
    }
    let others = references(alloc, systems)?;
    let left = outside(alloc, piece.system(), others.as_slice(), meter)?;
    Ok(pieces_in(alloc, piece.space(), left)?)
}

// What is left of the piece, if it is one of a map, without what the others have at the place.
#[tactic(auto, using(std::proofs::lemmas::Grind::common_steps, isl_meter::proofs::CutLemmas::charges))]
fn piece_without(
    alloc: Global,
    place: Place,
    params: &Params,
    piece: &Piece,
    others: &ShapeIndex,
    meter: &mut Meter,
) -> Result<Vec<Piece>, Cut>
    requires piece { IsPieceOf params.now piece.now }
    requires others { All (IsPieceOf params.now) others.now }
    requires piece_within { IsSystemWithin meter.old piece.now.system }
    requires others_within { AreWithinLimit meter.old others.now }
    ensures elements { (v : Valuation) (e : Element)
        → IfOk result (λ left. Any (HasElement params.now v e) (map kept_piece left.items)
        ↔ IsApartFrom place params.now (map kept_piece others.now) v e (kept_piece piece.now)) }
    ensures sound { IfOk result (λ left. All (IsPieceOf params.now) left.items) }
    ensures definitions { piece.now.system.definitions ≡ [] → All (λ other. other.system.definitions ≡ []) others.now
        → IfOk result (λ left. All (λ part. part.definitions ≡ []) (map kept_piece left.items)) }
    ensures numbers { IfOk result (λ left. All (IsPieceUpTo (unsigned_abs (limit_of meter.old))) (map kept_piece left.items)) }
    ensures counted { IfOk result (λ left. length left.items + meter.old.units ≤ meter.new.units + 1) }
    ensures meter { IsMetered meter.old meter.new result }
{
    let Space::Map(_, _) = piece.space() else {
        return Ok(Vec::new(alloc));
    };
    let systems = systems_beside(alloc, place, params, piece, others)?;
    left_of(alloc, piece, systems.as_slice(), meter)
}

// What is left of those of the pieces that are ones of a map, without what the others have at the place.
#[tactic(auto, using(std::proofs::lemmas::Grind::common_steps, isl_meter::proofs::CutLemmas::charges))]
fn pieces_without(
    alloc: Global,
    place: Place,
    params: &Params,
    pieces: &[Piece],
    others: &ShapeIndex,
    meter: &mut Meter,
) -> Result<Vec<Piece>, Cut>
    requires pieces { All (IsPieceOf params.now) pieces.now }
    requires others { All (IsPieceOf params.now) others.now }
    requires pieces_within { AreWithinLimit meter.old pieces.now }
    requires others_within { AreWithinLimit meter.old others.now }
    ensures elements { (v : Valuation) (e : Element)
        → IfOk result (λ left. Any (HasElement params.now v e) (map kept_piece left.items)
        ↔ Any (IsApartFrom place params.now (map kept_piece others.now) v e) (map kept_piece pieces.now)) }
    ensures sound { IfOk result (λ left. All (IsPieceOf params.now) left.items) }
    ensures definitions { All (λ piece. piece.system.definitions ≡ []) pieces.now → All (λ other. other.system.definitions ≡ []) others.now
        → IfOk result (λ left. All (λ part. part.definitions ≡ []) (map kept_piece left.items)) }
    ensures numbers { IfOk result (λ left. All (IsPieceUpTo (unsigned_abs (limit_of meter.old))) (map kept_piece left.items)) }
    ensures counted { IfOk result (λ left. length left.items + meter.old.units ≤ meter.new.units + length pieces.now) }
    ensures meter { IsMetered meter.old meter.new result }
{
    let mut left = Vec::new(alloc);
    for piece in pieces {
        append(
            &mut left,
            piece_without(alloc, place, params, piece, others, meter)?,
        )?;
    }
    Ok(left)
}

// Those x → y of the map of which the set has not the one at the place, over the joined parameters.
fn remove(
    alloc: Global,
    place: Place,
    map: &Value,
    set: &Value,
    meter: &mut Meter,
) -> Result<Value, OpFault>
    requires own { IsWithinLimit meter.old map.now }
    requires other { IsWithinLimit meter.old set.now }

    // The value, and what it has.
    ensures kept { IfOk result IsKeptValue }
    ensures params { IfOk result (λ value. value.params ≡ joined map.now.params set.now.params) }
    ensures elements { (v : Valuation) (e : Element)
        → IfOk result (λ value. Has value v e ↔ RemoveHas place (Has map.now v) (Has set.now v) e) }

    // How it is written, and what that cost.
    ensures definitions { HasNoDefinitions map.now → HasNoDefinitions set.now → IfOk result HasNoDefinitions }
    ensures numbers { IfOk result (IsWithinLimit meter.old) }
    ensures counted { IfOk result (λ value. length value.pieces + meter.old.units ≤ meter.new.units + length map.now.pieces) }
    ensures units { IsWorkedFrom (joined map.now.params set.now.params) 0 meter.old meter.new result }
{
    let pair = aligned_pair(alloc, map, set, meter)?;
    let others = ShapeIndex::new(alloc, pair.others)?;
    let own = pair.own.as_slice();
    let left = pieces_without(alloc, place, &pair.params, own, &others, meter)?;
    Ok(Value::from_normal(pair.params, left))
}

/// Those x → y of the map whose x is not in the set, over the joined parameters. A piece of the map whose x no piece of the set
/// has as its form stays as it is. There are no more pieces than in the map, but for one for each unit that was used. (the iscc
/// chapter of the barvinok manual)
///
/// # Errors
///
/// As every call under a meter; and `TooWide` exactly where the two together declare more than 16 parameters, unless memory ends:
/// no unit is used then.
pub fn remove_domain(
    alloc: Global,
    map: &Value,
    set: &Value,
    meter: &mut Meter,
) -> Result<Value, OpFault>
    requires own { IsWithinLimit meter.old map.now }
    requires other { IsWithinLimit meter.old set.now }

    // The value, and what it has.
    ensures kept { IfOk result IsKeptValue }
    ensures params { IfOk result (λ value. value.params ≡ joined map.now.params set.now.params) }
    ensures elements { (valuation : Valuation) (element : Element)
        → IfOk result (λ value. Has value valuation element ↔ RemoveDomainHas (Has map.now valuation) (Has set.now valuation) element) }

    // How it is written, and what that cost.
    ensures definitions { HasNoDefinitions map.now → HasNoDefinitions set.now → IfOk result HasNoDefinitions }
    ensures numbers { IfOk result (IsWithinLimit meter.old) }
    ensures counted { IfOk result (λ value. length value.pieces + meter.old.units ≤ meter.new.units + length map.now.pieces) }
    ensures units { IsWorkedFrom (joined map.now.params set.now.params) 0 meter.old meter.new result }
{
    remove(alloc, Place::Domain, map, set, meter)
}

/// Those x → y of the map whose y is not in the set, over the joined parameters. A piece of the map whose y no piece of the set
/// has as its form stays as it is. There are no more pieces than in the map, but for one for each unit that was used. (the iscc
/// chapter of the barvinok manual)
///
/// # Errors
///
/// As every call under a meter; and `TooWide` exactly where the two together declare more than 16 parameters, unless memory ends:
/// no unit is used then.
pub fn remove_range(
    alloc: Global,
    map: &Value,
    set: &Value,
    meter: &mut Meter,
) -> Result<Value, OpFault>
    requires own { IsWithinLimit meter.old map.now }
    requires other { IsWithinLimit meter.old set.now }

    // The value, and what it has.
    ensures kept { IfOk result IsKeptValue }
    ensures params { IfOk result (λ value. value.params ≡ joined map.now.params set.now.params) }
    ensures elements { (valuation : Valuation) (element : Element)
        → IfOk result (λ value. Has value valuation element ↔ RemoveRangeHas (Has map.now valuation) (Has set.now valuation) element) }

    // How it is written, and what that cost.
    ensures definitions { HasNoDefinitions map.now → HasNoDefinitions set.now → IfOk result HasNoDefinitions }
    ensures numbers { IfOk result (IsWithinLimit meter.old) }
    ensures counted { IfOk result (λ value. length value.pieces + meter.old.units ≤ meter.new.units + length map.now.pieces) }
    ensures units { IsWorkedFrom (joined map.now.params set.now.params) 0 meter.old meter.new result }
{
    remove(alloc, Place::Range, map, set, meter)
}
