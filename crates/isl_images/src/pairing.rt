//! What is made of the pieces of two values.

ghost use Rattle.std.specs.Prelude.{◌≡◌, All, IfOk, filter};
ghost use Rattle.isl_space.specs.Space.{space_form_of};
ghost use Rattle.isl_space.specs.Shape.{form_of};
ghost use Rattle.isl_space.specs.SpaceForm.{map_of, set_of, IsWellFormedSpace};
ghost use Rattle.isl_space.specs.Valuation.{Valuation};
ghost use Rattle.isl_piece.specs.System.{IsSystemWithin};
ghost use Rattle.isl_union.specs.Fault.{IsMeteredFrom};
ghost use Rattle.isl_union.specs.Numbers.{AreWithinLimit};
ghost use Rattle.isl_union.specs.Piece.{IsPieceOf};
ghost use Rattle.isl_relation.specs.Maps.{ApplyHas, JoinHas};
ghost use Rattle.isl_relation.specs.Together.{are_linked, is_domain, pair_count, pairs_of, partners, spaces_of};
ghost use Rattle.isl_images.specs.Made.{elements_of, elements_of_all, ArePiecesOf};
ghost use Rattle.isl_images.specs.Pairing.{IsNarrowPair, PairHas, are_paired, may_pair};

use crate::shadow::{Gap, pieces_without};
use crate::shift::of_both;
use isl_index::ShapeIndex;
use isl_meter::{Cut, Meter};
use isl_piece::Piece;
use isl_space::{Params, Space};
use isl_union::append;
use std::alloc::{AllocError, Global};

/// What is made of the elements of two values.
#[derive(Clone, Copy)]
pub(crate) enum Pairing {
    /// The y of a map's x → y, for a set's x.
    Apply,
    /// x → z of x → y and y → z.
    Join,
}

// The pieces of what a map makes of a set, for a unit where that lies in the shape that it maps from.
#[tactic(auto, using(std::proofs::lemmas::Grind::common_steps, isl_union::proofs::UnitLaws::unit_steps))]
fn applied(
    alloc: Global,
    params: &Params,
    map: &Piece,
    set: &Piece,
    meter: &mut Meter,
) -> Result<Vec<Piece>, Cut>
    requires map { IsPieceOf params.now map.now }
    requires set { IsPieceOf params.now set.now }
    requires map_within { IsSystemWithin meter.old map.now.system }
    requires set_within { IsSystemWithin meter.old set.now.system }
    ensures made { IfOk result (λ made. ArePiecesOf meter.old params.now ⊥
        (λ valuation. ApplyHas (elements_of params.now map.now valuation) (elements_of params.now set.now valuation)) made.items) }
    ensures units { IsMeteredFrom (pair_count is_domain map.now.space set.now.space) meter.old meter.new result }
{
    let (Space::Map(from, to), Space::Set(shape)) = (map.space(), set.space()) else {
        return Ok(Vec::new(alloc));
    };
    if !from.same(shape) {
        return Ok(Vec::new(alloc));
    }
    meter.unit()?;
    let both = of_both(alloc, set.system(), map.system(), params.len(), 0)?;
    let space = Space::Set(to.clone()?);
    let gap = Gap {
        from: 0,
        count: from.width() as usize,
    };
    pieces_without(alloc, params, &space, &both, gap, meter)
}

// The pieces of what two maps make of elements one after the other, for a unit where they meet in one shape.
#[tactic(auto, using(std::proofs::lemmas::Grind::common_steps, isl_union::proofs::UnitLaws::unit_steps))]
fn joined(
    alloc: Global,
    params: &Params,
    first: &Piece,
    second: &Piece,
    meter: &mut Meter,
) -> Result<Vec<Piece>, Cut>
    requires first { IsPieceOf params.now first.now }
    requires second { IsPieceOf params.now second.now }
    requires first_within { IsSystemWithin meter.old first.now.system }
    requires second_within { IsSystemWithin meter.old second.now.system }
    requires narrow { IsNarrowPair Pairing.Join first.now.space second.now.space }
    ensures made { IfOk result (λ made. ArePiecesOf meter.old params.now ⊥
        (λ valuation. JoinHas (elements_of params.now first.now valuation) (elements_of params.now second.now valuation)) made.items) }
    ensures units { IsMeteredFrom (pair_count are_linked first.now.space second.now.space) meter.old meter.new result }
{
    let (Space::Map(from, middle), Space::Map(other, to)) = (first.space(), second.space()) else {
        return Ok(Vec::new(alloc));
    };
    if !middle.same(other) {
        return Ok(Vec::new(alloc));
    }
    meter.unit()?;
    let width = from.width() as usize;
    let both = of_both(alloc, first.system(), second.system(), params.len(), width)?;
    let space = Space::Map(from.clone()?, to.clone()?);
    let gap = Gap {
        from: width,
        count: middle.width() as usize,
    };
    pieces_without(alloc, params, &space, &both, gap, meter)
}

// The pieces that are made of two.
fn pair_pieces(
    alloc: Global,
    params: &Params,
    pairing: Pairing,
    first: &Piece,
    second: &Piece,
    meter: &mut Meter,
) -> Result<Vec<Piece>, Cut>
    requires first { IsPieceOf params.now first.now }
    requires second { IsPieceOf params.now second.now }
    requires first_within { IsSystemWithin meter.old first.now.system }
    requires second_within { IsSystemWithin meter.old second.now.system }
    requires narrow { IsNarrowPair pairing first.now.space second.now.space }
    ensures made { IfOk result (λ made. ArePiecesOf meter.old params.now ⊥
        (λ valuation. PairHas pairing (elements_of params.now first.now valuation) (elements_of params.now second.now valuation))
        made.items) }
    ensures units { IsMeteredFrom (pair_count (are_paired pairing) first.now.space second.now.space) meter.old meter.new result }
{
    match pairing {
        Pairing::Apply => applied(alloc, params, first, second, meter),
        Pairing::Join => joined(alloc, params, first, second, meter),
    }
}

// The same of others that are looked at one by one.
#[tactic(auto, using(std::proofs::lemmas::Grind::common_steps, isl_union::proofs::UnitLaws::unit_steps))]
fn pieces_among(
    alloc: Global,
    params: &Params,
    pairing: Pairing,
    piece: &Piece,
    others: &[Piece],
    meter: &mut Meter,
) -> Result<Vec<Piece>, Cut>
    requires piece { IsPieceOf params.now piece.now }
    requires others { All (IsPieceOf params.now) others.now }
    requires piece_within { IsSystemWithin meter.old piece.now.system }
    requires others_within { AreWithinLimit meter.old others.now }
    requires narrow { All (λ other. IsNarrowPair pairing piece.now.space other.space) others.now }
    ensures made { IfOk result (λ made. ArePiecesOf meter.old params.now ⊥
        (λ valuation. PairHas pairing (elements_of params.now piece.now valuation) (elements_of_all params.now others.now valuation))
        made.items) }
    ensures units { IsMeteredFrom (partners (are_paired pairing) (spaces_of others.now) piece.now.space) meter.old meter.new result }
{
    let mut made = Vec::new(alloc);
    for other in others {
        append(
            &mut made,
            pair_pieces(alloc, params, pairing, piece, other, meter)?,
        )?;
    }
    Ok(made)
}

/// Those of the others that can be put together with a piece of the space.
///
/// # Errors
///
/// Where memory ends.
pub(crate) fn near<'a>(
    alloc: Global,
    pairing: Pairing,
    space: &Space,
    others: &'a ShapeIndex,
) -> Result<&'a [Piece], AllocError>
    requires { IsWellFormedSpace (space_form_of space.now) }
    ensures { IfOk result (λ found. found.now ≡ filter (may_pair pairing (space_form_of space.now)) others.now) }
{
    let Space::Map(from, to) = space else {
        return Ok(&[]);
    };
    match pairing {
        Pairing::Apply => others.with_shape(alloc, from),
        Pairing::Join => others.with_shape(alloc, to),
    }
}

// The pieces that are made of one and each of the others.
#[tactic(auto, using(std::proofs::lemmas::Grind::common_steps, isl_union::proofs::UnitLaws::unit_steps))]
fn pieces_with(
    alloc: Global,
    params: &Params,
    pairing: Pairing,
    piece: &Piece,
    others: &ShapeIndex,
    meter: &mut Meter,
) -> Result<Vec<Piece>, Cut>
    requires piece { IsPieceOf params.now piece.now }
    requires others { All (IsPieceOf params.now) others.now }
    requires piece_within { IsSystemWithin meter.old piece.now.system }
    requires others_within { AreWithinLimit meter.old others.now }
    requires narrow { All (λ other. IsNarrowPair pairing piece.now.space other.space) others.now }
    ensures made { IfOk result (λ made. ArePiecesOf meter.old params.now ⊥
        (λ valuation. PairHas pairing (elements_of params.now piece.now valuation) (elements_of_all params.now others.now valuation))
        made.items) }
    ensures units { IsMeteredFrom (partners (are_paired pairing) (spaces_of others.now) piece.now.space) meter.old meter.new result }
{
    let near = near(alloc, pairing, piece.space(), others)?;
    pieces_among(alloc, params, pairing, piece, near, meter)
}

/// The pieces that are made of each of the first and each of the others.
#[tactic(auto, using(std::proofs::lemmas::Grind::common_steps, isl_union::proofs::UnitLaws::unit_steps))]
pub(crate) fn all_pairs(
    alloc: Global,
    params: &Params,
    pairing: Pairing,
    pieces: &[Piece],
    others: &ShapeIndex,
    meter: &mut Meter,
) -> Result<Vec<Piece>, Cut>
    requires pieces { All (IsPieceOf params.now) pieces.now }
    requires others { All (IsPieceOf params.now) others.now }
    requires pieces_within { AreWithinLimit meter.old pieces.now }
    requires others_within { AreWithinLimit meter.old others.now }
    requires narrow { All (λ piece. All (λ other. IsNarrowPair pairing piece.space other.space) others.now) pieces.now }
    ensures made { IfOk result (λ made. ArePiecesOf meter.old params.now ⊥
        (λ valuation. PairHas pairing (elements_of_all params.now pieces.now valuation) (elements_of_all params.now others.now valuation))
        made.items) }
    ensures units { IsMeteredFrom (pairs_of (are_paired pairing) (spaces_of pieces.now) (spaces_of others.now)) meter.old meter.new result }
{
    let mut made = Vec::new(alloc);
    for piece in pieces {
        append(
            &mut made,
            pieces_with(alloc, params, pairing, piece, others, meter)?,
        )?;
    }
    Ok(made)
}
