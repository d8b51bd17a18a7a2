//! Pieces of two values, compared.

ghost use Rattle.std.specs.Prelude.{◌≡◌, All, IfOk};
ghost use Rattle.isl_meter.specs.Gauge.{IsMetered};
ghost use Rattle.isl_piece.specs.System.{IsSystemWithin};
ghost use Rattle.isl_union.specs.Numbers.{AreWithinLimit};
ghost use Rattle.isl_union.specs.Piece.{IsPieceOf};
ghost use Rattle.isl_images.specs.Made.{elements_of, elements_of_all, ArePiecesOf};
ghost use Rattle.isl_relation.specs.Orders.{OrderedMapsHas, OrderedSetsHas};
ghost use Rattle.isl_orders.specs.Comparison.{IsOrdered, IsWide, OrderedHas};
ghost use Rattle.isl_orders.specs.declared.order.Operands.TheVariants.{Sets, Maps};

use crate::order::{Comparison, Operands, Order};
use crate::systems::{Columns, of_maps, of_sets};
use isl_meter::{Cut, Meter};
use isl_piece::Piece;
use isl_space::{Params, Space};
use isl_union::{append, live_pieces_in};
use std::alloc::Global;

// The pieces from the elements of one set to those of another one of its shape that are so ordered.
fn compared_sets(
    alloc: Global,
    params: &Params,
    order: Order,
    a: &Piece,
    b: &Piece,
    meter: &mut Meter,
) -> Result<Vec<Piece>, Cut>
    requires own { IsPieceOf params.now a.now }
    requires other { IsPieceOf params.now b.now }
    requires own_within { IsSystemWithin meter.old a.now.system }
    requires other_within { IsSystemWithin meter.old b.now.system }
    requires narrow { ¬ IsWide Sets a.now.space b.now.space }
    ensures made { IfOk result (λ made. ArePiecesOf meter.old params.now ⊥
        (λ v. OrderedSetsHas (IsOrdered order) (elements_of params.now a.now v) (elements_of params.now b.now v)) made.items) }
    ensures meter { IsMetered meter.old meter.new result }
{
    let (Space::Set(x), Space::Set(y)) = (a.space(), b.space()) else {
        return Ok(Vec::new(alloc));
    };
    if !x.same(y) {
        return Ok(Vec::new(alloc));
    }
    let width = x.width() as usize;
    let columns = Columns {
        parameters: params.len(),
        first: width,
        second: width,
        compared: width,
    };
    let left = of_sets(alloc, columns, order, a.system(), b.system(), meter)?;
    let space = Space::Map(x.clone()?, x.clone()?);
    live_pieces_in(alloc, params, &space, left, meter)
}

// The pieces from what one map maps to what another one maps to the same shape, to images that are so ordered.
fn compared_maps(
    alloc: Global,
    params: &Params,
    order: Order,
    a: &Piece,
    b: &Piece,
    meter: &mut Meter,
) -> Result<Vec<Piece>, Cut>
    requires own { IsPieceOf params.now a.now }
    requires other { IsPieceOf params.now b.now }
    requires own_within { IsSystemWithin meter.old a.now.system }
    requires other_within { IsSystemWithin meter.old b.now.system }
    requires narrow { ¬ IsWide Maps a.now.space b.now.space }
    ensures made { IfOk result (λ made. ArePiecesOf meter.old params.now ⊥
        (λ v. OrderedMapsHas (IsOrdered order) (elements_of params.now a.now v) (elements_of params.now b.now v)) made.items) }
    ensures meter { IsMetered meter.old meter.new result }
{
    let (Space::Map(x, z), Space::Map(y, other)) = (a.space(), b.space()) else {
        return Ok(Vec::new(alloc));
    };
    if !z.same(other) {
        return Ok(Vec::new(alloc));
    }
    let columns = Columns {
        parameters: params.len(),
        first: x.width() as usize,
        second: y.width() as usize,
        compared: z.width() as usize,
    };
    let left = of_maps(alloc, columns, order, a.system(), b.system(), meter)?;
    let space = Space::Map(x.clone()?, y.clone()?);
    live_pieces_in(alloc, params, &space, left, meter)
}

// The pieces of the comparison of two pieces.
fn compared(
    alloc: Global,
    params: &Params,
    comparison: Comparison,
    a: &Piece,
    b: &Piece,
    meter: &mut Meter,
) -> Result<Vec<Piece>, Cut>
    requires own { IsPieceOf params.now a.now }
    requires other { IsPieceOf params.now b.now }
    requires own_within { IsSystemWithin meter.old a.now.system }
    requires other_within { IsSystemWithin meter.old b.now.system }
    requires narrow { ¬ IsWide comparison.operands a.now.space b.now.space }
    ensures made { IfOk result (λ made. ArePiecesOf meter.old params.now ⊥
        (λ v. OrderedHas comparison.operands comparison.order (elements_of params.now a.now v) (elements_of params.now b.now v))
        made.items) }
    ensures meter { IsMetered meter.old meter.new result }
{
    match comparison.operands {
        Operands::Sets => compared_sets(alloc, params, comparison.order, a, b, meter),
        Operands::Maps => compared_maps(alloc, params, comparison.order, a, b, meter),
    }
}

// The pieces of the comparison of one piece with each of the others.
#[tactic(auto, using(std::proofs::lemmas::Grind::common_steps, isl_meter::proofs::CutLemmas::charges))]
fn compared_with(
    alloc: Global,
    params: &Params,
    comparison: Comparison,
    piece: &Piece,
    others: &[Piece],
    meter: &mut Meter,
) -> Result<Vec<Piece>, Cut>
    requires piece { IsPieceOf params.now piece.now }
    requires others { All (IsPieceOf params.now) others.now }
    requires piece_within { IsSystemWithin meter.old piece.now.system }
    requires others_within { AreWithinLimit meter.old others.now }
    requires narrow { All (λ other. ¬ IsWide comparison.operands piece.now.space other.space) others.now }
    ensures made { IfOk result (λ made. ArePiecesOf meter.old params.now ⊥
        (λ v. OrderedHas comparison.operands comparison.order (elements_of params.now piece.now v)
        (elements_of_all params.now others.now v))
        made.items) }
    ensures meter { IsMetered meter.old meter.new result }
{
    let mut made = Vec::new(alloc);
    for other in others {
        let more = compared(alloc, params, comparison, piece, other, meter)?;
        append(&mut made, more)?;
    }
    Ok(made)
}

/// The pieces of the comparison of each of the first with each of the others.
///
/// # Errors
///
/// `Overflow` where a number passes the limit of the meter, `Budget` where its units are used up, and `NoMemory`.
#[tactic(auto, using(std::proofs::lemmas::Grind::common_steps, isl_meter::proofs::CutLemmas::charges))]
pub(crate) fn all_compared(
    alloc: Global,
    params: &Params,
    comparison: Comparison,
    pieces: &[Piece],
    others: &[Piece],
    meter: &mut Meter,
) -> Result<Vec<Piece>, Cut>
    requires pieces { All (IsPieceOf params.now) pieces.now }
    requires others { All (IsPieceOf params.now) others.now }
    requires pieces_within { AreWithinLimit meter.old pieces.now }
    requires others_within { AreWithinLimit meter.old others.now }
    requires narrow { All (λ piece. All (λ other. ¬ IsWide comparison.operands piece.space other.space) others.now) pieces.now }
    ensures made { IfOk result (λ made. ArePiecesOf meter.old params.now ⊥
        (λ v. OrderedHas comparison.operands comparison.order (elements_of_all params.now pieces.now v)
        (elements_of_all params.now others.now v))
        made.items) }
    ensures meter { IsMetered meter.old meter.new result }
{
    let mut made = Vec::new(alloc);
    for piece in pieces {
        let more = compared_with(alloc, params, comparison, piece, others, meter)?;
        append(&mut made, more)?;
    }
    Ok(made)
}
