//! What is put together of elements of two values.

ghost use Rattle.std.specs.Prelude.{◌≡◌, ◌↔◌, [], All, Any, IfOk, map, unsigned_abs};
ghost use Rattle.isl_meter.specs.Gauge.{limit_of};
ghost use Rattle.isl_space.specs.Element.{Element};
ghost use Rattle.isl_space.specs.Names.{joined};
ghost use Rattle.isl_space.specs.Valuation.{Valuation};
ghost use Rattle.isl_piece.specs.System.{IsSystemWithin};
ghost use Rattle.isl_relation.specs.Together.{IsFormedFrom, pair_count, pairs_of, pairs_together, partners, spaces_of};
ghost use Rattle.isl_union.specs.Fault.{IsMeteredFrom};
ghost use Rattle.isl_union.specs.KeptValue.{Has, HasElement, HasNoDefinitions, IsKeptValue};
ghost use Rattle.isl_union.specs.Numbers.{AreWithinLimit, IsPieceUpTo, IsWithinLimit};
ghost use Rattle.isl_union.specs.Piece.{kept_piece, IsPieceOf};
ghost use Rattle.isl_products.specs.Layout.{IsWide, are_together};
ghost use Rattle.isl_products.specs.Made.{AreWide, IsMadeOf, IsMadeWith, IsWidePair, ProductHas};

use crate::layout::{Product, layout_of};
use crate::near::near;
use crate::placed::joined;
use crate::wide::ask_spaces;
use isl_index::ShapeIndex;
use isl_meter::{Cut, Meter};
use isl_piece::Piece;
use isl_space::Params;
use isl_union::{OpFault, Value, aligned_pair, append, live_pieces_in};
use std::alloc::Global;

// What is made of two pieces, for a unit where the product puts elements of their spaces together, and those of the question whether
// it has an element.
#[tactic(auto, using(std::proofs::lemmas::Grind::common_steps, isl_union::proofs::UnitLaws::unit_steps))]
fn made_of(
    alloc: Global,
    params: &Params,
    product: Product,
    a: &Piece,
    b: &Piece,
    meter: &mut Meter,
) -> Result<Vec<Piece>, Cut>
    requires own { IsPieceOf params.now a.now }
    requires other { IsPieceOf params.now b.now }
    requires own_within { IsSystemWithin meter.old a.now.system }
    requires other_within { IsSystemWithin meter.old b.now.system }
    requires narrow { ¬ IsWide product a.now.space b.now.space }
    ensures elements { (v : Valuation) (e : Element)
        → IfOk result (λ made. Any (HasElement params.now v e) (map kept_piece made.items)
        ↔ IsMadeOf product params.now v e (kept_piece a.now) (kept_piece b.now)) }
    ensures sound { IfOk result (λ made. All (IsPieceOf params.now) made.items) }
    ensures definitions { a.now.system.definitions ≡ [] → b.now.system.definitions ≡ []
        → IfOk result (λ made. All (λ piece. piece.definitions ≡ []) (map kept_piece made.items)) }
    ensures numbers { IfOk result (λ made. All (IsPieceUpTo (unsigned_abs (limit_of meter.old))) (map kept_piece made.items)) }
    ensures units { IsMeteredFrom (pair_count (are_together product) a.now.space b.now.space) meter.old meter.new result }
{
    let Some(layout) = layout_of(alloc, product, a.space(), b.space())? else {
        return Ok(Vec::new(alloc));
    };
    meter.unit()?;
    let mut systems = Vec::new(alloc);
    systems.push(joined(alloc, params, &layout, a, b)?)?;
    live_pieces_in(alloc, params, &layout.space, systems, meter)
}

// What is made of the piece and each of the others, which are looked at one by one.
#[tactic(auto, using(std::proofs::lemmas::Grind::common_steps, isl_union::proofs::UnitLaws::unit_steps))]
fn made_among(
    alloc: Global,
    params: &Params,
    product: Product,
    piece: &Piece,
    others: &[Piece],
    meter: &mut Meter,
) -> Result<Vec<Piece>, Cut>
    requires piece { IsPieceOf params.now piece.now }
    requires others { All (IsPieceOf params.now) others.now }
    requires piece_within { IsSystemWithin meter.old piece.now.system }
    requires others_within { AreWithinLimit meter.old others.now }
    requires narrow { ¬ Any (λ b. IsWide product piece.now.space b.space) (map kept_piece others.now) }
    ensures elements { (v : Valuation) (e : Element)
        → IfOk result (λ made. Any (HasElement params.now v e) (map kept_piece made.items)
        ↔ IsMadeWith product params.now (map kept_piece others.now) v e (kept_piece piece.now)) }
    ensures sound { IfOk result (λ made. All (IsPieceOf params.now) made.items) }
    ensures definitions { piece.now.system.definitions ≡ [] → All (λ other. other.system.definitions ≡ []) others.now
        → IfOk result (λ made. All (λ piece. piece.definitions ≡ []) (map kept_piece made.items)) }
    ensures numbers { IfOk result (λ made. All (IsPieceUpTo (unsigned_abs (limit_of meter.old))) (map kept_piece made.items)) }
    ensures units { IsMeteredFrom (partners (are_together product) (spaces_of others.now) piece.now.space) meter.old meter.new result }
{
    let mut made = Vec::new(alloc);
    for other in others {
        append(
            &mut made,
            made_of(alloc, params, product, piece, other, meter)?,
        )?;
    }
    Ok(made)
}

// What is made of the piece and each of the others, of which only those are looked at that can be put together with it.
#[tactic(auto, using(std::proofs::lemmas::Grind::common_steps, isl_union::proofs::UnitLaws::unit_steps))]
fn made_with(
    alloc: Global,
    params: &Params,
    product: Product,
    piece: &Piece,
    others: &ShapeIndex,
    meter: &mut Meter,
) -> Result<Vec<Piece>, Cut>
    requires piece { IsPieceOf params.now piece.now }
    requires others { All (IsPieceOf params.now) others.now }
    requires piece_within { IsSystemWithin meter.old piece.now.system }
    requires others_within { AreWithinLimit meter.old others.now }
    requires narrow { ¬ Any (λ b. IsWide product piece.now.space b.space) (map kept_piece others.now) }
    ensures elements { (v : Valuation) (e : Element)
        → IfOk result (λ made. Any (HasElement params.now v e) (map kept_piece made.items)
        ↔ IsMadeWith product params.now (map kept_piece others.now) v e (kept_piece piece.now)) }
    ensures sound { IfOk result (λ made. All (IsPieceOf params.now) made.items) }
    ensures definitions { piece.now.system.definitions ≡ [] → All (λ other. other.system.definitions ≡ []) others.now
        → IfOk result (λ made. All (λ piece. piece.definitions ≡ []) (map kept_piece made.items)) }
    ensures numbers { IfOk result (λ made. All (IsPieceUpTo (unsigned_abs (limit_of meter.old))) (map kept_piece made.items)) }
    ensures units { IsMeteredFrom (partners (are_together product) (spaces_of others.now) piece.now.space) meter.old meter.new result }
{
    let near = near(alloc, product, piece.space(), others)?;
    made_among(alloc, params, product, piece, near, meter)
}

// What is made of each of the pieces and each of the others.
#[tactic(auto, using(std::proofs::lemmas::Grind::common_steps, isl_union::proofs::UnitLaws::unit_steps))]
fn all_made(
    alloc: Global,
    params: &Params,
    product: Product,
    pieces: &[Piece],
    others: &ShapeIndex,
    meter: &mut Meter,
) -> Result<Vec<Piece>, Cut>
    requires pieces { All (IsPieceOf params.now) pieces.now }
    requires others { All (IsPieceOf params.now) others.now }
    requires pieces_within { AreWithinLimit meter.old pieces.now }
    requires others_within { AreWithinLimit meter.old others.now }
    requires narrow { ¬ AreWide product (map kept_piece pieces.now) (map kept_piece others.now) }
    ensures elements { (v : Valuation) (e : Element)
        → IfOk result (λ made. Any (HasElement params.now v e) (map kept_piece made.items)
        ↔ Any (IsMadeWith product params.now (map kept_piece others.now) v e) (map kept_piece pieces.now)) }
    ensures sound { IfOk result (λ made. All (IsPieceOf params.now) made.items) }
    ensures definitions { All (λ piece. piece.system.definitions ≡ []) pieces.now → All (λ other. other.system.definitions ≡ []) others.now
        → IfOk result (λ made. All (λ piece. piece.definitions ≡ []) (map kept_piece made.items)) }
    ensures numbers { IfOk result (λ made. All (IsPieceUpTo (unsigned_abs (limit_of meter.old))) (map kept_piece made.items)) }
    ensures units { IsMeteredFrom (pairs_of (are_together product) (spaces_of pieces.now) (spaces_of others.now))
        meter.old meter.new result }
{
    let mut made = Vec::new(alloc);
    for piece in pieces {
        append(
            &mut made,
            made_with(alloc, params, product, piece, others, meter)?,
        )?;
    }
    Ok(made)
}

/// The elements that the product puts together of one of each value, over the joined parameters.
///
/// # Errors
///
/// As every call under a meter; and `TooWide` exactly where the two together declare more than 16 parameters, or a space that is
/// formed is too wide, unless memory ends: no unit is used then.
pub(crate) fn product_of(
    alloc: Global,
    product: Product,
    a: &Value,
    b: &Value,
    meter: &mut Meter,
) -> Result<Value, OpFault>
    requires own { IsWithinLimit meter.old a.now }
    requires other { IsWithinLimit meter.old b.now }

    // The value, and what it has.
    ensures operand { IsKeptValue a.now }
    ensures kept { IfOk result IsKeptValue }
    ensures params { IfOk result (λ value. value.params ≡ joined a.now.params b.now.params) }
    ensures elements { (v : Valuation) (e : Element)
        → IfOk result (λ value. Has value v e ↔ ProductHas product (Has a.now v) (Has b.now v) e) }

    // How it is written, and what that cost.
    ensures definitions { HasNoDefinitions a.now → HasNoDefinitions b.now → IfOk result HasNoDefinitions }
    ensures numbers { IfOk result (IsWithinLimit meter.old) }
    ensures units { IsFormedFrom (joined a.now.params b.now.params) (IsWidePair product a.now b.now)
        (pairs_together (are_together product) a.now b.now) meter.old meter.new result }
{
    let pieces = a.pieces();
    let pair = aligned_pair(alloc, a, b, meter)?;
    ask_spaces(alloc, product, pieces, b.pieces())?;
    let others = ShapeIndex::new(alloc, pair.others)?;
    let own = pair.own.as_slice();
    let made = all_made(alloc, &pair.params, product, own, &others, meter)?;
    Ok(Value::from_normal(pair.params, made))
}
