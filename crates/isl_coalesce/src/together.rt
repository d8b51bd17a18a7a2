//! Pieces put together.

ghost use Rattle.std.specs.Prelude.{◌≡◌, ◌↔◌, ◌∷◌, ◌++◌, ◌≤◌, [], All, AllPairs, IfOk, length, map};
ghost use Rattle.isl_meter.specs.Gauge.{IsMetered};
ghost use Rattle.isl_space.specs.Element.{Element};
ghost use Rattle.isl_space.specs.Names.{AreDistinct};
ghost use Rattle.isl_space.specs.Valuation.{Valuation};
ghost use Rattle.isl_union.specs.KeptValue.{Has, HasNoDefinitions, IsKeptValue};
ghost use Rattle.isl_union.specs.Numbers.{IsWithinLimit};
ghost use Rattle.isl_union.specs.Piece.{kept_piece};
ghost use Rattle.isl_assumed.specs.declared.assumed.Assumed.TheVariants.{Nothing};
ghost use Rattle.isl_assumed.specs.Assumed.{Assumes, IsPlain, IsSound};
ghost use Rattle.isl_coalesce.specs.Coalesced.{IsCoalesced, IsCoalescedUnder};
ghost use Rattle.isl_coalesce.specs.Found.{AreJoined, IsGathered, IsKnownFor, IsPlainPiece};
ghost use Rattle.isl_coalesce.specs.Joint.{AreUnjoined, IsJointAt};

use crate::candidate::Candidate;
use crate::kept::Kept;
use isl_assumed::Assumed;
use isl_meter::{Cut, Meter};
use isl_piece::Piece;
use isl_space::Params;
use isl_union::Value;
use std::alloc::Global;

// The pieces, no two of which can be put together, with the piece behind them. Where one of them has a joint piece with it, that takes
// the place of both, and is asked about the others in its turn.
fn put(
    alloc: Global,
    params: &Params,
    known: &Assumed,
    mut kept: Kept,
    piece: Candidate,
    meter: &mut Meter,
) -> Result<Kept, Cut>
    requires names { AreDistinct params.now }
    requires known { IsKnownFor meter.old params.now known.now }
    requires pieces { All (IsPlainPiece meter.old params.now) kept }
    requires piece { IsPlainPiece meter.old params.now piece }
    requires apart { AllPairs (AreUnjoined (IsJointAt (Assumes known.now) params.now)) (map kept_piece kept) }
    ensures joined { IfOk result (λ new. AreJoined meter.old (Assumes known.now) params.now (kept ++ piece ∷ []) new) }
    ensures meter { IsMetered meter.old meter.new result }
{
    let mut last = piece;
    while let Some(joint) = kept.take_joint(alloc, params, known, &last, meter)? {
        last.replace(joint);
    }
    let joined = kept.pushed(alloc, last)?;
    Ok(joined)
}

// The pieces, with two of them put together as often as that can be done.
fn all_together(
    alloc: Global,
    params: &Params,
    known: &Assumed,
    pieces: &[Piece],
    meter: &mut Meter,
) -> Result<Vec<Piece>, Cut>
    requires names { AreDistinct params.now }
    requires known { IsKnownFor meter.old params.now known.now }
    requires pieces { All (IsPlainPiece meter.old params.now) pieces.now }
    ensures joined { IfOk result (λ kept. AreJoined meter.old (Assumes known.now) params.now pieces.now kept.items) }
    ensures meter { IsMetered meter.old meter.new result }
{
    let mut kept = Kept::new(alloc);
    for piece in pieces {
        let candidate = Candidate::of(alloc, piece, pieces.len(), meter)?;
        kept = put(alloc, params, known, kept, candidate, meter)?;
    }
    let together = kept.pieces(alloc)?;
    Ok(together)
}

// The value of these pieces.
fn gathered(alloc: Global, a: &Value, known: &Assumed, meter: &mut Meter) -> Result<Value, Cut>
    requires within { IsWithinLimit meter.old a.now }
    requires plain { HasNoDefinitions a.now }
    requires known { IsKnownFor meter.old a.now.params known.now }
    ensures gathered { IfOk result (IsGathered meter.old (Assumes known.now) a.now) }
    ensures meter { IsMetered meter.old meter.new result }
{
    let params = a.params();
    let pieces = a.pieces();
    let kept = all_together(alloc, params, known, pieces, meter)?;
    Ok(Value::from_normal(params.copy(alloc)?, kept))
}

/// The value with two of its pieces put together as often as that can be done: the rows of the one that are true on the other, and
/// those of the other that are true on the one, take the place of both where they have no element beside theirs. An equation that is
/// not true on the other piece is asked about as its two halves. So of equal pieces one stays, and a piece that lies within another
/// goes. Pieces that are not put together stay as they are, in their order. Assumed valuations alone are looked at, and a joint piece
/// has an element at one. No piece of the value may define a column, nor what is assumed. (isl manual, on coalescing)
///
/// # Errors
///
/// As every call under a meter.
pub fn coalesce(
    alloc: Global,
    a: &Value,
    assumed: &Assumed,
    meter: &mut Meter,
) -> Result<Value, Cut>
    requires within { IsWithinLimit meter.old a.now }
    requires plain { HasNoDefinitions a.now }
    requires assumed { IsSound meter.old assumed.now }
    requires assumed_plain { IsPlain assumed.now }

    // The value, and what it has.
    ensures kept { IfOk result IsKeptValue }
    ensures params { IfOk result (λ value. value.params ≡ a.now.params) }
    ensures coalesced { IfOk result (IsCoalescedUnder assumed.now a.now) }
    ensures all { assumed.now ≡ Nothing → IfOk result (IsCoalesced a.now) }
    ensures elements { (valuation : Valuation) (element : Element) → Assumes assumed.now valuation
        → IfOk result (λ value. Has value valuation element ↔ Has a.now valuation element) }

    // How it is written, and what that cost.
    ensures definitions { IfOk result HasNoDefinitions }
    ensures numbers { IfOk result (IsWithinLimit meter.old) }
    ensures few { IfOk result (λ value. length value.pieces ≤ length a.now.pieces) }
    ensures meter { IsMetered meter.old meter.new result }
{
    let known = assumed.onto(alloc, a.params(), meter)?;
    gathered(alloc, a, &known, meter)
}
