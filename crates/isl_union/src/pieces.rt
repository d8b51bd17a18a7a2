//! The pieces of a space with several systems.

ghost use Rattle.std.specs.Prelude.{◌≡◌, ◌↔◌, ◌+◌, ◌*◌, ◌≤◌, ◌++◌, ℕ, [], All, Any, IfOk, OnOk, length, map, unsigned_abs};
ghost use Rattle.isl_meter.specs.Gauge.{IsMetered, limit_of};
ghost use Rattle.isl_space.specs.Element.{Element};
ghost use Rattle.isl_space.specs.Space.{space_form_of};
ghost use Rattle.isl_space.specs.SpaceForm.{IsWellFormedSpace};
ghost use Rattle.isl_space.specs.Valuation.{Valuation};
ghost use Rattle.isl_piece.specs.System.{IsSystemWithin, free_columns};
ghost use Rattle.isl_ledger.specs.Answered.{IsTame};
ghost use Rattle.isl_ledger.specs.Work.{AreOfSize};
ghost use Rattle.isl_difference.specs.Tame.{HasNormalDifferences};
ghost use Rattle.isl_union.specs.KeptValue.{HasElement, columns_of};
ghost use Rattle.isl_union.specs.Minus.{piece_in};
ghost use Rattle.isl_union.specs.Numbers.{IsPieceUpTo};
ghost use Rattle.isl_union.specs.Piece.{kept_piece, IsPieceOf};
ghost use Rattle.isl_union.specs.Pieces.{IsOfAny};
ghost use Rattle.isl_union.specs.Tame.{size_of, systems_of};

use crate::live::{live_piece, push_found};
use isl_meter::{Cut, Meter};
use isl_piece::{Piece, System};
use isl_space::{Params, Space};
use std::alloc::{AllocError, Global};

/// Puts the other pieces behind these.
///
/// # Errors
///
/// `AllocError` where memory ends, or they are too many together: memory is bounded as time is.
pub fn append(pieces: &mut Vec<Piece>, more: Vec<Piece>) -> Result<(), AllocError>
    ensures { OnOk result (pieces.new.items ≡ pieces.old.items ++ more.items) }
{
    let mut more = more;
    isl_difference::append(pieces, &mut more)
}

/// A piece of the space for each of the systems, in their order.
///
/// # Errors
///
/// Where memory ends.
pub fn pieces_in(
    alloc: Global,
    space: &Space,
    systems: Vec<System>,
) -> Result<Vec<Piece>, AllocError>
    ensures { IfOk result (λ pieces. pieces.items ≡ map (piece_in (space_form_of space.now)) systems.items) }
{
    let mut pieces = Vec::with_capacity(alloc, systems.len())?;
    for system in systems {
        pieces.push(Piece::new(alloc, space.copy()?, system)?)?;
    }
    Ok(pieces)
}

/// The pieces of the space with the systems' normal rows; none for a system that holds at no point.
///
/// # Errors
///
/// `Overflow` where a number passes the limit of the meter, `Budget` where its units are used up, and `NoMemory`.
#[tactic(auto, using(std::proofs::lemmas::Grind::common_steps, isl_meter::proofs::CutLemmas::charges))]
pub fn live_pieces_in(
    alloc: Global,
    params: &Params,
    space: &Space,
    systems: Vec<System>,
    meter: &mut Meter,
) -> Result<Vec<Piece>, Cut>
    requires space { IsWellFormedSpace (space_form_of space.now) }
    requires columns { All (λ s. free_columns s ≡ columns_of params.now (space_form_of space.now)) systems.items }
    requires within { All (IsSystemWithin meter.old) systems.items }
    ensures elements { (valuation : Valuation) (element : Element)
        → IfOk result (λ kept. Any (HasElement params.now valuation element) (map kept_piece kept.items)
        ↔ IsOfAny params.now (space_form_of space.now) systems.items valuation element) }
    ensures sound { IfOk result (λ kept. All (IsPieceOf params.now) kept.items) }
    ensures definitions { All (λ s. s.definitions ≡ []) systems.items
        → IfOk result (λ kept. All (λ piece. piece.definitions ≡ []) (map kept_piece kept.items)) }
    ensures numbers { IfOk result (λ kept. All (IsPieceUpTo (unsigned_abs (limit_of meter.old))) (map kept_piece kept.items)) }
    ensures few { IfOk result (λ kept. length kept.items ≤ length systems.items) }
    ensures meter { IsMetered meter.old meter.new result }
    ensures tame { (columns bits : ℕ) → meter.old.bits ≡ 127 → bits + columns ≤ 120 → All (HasNormalDifferences columns bits) systems.items
        → IsTame (length systems.items * (columns * (columns * columns))) meter.old meter.new
        (λ kept. AreOfSize (size_of (length systems.items) columns bits) (systems_of kept.items)) result }
{
    let mut kept = Vec::with_capacity(alloc, systems.len())?;
    for system in systems {
        push_found(&mut kept, live_piece(alloc, space, system, meter)?)?;
    }
    Ok(kept)
}
