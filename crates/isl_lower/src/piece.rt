//! Pieces of literals as pieces of values.

ghost use Rattle.std.specs.Prelude.{◌≡◌, ◌≤◌, ◌∷◌, [], IfOk, IfSome, false, option_map, option_to_list, true};
ghost use Rattle.isl_meter.specs.Gauge.{IsMetered};
ghost use Rattle.isl_space.specs.Names.{IsParameterList};
ghost use Rattle.isl_space.specs.SpaceForm.{IsWellFormedSpace};
ghost use Rattle.isl_piece.specs.System.{IsSystemWithin};
ghost use Rattle.isl_union.specs.Live.{IsLiveOf};
ghost use Rattle.isl_union.specs.Piece.{kept_piece, IsPieceOf};
ghost use Rattle.isl_tree.specs.Divisors.{ArePositive, piece_divisors};
ghost use Rattle.isl_tree.specs.Known.{piece_is_known};
ghost use Rattle.isl_tree.specs.Literal.{space_of_piece};
ghost use Rattle.isl_tree.specs.Plain.{is_plain_piece};
ghost use Rattle.isl_lower.specs.Made.{AreMadeOf};
ghost use Rattle.isl_lower.specs.Value.{piece_lowered};

use crate::space::space_of;
use crate::systems::systems_of;
use isl_meter::{Cut, Meter};
use isl_piece::{Piece, System};
use isl_plain::{is_plain_piece, rows_written};
use isl_space::{Name, Params};
use isl_tree::tree::PieceTree;
use isl_union::{live_piece, live_pieces_in};
use std::alloc::{AllocError, Global};

// The piece with its normal rows; none where it has no element at any valuation.
#[tactic(auto, using(std::proofs::lemmas::Grind::common_steps, isl_meter::proofs::CutLemmas::charges, crate::proofs::ValueLaws::cuts))]
fn lower_plain(
    alloc: Global,
    params: &[Name],
    piece: &PieceTree,
    meter: &mut Meter,
) -> Result<Option<Piece>, Cut>
    requires plain { is_plain_piece piece.now ≡ true }
    requires well_formed { IsWellFormedSpace (space_of_piece piece.now) }
    ensures found { IfOk result (λ found. IsLiveOf params.now (piece_lowered params.now piece.now) (option_map kept_piece found)
        × IfSome found (IsPieceOf params.now) × IfSome found (λ kept. IsSystemWithin meter.old kept.system)) }
    ensures meter { IsMetered meter.old meter.new result }
{
    let rows = rows_written(alloc, params, piece, meter)?;
    let space = space_of(alloc, piece)?;
    let width = params.len() + space.width() as usize;
    let system = System::from_rows(alloc, width, rows);
    live_piece(alloc, &space, system, meter)
}

fn found_one(alloc: Global, found: Option<Piece>) -> Result<Vec<Piece>, AllocError>
    ensures { IfOk result (λ pieces. pieces.items ≡ option_to_list found) }
{
    let mut pieces = Vec::new(alloc);
    if let Some(piece) = found {
        pieces.push(piece)?;
    }
    Ok(pieces)
}

// What a plain piece gives.
#[tactic(auto, using(std::proofs::lemmas::Grind::common_steps, isl_meter::proofs::CutLemmas::charges))]
fn plain_pieces(
    alloc: Global,
    names: &[Name],
    piece: &PieceTree,
    meter: &mut Meter,
) -> Result<Vec<Piece>, Cut>
    requires plain { is_plain_piece piece.now ≡ true }
    requires known { piece_is_known names.now piece.now ≡ true }
    requires well_formed { IsWellFormedSpace (space_of_piece piece.now) }
    ensures made { IfOk result (λ made. AreMadeOf meter.old meter.new names.now (piece.now ∷ []) made.items) }
    ensures meter { IsMetered meter.old meter.new result }
{
    let found = lower_plain(alloc, names, piece, meter)?;
    let made = found_one(alloc, found)?;
    Ok(made)
}

// What another piece gives.
#[tactic(auto, using(std::proofs::lemmas::Grind::common_steps, isl_meter::proofs::CutLemmas::charges))]
fn other_pieces(
    alloc: Global,
    names: &[Name],
    params: &Params,
    piece: &PieceTree,
    meter: &mut Meter,
) -> Result<Vec<Piece>, Cut>
    requires params { names.now ≡ params.now }
    requires parameters { IsParameterList names.now }
    requires other { is_plain_piece piece.now ≡ false }
    requires known { piece_is_known names.now piece.now ≡ true }
    requires well_formed { IsWellFormedSpace (space_of_piece piece.now) }
    requires divisors { ArePositive (piece_divisors piece.now) }
    ensures made { IfOk result (λ made. AreMadeOf meter.old meter.new names.now (piece.now ∷ []) made.items) }
    ensures meter { IsMetered meter.old meter.new result }
{
    let space = space_of(alloc, piece)?;
    let systems = systems_of(alloc, names, piece, meter)?;
    let made = live_pieces_in(alloc, params, &space, systems, meter)?;
    Ok(made)
}

/// The pieces that a piece of known names gives, with normal rows: a plain one gives its rows, where it has an element, and another one
/// those of its alternatives that have one.
///
/// # Errors
///
/// `Overflow` where a number passes the limit of the meter, `Budget` where its units are used up, and `NoMemory`.
#[tactic(auto, using(std::proofs::lemmas::Grind::common_steps, isl_meter::proofs::CutLemmas::charges))]
pub(crate) fn lower_piece(
    alloc: Global,
    names: &[Name],
    params: &Params,
    piece: &PieceTree,
    meter: &mut Meter,
) -> Result<Vec<Piece>, Cut>
    requires params { names.now ≡ params.now }
    requires parameters { IsParameterList names.now }
    requires known { piece_is_known names.now piece.now ≡ true }
    requires well_formed { IsWellFormedSpace (space_of_piece piece.now) }
    requires divisors { ArePositive (piece_divisors piece.now) }
    ensures made { IfOk result (λ made. AreMadeOf meter.old meter.new names.now (piece.now ∷ []) made.items) }
    ensures meter { IsMetered meter.old meter.new result }
{
    if is_plain_piece(piece) {
        plain_pieces(alloc, names, piece, meter)
    } else {
        other_pieces(alloc, names, params, piece, meter)
    }
}
