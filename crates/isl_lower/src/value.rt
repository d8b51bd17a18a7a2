//! Literals as values.

ghost use Rattle.std.specs.Prelude.{◌≡◌, ◌+◌, ◌≤◌, All, IfOk, MatchResult, length, true};
ghost use Rattle.std.specs.List.{list_all};
ghost use Rattle.isl_meter.specs.Gauge.{IsMetered};
ghost use Rattle.isl_meter.specs.declared.Cut.TheVariants.{NoMemory};
ghost use Rattle.isl_space.specs.Names.{IsParameterList};
ghost use Rattle.isl_space.specs.SpaceForm.{IsWellFormedSpace};
ghost use Rattle.isl_union.specs.KeptValue.{HasNoDefinitions, IsKeptValue};
ghost use Rattle.isl_union.specs.Numbers.{IsWithinLimit};
ghost use Rattle.isl_tree.specs.Divisors.{ArePositive, piece_divisors};
ghost use Rattle.isl_tree.specs.Known.{literal_is_known, piece_is_known};
ghost use Rattle.isl_tree.specs.Literal.{space_of_piece};
ghost use Rattle.isl_tree.specs.Plain.{is_plain};
ghost use Rattle.isl_lower.specs.Made.{AreMadeOf};
ghost use Rattle.isl_lower.specs.Value.{IsLowered, IsWellFormedLiteral};

use crate::piece::lower_piece;
use isl_meter::{Cut, Meter};
use isl_piece::Piece;
use isl_space::{Name, Params, SpaceFault};
use isl_tree::tree::{Literal, PieceTree};
use isl_union::{Value, append};
use std::alloc::Global;

// What the pieces give, in order.
#[tactic(auto, using(std::proofs::lemmas::Grind::common_steps, isl_meter::proofs::CutLemmas::charges))]
fn lower_pieces(
    alloc: Global,
    names: &[Name],
    params: &Params,
    pieces: &[PieceTree],
    meter: &mut Meter,
) -> Result<Vec<Piece>, Cut>
    requires params { names.now ≡ params.now }
    requires parameters { IsParameterList names.now }
    requires known { list_all (piece_is_known names.now) pieces.now ≡ true }
    requires well_formed { All (λ piece. IsWellFormedSpace (space_of_piece piece)) pieces.now }
    requires divisors { All (λ piece. ArePositive (piece_divisors piece)) pieces.now }
    ensures made { IfOk result (λ made. AreMadeOf meter.old meter.new names.now pieces.now made.items) }
    ensures meter { IsMetered meter.old meter.new result }
{
    let mut made = Vec::with_capacity(alloc, pieces.len())?;
    for piece in pieces {
        let more = lower_piece(alloc, names, params, piece, meter)?;
        append(&mut made, more)?;
    }
    Ok(made)
}

// The parameters that are declared, with their names shared.
fn declared(alloc: Global, names: &[Name]) -> Result<Params, Cut>
    requires { IsParameterList names.now }
    ensures { MatchResult result (λ params. params ≡ names.now) (λ cut. cut ≡ NoMemory) }
{
    let mut copies = Vec::with_capacity(alloc, names.len())?;
    for name in names {
        copies.push(name.copy()?)?;
    }
    match Params::new(alloc, copies) {
        Ok(params) => Ok(params),
        Err(SpaceFault::NoMemory) => Err(Cut::NoMemory),
        Err(SpaceFault::TooWide) => unreachable!(),
    }
}

/// The value of a literal of known names: over the declared parameters the pieces that have an element at some valuation, each with
/// its normal rows, in the order of the literal's pieces. A plain piece gives one piece at most; another one gives several, which may
/// define columns: no more than one and as many as units were used. (isl manual, on the notation of sets and relations)
///
/// # Errors
///
/// `Overflow` where a number passes the limit of the meter, `Budget` where its units are used up, and `NoMemory`.
pub fn lower(alloc: Global, literal: &Literal, meter: &mut Meter) -> Result<Value, Cut>
    requires known { literal_is_known literal.now ≡ true }
    requires well_formed { IsWellFormedLiteral literal.now }
    ensures exact { IfOk result (IsLowered literal.now) }
    ensures kept { IfOk result IsKeptValue }
    ensures definitions { is_plain literal.now ≡ true → IfOk result HasNoDefinitions }
    ensures within { IfOk result (IsWithinLimit meter.old) }
    ensures counted { IfOk result
        (λ value. length value.pieces + meter.old.units ≤ meter.new.units + length literal.now.pieces) }
    ensures meter { IsMetered meter.old meter.new result }
{
    let names = literal.params.as_slice();
    let params = declared(alloc, names)?;
    let pieces = lower_pieces(alloc, names, &params, literal.pieces.as_slice(), meter)?;
    Ok(Value::from_normal(params, pieces))
}
