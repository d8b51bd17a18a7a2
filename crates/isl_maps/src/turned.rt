//! Maps turned round.

ghost use Rattle.std.specs.Prelude.{◌≡◌, ◌↔◌, ◌++◌, ◌≤◌, ℕ, ℤ, List, All, IfOk, IfErr, length, map};
ghost use Rattle.isl_meter.specs.declared.Cut.TheVariants.{NoMemory};
ghost use Rattle.isl_space.specs.Element.{Element};
ghost use Rattle.isl_space.specs.Form.{Form, width_of};
ghost use Rattle.isl_space.specs.Limits.{most_coordinates, most_parameters};
ghost use Rattle.isl_space.specs.Space.{space_form_of};
ghost use Rattle.isl_space.specs.SpaceForm.{coordinates_of, map_of};
ghost use Rattle.isl_space.specs.Valuation.{Valuation};
ghost use Rattle.isl_piece.specs.System.{IsSystemWithin};
ghost use Rattle.isl_union.specs.KeptValue.{Has, HasNoDefinitions, IsKeptValue};
ghost use Rattle.isl_union.specs.Numbers.{AreWithinLimit, HasNumbersUpTo, IsWithinLimit};
ghost use Rattle.isl_union.specs.Piece.{kept_piece, IsPieceOf};
ghost use Rattle.isl_union.specs.declared.fault.OpFault.TheVariants as op_fault;
ghost use Rattle.isl_maps.specs.Inverse.{inverse_element, inverse_of, inverse_piece, inverse_places, inverse_space};

use crate::places::{exchanged_places, own_places};
use isl_meter::Meter;
use isl_piece::Piece;
use isl_space::{Params, Space};
use isl_union::{OpFault, Value, settled_piece};
use std::alloc::{AllocError, Global};

// Where the columns of a piece of this space stand when it is turned round.
fn inverse_places(alloc: Global, parameters: usize, space: &Space) -> Result<Vec<usize>, AllocError>
    requires parameters { parameters ≤ most_parameters }
    requires space { coordinates_of (space_form_of space.now) ≤ most_coordinates }
    ensures { IfOk result (λ places. places.items ≡ inverse_places parameters (space_form_of space.now)) }
{
    match space {
        Space::Set(shape) => own_places(alloc, parameters + shape.width() as usize),
        Space::Map(from, to) => exchanged_places(
            alloc,
            parameters,
            from.width() as usize,
            to.width() as usize,
        ),
    }
}

// The space with its two shapes exchanged; that of a set stays.
fn inverse_space(space: &Space) -> Result<Space, AllocError>
    ensures { IfOk result (λ turned. space_form_of turned ≡ inverse_space (space_form_of space.now)) }
{
    match space {
        Space::Set(_) => space.copy(),
        Space::Map(from, to) => Ok(Space::Map(to.clone()?, from.clone()?)),
    }
}

// A piece turned round.
fn inverse_piece(
    alloc: Global,
    params: &Params,
    piece: &Piece,
    meter: &Meter,
) -> Result<Piece, AllocError>
    requires piece { IsPieceOf params.now piece.now }
    requires within { IsSystemWithin meter.now piece.now.system }
    ensures exact { IfOk result (λ turned. kept_piece turned ≡ inverse_piece params.now (kept_piece piece.now)) }
    ensures sound { IfOk result (IsPieceOf params.now) }
{
    let own = piece.system();
    let places = inverse_places(alloc, params.len(), piece.space())?;
    let system = own.placed(alloc, own.free(), places.as_slice())?;
    let space = inverse_space(piece.space())?;
    settled_piece(alloc, &space, system, meter)
}

// Pieces turned round.
fn inverse_pieces(
    alloc: Global,
    params: &Params,
    pieces: &[Piece],
    meter: &Meter,
) -> Result<Vec<Piece>, AllocError>
    requires pieces { All (IsPieceOf params.now) pieces.now }
    requires within { AreWithinLimit meter.now pieces.now }
    ensures exact { IfOk result (λ turned. map kept_piece turned.items ≡ map (inverse_piece params.now) (map kept_piece pieces.now)) }
    ensures sound { IfOk result (λ turned. All (IsPieceOf params.now) turned.items) }
{
    let mut turned = Vec::with_capacity(alloc, pieces.len())?;
    for piece in pieces {
        turned.push(inverse_piece(alloc, params, piece, meter)?)?;
    }
    Ok(turned)
}

/// The inverse of a value of maps: from y to x what the value has from x to y. The coordinates of the two places of each row are
/// exchanged, and the rows made normal. Pieces that are sets stay as they are. No unit is used. (isl manual, on relation
/// operations)
///
/// # Errors
///
/// `NoMemory`, and nothing else.
pub fn inverse(alloc: Global, a: &Value, meter: &mut Meter) -> Result<Value, OpFault>
    requires { IsWithinLimit meter.old a.now }

    // The value, and what it has.
    ensures written { IfOk result (λ value. value ≡ inverse_of a.now) }
    ensures kept { IfOk result IsKeptValue }
    ensures elements { (valuation : Valuation) (element : Element)
        → IfOk result (λ value. Has value valuation element ↔ Has a.now valuation (inverse_element element)) }
    ensures maps { (valuation : Valuation) (from : Form) (to : Form) (x : List ℤ) (y : List ℤ) → length x ≡ width_of from
        → length y ≡ width_of to
        → IfOk result (λ value. Has value valuation (record { space = map_of to from; coordinates = y ++ x })
        ↔ Has a.now valuation (record { space = map_of from to; coordinates = x ++ y })) }

    // How it is written.
    ensures definitions { HasNoDefinitions a.now → IfOk result HasNoDefinitions }
    ensures numbers { (b : ℕ) → HasNumbersUpTo b a.now → IfOk result (HasNumbersUpTo b) }

    // Why there is none; and the meter.
    ensures faults { IfErr result (λ fault. fault ≡ op_fault.Cut NoMemory) }
    ensures meter { meter.new ≡ meter.old }
{
    let params = a.params();
    let pieces = inverse_pieces(alloc, params, a.pieces(), meter)?;
    Ok(Value::from_normal(params.copy(alloc)?, pieces))
}
