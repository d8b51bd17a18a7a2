//! Calls of values and of pieces that no table can name.

ghost use Rattle.std.specs.Prelude.{All, IfOk};
ghost use Rattle.isl_space.specs.Names.{IsParameterList};
ghost use Rattle.isl_space.specs.Space.{space_form_of};
ghost use Rattle.isl_space.specs.SpaceForm.{IsWellFormedSpace};
ghost use Rattle.isl_piece.specs.System.{HoldsSystem, free_columns};
ghost use Rattle.isl_elim.specs.Sample.{IsNowhere};
ghost use Rattle.isl_union.specs.Piece.{IsPieceOver};

use isl_meter::{Int, Meter};
use isl_piece::{Coefs, Piece, Row, RowKind, System};
use isl_space::{Params, Shape, Space, SpaceFault};
use isl_union::{OpFault, Value};
use std::alloc::{AllocError, Global};

// No parameters.
fn params(alloc: Global) -> Result<Params, SpaceFault>
    ensures { IfOk result IsParameterList }
{
    Params::new(alloc, Vec::new(alloc))
}

// A set without a name, of so many coordinates.
fn space(alloc: Global, width: u32) -> Result<Space, SpaceFault>
    ensures { IfOk result (λ space. IsWellFormedSpace (space_form_of space)) }
{
    Space::set(Shape::leaf(alloc, None, width)?)
}

// All of `[i, j]`, where there are no parameters.
fn piece(alloc: Global, params: &Params, meter: &Meter) -> Result<Piece, SpaceFault>
    ensures over { IfOk result (IsPieceOver meter.now params.now) }
    ensures live { IfOk result (λ piece. ¬ IsNowhere (free_columns piece.system) (HoldsSystem piece.system)) }
{
    let space = space(alloc, 2)?;
    let columns = params.len() + space.width() as usize;
    let system = System::new(alloc, columns);
    Ok(Piece::new(alloc, space, system)?)
}

// A list of this piece alone.
fn pieces(alloc: Global, params: &Params, meter: &Meter) -> Result<Vec<Piece>, SpaceFault>
    ensures over { IfOk result (λ pieces. All (IsPieceOver meter.now params.now) pieces.items) }
    ensures live { IfOk result (λ pieces. All (λ piece. ¬ IsNowhere (free_columns piece.system) (HoldsSystem piece.system)) pieces.items) }
{
    let mut pieces = Vec::new(alloc);
    pieces.push(piece(alloc, params, meter)?)?;
    Ok(pieces)
}

fn live_value(alloc: Global, meter: &mut Meter) -> Result<Value, OpFault> {
    let params = params(alloc)?;
    let pieces = pieces(alloc, &params, meter)?;
    Ok(Value::from_live(alloc, params, pieces, meter)?)
}

// Whether the piece is all of a set of so many coordinates.
fn is_all(piece: &Piece, width: usize) -> bool {
    let system = piece.system();
    system.columns == width && system.definitions.is_empty() && system.rows.is_empty()
}

// Whether the value has so many pieces, each of them all of a set of so many coordinates.
fn is_all_of(value: &Value, pieces: usize, width: usize) -> bool {
    let found = value.pieces();
    found.len() == pieces && found.iter().all(|piece| is_all(piece, width))
}

// Whether a value that is made of live pieces has these, and so has its copy.
fn made_of_live(alloc: Global) -> Result<bool, OpFault> {
    let mut meter = Meter::new(127, 1000);
    let value = live_value(alloc, &mut meter)?;
    let copy = value.copy(alloc)?;
    Ok(is_all_of(&value, 1, 2) && is_all_of(&copy, 1, 2) && meter.units() == 0)
}

// The row that says that all numbers have a sum with 1 of at least 0, or of 0.
fn row(alloc: Global, kind: RowKind, columns: usize) -> Result<Row, AllocError> {
    let coefs = Coefs::zeros(alloc, columns)?;
    Ok(Row::new(kind, coefs, Int::ONE, Int::ONE))
}

// Whether a piece is as it was where the rows of its copy change.
fn changed_alone(alloc: Global) -> Result<bool, SpaceFault> {
    let meter = Meter::new(127, 1000);
    let piece = piece(alloc, &params(alloc)?, &meter)?;
    let mut copy = piece.copy()?;
    copy.push_row(row(alloc, RowKind::AtLeast, 2)?)?;
    let Some(pushed) = copy.system().rows.as_slice().first() else {
        return Ok(false);
    };
    let is_pushed = pushed.kind == RowKind::AtLeast;
    copy.replace_row(0, row(alloc, RowKind::Zero, 2)?)?;
    let Some(replaced) = copy.system().rows.as_slice().first() else {
        return Ok(false);
    };
    let is_replaced = replaced.kind == RowKind::Zero;
    copy.remove_row(0)?;
    Ok(is_pushed && is_replaced && copy.system().rows.is_empty() && is_all(&piece, 2))
}

pub(crate) fn live_pieces_are_right(alloc: Global) -> bool {
    made_of_live(alloc) == Ok(true)
}

pub(crate) fn copies_are_right(alloc: Global) -> bool {
    changed_alone(alloc) == Ok(true)
}
