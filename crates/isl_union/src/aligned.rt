//! Values over more parameters.

ghost use Rattle.std.specs.Prelude.{◌≡◌, ◌↔◌, ◌++◌, All, Contains, IfOk, IsTrue, length, map};
ghost use Rattle.std.specs.List.{range_with_len};
ghost use Rattle.isl_space.specs.Names.{AreDistinct};
ghost use Rattle.isl_piece.specs.System.{IsSystemWithin};
ghost use Rattle.isl_union.specs.KeptValue.{IsKeptValue};
ghost use Rattle.isl_union.specs.Moved.{aligned, aligned_pieces, places_in};
ghost use Rattle.isl_union.specs.Numbers.{AreWithinLimit, IsWithinLimit};
ghost use Rattle.isl_union.specs.Piece.{kept_piece, IsPieceOf};

use crate::Value;
use crate::live::settled_piece;
use isl_meter::Meter;
use isl_piece::Piece;
use isl_space::Params;
use std::alloc::{AllocError, Global};

// Whether the two lists are the same.
fn are_same(a: &Params, b: &Params) -> bool
    ensures { IsTrue result ↔ (a.now ≡ b.now) }
{
    if a.len() != b.len() {
        return false;
    }
    for i in 0..a.len() {
        if a.name(i) != b.name(i) {
            return false;
        }
    }
    true
}

// The place of each name among all.
fn places_in(alloc: Global, all: &Params, names: &Params) -> Result<Vec<usize>, AllocError>
    requires { All (Contains all.now) names.now }
    ensures { IfOk result (λ places. places.items ≡ places_in all.now names.now) }
{
    let mut places = Vec::with_capacity(alloc, names.len())?;
    for i in 0..names.len() {
        match all.position(names.name(i)) {
            Some(place) => places.push(place)?,
            None => unreachable!(),
        }
    }
    Ok(places)
}

// The places of the columns of a piece over these parameters, which has so many coordinates, among those of one over all.
fn column_places(
    alloc: Global,
    all: &Params,
    names: &Params,
    width: u32,
) -> Result<Vec<usize>, AllocError>
    requires { All (Contains all.now) names.now }
    ensures { IfOk result (λ places. places.items ≡ places_in all.now names.now ++ range_with_len (length all.now) width) }
{
    let mut places = places_in(alloc, all, names)?;
    for coordinate in 0..width as usize {
        places.push(all.len() + coordinate)?;
    }
    Ok(places)
}

// A piece over these parameters, as one over all.
fn aligned_piece(
    alloc: Global,
    all: &Params,
    names: &Params,
    piece: &Piece,
    meter: &Meter,
) -> Result<Piece, AllocError>
    requires names { AreDistinct names.now }
    requires among { All (Contains all.now) names.now }
    requires piece { IsPieceOf names.now piece.now }
    requires within { IsSystemWithin meter.now piece.now.system }
    ensures exact { IfOk result (λ moved. kept_piece moved ≡ aligned all.now names.now (kept_piece piece.now)) }
    ensures sound { IfOk result (IsPieceOf all.now) }
{
    let space = piece.space();
    let width = space.width();
    let places = column_places(alloc, all, names, width)?;
    let columns = all.len() + width as usize;
    let system = piece.system().placed(alloc, columns, places.as_slice())?;
    settled_piece(alloc, space, system, meter)
}

// Copies of pieces, which share their systems with them.
fn copies(alloc: Global, pieces: &[Piece]) -> Result<Vec<Piece>, AllocError>
    ensures { IfOk result (λ copies. copies.items ≡ pieces.now) }
{
    let mut copies = Vec::with_capacity(alloc, pieces.len())?;
    for piece in pieces {
        copies.push(piece.copy()?)?;
    }
    Ok(copies)
}

// Pieces over these parameters, as ones over all.
fn moved_pieces(
    alloc: Global,
    all: &Params,
    names: &Params,
    pieces: &[Piece],
    meter: &Meter,
) -> Result<Vec<Piece>, AllocError>
    requires names { AreDistinct names.now }
    requires among { All (Contains all.now) names.now }
    requires pieces { All (IsPieceOf names.now) pieces.now }
    requires within { AreWithinLimit meter.now pieces.now }
    ensures exact { IfOk result (λ moved. map kept_piece moved.items ≡ map (aligned all.now names.now) (map kept_piece pieces.now)) }
    ensures sound { IfOk result (λ moved. All (IsPieceOf all.now) moved.items) }
{
    let mut moved = Vec::with_capacity(alloc, pieces.len())?;
    for piece in pieces {
        moved.push(aligned_piece(alloc, all, names, piece, meter)?)?;
    }
    Ok(moved)
}

/// The pieces of the value, as ones over all parameters, in their order.
///
/// # Errors
///
/// Where memory ends.
pub fn aligned_pieces(
    alloc: Global,
    all: &Params,
    value: &Value,
    meter: &Meter,
) -> Result<Vec<Piece>, AllocError>
    requires among { All (Contains all.now) value.now.params }
    requires within { IsWithinLimit meter.now value.now }
    ensures kept { IsKeptValue value.now }
    ensures exact { IfOk result (λ pieces. map kept_piece pieces.items ≡ aligned_pieces all.now value.now) }
    ensures sound { IfOk result (λ pieces. All (IsPieceOf all.now) pieces.items) }
{
    let pieces = value.pieces();
    let names = value.params();
    if are_same(all, names) {
        copies(alloc, pieces)
    } else {
        moved_pieces(alloc, all, names, pieces, meter)
    }
}

/// The same of a value that is taken. Where it declares all the parameters in their order, its pieces are not copied.
///
/// # Errors
///
/// Where memory ends.
pub(crate) fn taken_pieces(
    alloc: Global,
    all: &Params,
    value: Value,
    meter: &Meter,
) -> Result<Vec<Piece>, AllocError>
    requires among { All (Contains all.now) value.params }
    requires within { IsWithinLimit meter.now value }
    ensures kept { IsKeptValue value }
    ensures exact { IfOk result (λ pieces. map kept_piece pieces.items ≡ aligned_pieces all.now value) }
    ensures sound { IfOk result (λ pieces. All (IsPieceOf all.now) pieces.items) }
{
    let _pieces = value.pieces();
    if are_same(all, value.params()) {
        return Ok(value.into_pieces());
    }
    aligned_pieces(alloc, all, &value, meter)
}
