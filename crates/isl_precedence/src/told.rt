//! Pieces whose defined columns equations tell.

ghost use Rattle.std.specs.Prelude.{All, Contains, IfOk};
ghost use Rattle.std.specs.List.{AllZip};
ghost use Rattle.isl_piece.specs.System.{IsSystemWithin};
ghost use Rattle.isl_union.specs.Minus.{ArePiecesOver};
ghost use Rattle.isl_union.specs.Numbers.{AreWithinLimit, IsWithinLimit};
ghost use Rattle.isl_precedence.specs.Told.{IsTold};

use isl_by_space::aligned_over;
use isl_meter::Meter;
use isl_piece::Piece;
use isl_quotient::without_definitions;
use isl_space::Params;
use isl_union::Value;
use std::alloc::{AllocError, Global};

// The piece over its free columns alone, where equations tell the defined ones; else the piece itself.
fn told(alloc: Global, piece: &Piece, meter: &Meter) -> Result<Piece, AllocError>
    requires within { IsSystemWithin meter.now piece.now.system }
    ensures { IfOk result (IsTold meter.now piece.now) }
{
    match without_definitions(alloc, piece.system(), meter)? {
        Some(system) => Piece::new(alloc, piece.space().copy()?, system),
        None => piece.copy(),
    }
}

// Those of all of them.
fn all_told(alloc: Global, pieces: &[Piece], meter: &Meter) -> Result<Vec<Piece>, AllocError>
    requires within { AreWithinLimit meter.now pieces.now }
    ensures { IfOk result (λ made. AllZip (IsTold meter.now) pieces.now made.items) }
{
    let mut made = Vec::with_capacity(alloc, pieces.len())?;
    for piece in pieces {
        made.push(told(alloc, piece, meter)?)?;
    }
    Ok(made)
}

/// As `aligned_over`, without the defined columns that equations tell. A time `floor(i/32)` is a coordinate then, with two bounds.
///
/// # Errors
///
/// `AllocError` where memory ends.
pub(crate) fn told_over(
    alloc: Global,
    all: &Params,
    value: &Value,
    meter: &Meter,
) -> Result<Vec<Piece>, AllocError>
    requires among { All (Contains all.now) value.now.params }
    requires within { IsWithinLimit meter.now value.now }
    ensures { IfOk result (λ pieces. ArePiecesOver meter.now all.now value.now pieces.items) }
{
    let pieces = aligned_over(alloc, all, value, meter)?;
    all_told(alloc, pieces.as_slice(), meter)
}
