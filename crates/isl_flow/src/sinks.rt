//! Pieces of maps, and what is left of pieces without others.

ghost use Rattle.std.specs.Prelude.{List, All, Any, IfOk};
ghost use Rattle.isl_meter.specs.Gauge.{Gauge};
ghost use Rattle.isl_space.specs.Name.{Name};
ghost use Rattle.isl_space.specs.Names.{IsParameterList};
ghost use Rattle.isl_union.specs.Fault.{IsMeteredAnswer};
ghost use Rattle.isl_images.specs.Made.{IsPlain, elements_of_all};
ghost use Rattle.isl_flow.specs.Last.{HasMap, IsValueOf};
ghost use Rattle.isl_remainder.specs.Made.{AreMade};
ghost use Rattle.isl_precedence.specs.Precedence.{HasAt, IsSound};

use isl_meter::Meter;
use isl_piece::Piece;
use isl_space::{Params, Space};
use isl_union::{OpFault, Value};
use std::alloc::{AllocError, Global};

// The piece, where it is one of a map.
fn map_piece(alloc: Global, piece: &Piece) -> Result<Vec<Piece>, AllocError>
    ensures { (g : Gauge) (params : List Name) → IsSound g params piece.now
        → IfOk result (λ made. AreMade (HasAt params) (IsSound g params) IsPlain (IsPlain piece.now)
        (λ at. HasMap params at piece.now) made.items) }
{
    let Space::Map(_, _) = piece.space() else {
        return Ok(Vec::new(alloc));
    };
    let mut made = Vec::new(alloc);
    made.push(piece.copy()?)?;
    Ok(made)
}

/// Those of the pieces that are ones of maps.
pub(crate) fn maps_in(alloc: Global, pieces: &[Piece]) -> Result<Vec<Piece>, AllocError>
    ensures { (g : Gauge) (params : List Name) → All (IsSound g params) pieces.now
        → IfOk result (λ made. AreMade (HasAt params) (IsSound g params) IsPlain (All IsPlain pieces.now)
        (λ at. Any (HasMap params at) pieces.now) made.items) }
{
    let mut made = Vec::new(alloc);
    for piece in pieces {
        let mut more = map_piece(alloc, piece)?;
        made.append(&mut more)?;
    }
    Ok(made)
}

/// The value of the pieces without the others, over the same parameters.
pub(crate) fn pieces_without(
    alloc: Global,
    params: &Params,
    pieces: Vec<Piece>,
    others: Vec<Piece>,
    meter: &mut Meter,
) -> Result<Value, OpFault>
    requires params { IsParameterList params.now }
    requires pieces { All (IsSound meter.old params.now) pieces.items }
    requires others { All (IsSound meter.old params.now) others.items }
    ensures made { IfOk result (IsValueOf meter.old params.now (All IsPlain pieces.items × All IsPlain others.items)
        (λ v e. elements_of_all params.now pieces.items v e × (¬ elements_of_all params.now others.items v e))) }
    ensures meter { IsMeteredAnswer meter.old meter.new result }
{
    let own = Value::from_normal(params.copy(alloc)?, pieces);
    let other = Value::from_normal(params.copy(alloc)?, others);
    own.minus(alloc, &other, meter)
}
