//! Pieces over more parameters.

ghost use Rattle.std.specs.Prelude.{All, Contains, IfOk};
ghost use Rattle.isl_union.specs.Minus.{ArePiecesOver};
ghost use Rattle.isl_union.specs.Numbers.{IsWithinLimit};

use isl_meter::Meter;
use isl_piece::Piece;
use isl_space::Params;
use isl_union::{Value, aligned_pieces};
use std::alloc::{AllocError, Global};

/// The pieces of the value, as ones over all parameters, in their order.
///
/// # Errors
///
/// Where memory ends.
pub fn aligned_over(
    alloc: Global,
    all: &Params,
    value: &Value,
    meter: &Meter,
) -> Result<Vec<Piece>, AllocError>
    requires among { All (Contains all.now) value.now.params }
    requires within { IsWithinLimit meter.now value.now }
    ensures { IfOk result (λ pieces. ArePiecesOver meter.now all.now value.now pieces.items) }
{
    aligned_pieces(alloc, all, value, meter)
}
