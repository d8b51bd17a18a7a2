//! Whether values are within the limit of a meter, which operations ask of them.

ghost use Rattle.std.specs.Prelude.{◌≡◌, All, true, unsigned_abs};
ghost use Rattle.isl_meter.specs.Gauge.{limit_of};
ghost use Rattle.isl_union.specs.Numbers.{IsPieceUpTo, IsWithinLimit};
ghost use Rattle.isl_union.specs.Piece.{kept_piece};

use isl_meter::Meter;
use isl_piece::Piece;
use isl_union::Value;
use tests_made::{are_definitions_within, are_proper};

fn is_piece_within(piece: &Piece, meter: &Meter) -> bool
    ensures { result ≡ true → IsPieceUpTo (unsigned_abs (limit_of meter.now)) (kept_piece piece.now) }
{
    let system = piece.system();
    are_definitions_within(system.definitions.as_slice(), meter)
        && are_proper(system.rows.as_slice(), system.columns, meter)
}

fn are_within(pieces: &[Piece], meter: &Meter) -> bool
    ensures { result ≡ true → All (λ piece. IsPieceUpTo (unsigned_abs (limit_of meter.now)) (kept_piece piece)) pieces.now }
{
    pieces.iter().all(|piece| is_piece_within(piece, meter))
}

/// Whether each number of the value is within the limit.
pub(crate) fn is_within(value: &Value, meter: &Meter) -> bool
    ensures { result ≡ true → IsWithinLimit meter.now value.now }
{
    are_within(value.pieces(), meter)
}
