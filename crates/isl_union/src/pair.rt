//! Two values over their joined parameters.

ghost use Rattle.std.specs.Prelude.{◌≡◌, ◌≤◌, IfOk, MatchResult, length};
ghost use Rattle.isl_space.specs.Limits.{most_parameters};
ghost use Rattle.isl_space.specs.Names.{joined};
ghost use Rattle.isl_union.specs.Fault.{IsPlainFault};
ghost use Rattle.isl_union.specs.Minus.{IsAlignedPair};
ghost use Rattle.isl_union.specs.Numbers.{IsWithinLimit};

use crate::aligned::aligned_pieces;
use crate::{OpFault, Value};
use isl_meter::Meter;
use isl_piece::Piece;
use isl_space::Params;
use std::alloc::Global;

/// The joined parameters of two values, and the pieces of both over them.
#[derive(Drop)]
pub struct AlignedPair {
    /// The joined parameters.
    pub params: Params,
    /// The pieces of the first value.
    pub own: Vec<Piece>,
    /// The pieces of the second value.
    pub others: Vec<Piece>,
}

/// The pieces of this value and of the other over the joined parameters.
///
/// # Errors
///
/// `TooWide` where the two together declare more than 16 parameters, and `NoMemory`.
pub fn aligned_pair(
    alloc: Global,
    value: &Value,
    other: &Value,
    meter: &Meter,
) -> Result<AlignedPair, OpFault>
    requires own { IsWithinLimit meter.now value.now }
    requires other { IsWithinLimit meter.now other.now }
    ensures exact { IfOk result (λ pair. IsAlignedPair meter.now value.now other.now pair.params pair.own.items pair.others.items) }
    ensures count { IfOk result (λ pair. length pair.own.items ≡ length value.now.pieces) }
    ensures faults { MatchResult result (λ _. length (joined value.now.params other.now.params) ≤ most_parameters)
        (IsPlainFault (joined value.now.params other.now.params)) }
{
    let (params, _places) = value.params().align(alloc, other.params())?;
    let own = aligned_pieces(alloc, &params, value, meter)?;
    let others = aligned_pieces(alloc, &params, other, meter)?;
    Ok(AlignedPair {
        params,
        own,
        others,
    })
}
