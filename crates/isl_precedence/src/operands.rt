//! Three values over their joined parameters.

ghost use Rattle.std.specs.Prelude.{◌≤◌, IfOk, MatchResult, length};
ghost use Rattle.isl_space.specs.Limits.{most_parameters};
ghost use Rattle.isl_space.specs.Names.{joined};
ghost use Rattle.isl_union.specs.Fault.{IsPlainFault};
ghost use Rattle.isl_union.specs.Numbers.{IsWithinLimit};
ghost use Rattle.isl_precedence.specs.Operands.{AreAligned};

use crate::told::told_over;
use isl_by_space::aligned_over;
use isl_meter::Meter;
use isl_piece::Piece;
use isl_space::Params;
use isl_union::{OpFault, Value};
use std::alloc::Global;

/// The joined parameters of three values, and the pieces of each over them.
#[derive(Drop)]
pub struct Operands {
    pub params: Params,
    pub sources: Vec<Piece>,
    pub sinks: Vec<Piece>,
    pub times: Vec<Piece>,
}

/// The pieces of the three values over their joined parameters; those of the times without the defined columns that equations tell.
pub fn aligned(
    alloc: Global,
    sources: &Value,
    sinks: &Value,
    times: &Value,
    meter: &Meter,
) -> Result<Operands, OpFault>
    requires sources { IsWithinLimit meter.now sources.now }
    requires sinks { IsWithinLimit meter.now sinks.now }
    requires times { IsWithinLimit meter.now times.now }
    ensures exact { IfOk result (AreAligned meter.now sources.now sinks.now times.now) }
    ensures faults { MatchResult result
        (λ _. length (joined (joined sources.now.params sinks.now.params) times.now.params) ≤ most_parameters)
        (IsPlainFault (joined (joined sources.now.params sinks.now.params) times.now.params)) }
{
    let (both, _places) = sources.params().align(alloc, sinks.params())?;
    let (params, _places) = both.align(alloc, times.params())?;
    let first = aligned_over(alloc, &params, sources, meter)?;
    let second = aligned_over(alloc, &params, sinks, meter)?;
    let third = told_over(alloc, &params, times, meter)?;
    Ok(Operands {
        params,
        sources: first,
        sinks: second,
        times: third,
    })
}
