//! A system without its last column, where any number may stand there.

ghost use Rattle.std.specs.Prelude.{◌≡◌, ◌+◌, [], MatchResult};
ghost use Rattle.isl_meter.specs.Gauge.{IsCharged, IsCutBy};
ghost use Rattle.isl_piece.specs.System.{IsSystemWithin, free_columns};
ghost use Rattle.isl_calls.specs.Level.{IsShadow};

use isl_column::real_shadow;
use isl_meter::{Cut, Meter};
use isl_omega::column::Column;
use isl_piece::System;
use std::alloc::Global;

/// A system over the first `width` columns that holds where some number behind them makes the other one hold, and perhaps elsewhere;
/// none only where that has no point.
pub(crate) fn shadow(
    alloc: Global,
    system: &System,
    width: usize,
    meter: &mut Meter,
) -> Result<Option<System>, Cut>
    requires within { IsSystemWithin meter.old system.now }
    requires plain { system.now.definitions ≡ [] }
    requires columns { free_columns system.now ≡ width + 1 }
    ensures { MatchResult result
        (λ found. IsShadow meter.old system.now width found × IsCharged meter.old meter.new)
        (IsCutBy meter.old meter.new) }
{
    let column = Column {
        columns: system.columns,
        at: width,
    };
    match real_shadow(alloc, system.rows.as_slice(), column, meter)? {
        None => Ok(None),
        Some(rows) => Ok(Some(System::from_rows(alloc, width, rows))),
    }
}
