//! Two systems at picked blocks of columns.

ghost use Rattle.std.specs.Prelude.{◌≡◌, ◌≢◌, ◌<◌, ◌^◌, AllPairs, IfOk};
ghost use Rattle.isl_meter.specs.Gauge.{Gauge};
ghost use Rattle.isl_piece.specs.System.{IsSystemWithin, free_columns};
ghost use Rattle.isl_blocks.specs.Blocks.{picked_width, total};
ghost use Rattle.isl_orders.specs.Both.{IsBoth};

use isl_blocks::spread;
use isl_piece::{System, meet};
use std::alloc::{AllocError, Global};

/// The system over blocks of columns of these widths that holds where each of the two does at its picked blocks.
///
/// # Errors
///
/// Where memory ends.
pub(crate) fn both_at(
    alloc: Global,
    widths: &[usize],
    own: &System,
    picks: &[usize],
    other: &System,
    others: &[usize],
) -> Result<System, AllocError>
    requires fits { total widths.now < 2 ^ 64 }
    requires within { (g : Gauge) × IsSystemWithin g own.now × IsSystemWithin g other.now }
    requires own_apart { AllPairs (λ i j. i ≢ j) picks.now }
    requires other_apart { AllPairs (λ i j. i ≢ j) others.now }
    requires own_columns { free_columns own.now ≡ picked_width widths.now picks.now }
    requires other_columns { free_columns other.now ≡ picked_width widths.now others.now }
    ensures { (g : Gauge) → IsSystemWithin g own.now → IsSystemWithin g other.now
        → IfOk result (IsBoth g widths.now own.now picks.now other.now others.now) }
{
    let first = spread(alloc, own, widths, picks)?;
    let second = spread(alloc, other, widths, others)?;
    meet(alloc, &first, &second)
}
