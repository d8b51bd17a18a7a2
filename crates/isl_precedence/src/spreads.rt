//! Systems over more blocks of columns that hold where others do.

ghost use Rattle.std.specs.Prelude.{◌≡◌, ◌≢◌, ◌<◌, ◌^◌, [], AllPairs, IfOk};
ghost use Rattle.isl_meter.specs.Gauge.{Gauge};
ghost use Rattle.isl_piece.specs.System.{IsSystemWithin, free_columns};
ghost use Rattle.isl_blocks.specs.Blocks.{picked_width, total};
ghost use Rattle.isl_precedence.specs.Spreads.{sink_blocks, source_blocks, start_blocks, stop_blocks, HoldBoth, HoldFour, IsOverBlocks};

use isl_blocks::spread;
use isl_piece::{Piece, System, meet};
use std::alloc::{AllocError, Global};

/// Two accesses.
#[derive(Clone, Copy)]
pub(crate) struct Accesses<'a> {
    pub source: &'a Piece,
    pub sink: &'a Piece,
}

// The system over blocks of columns of these widths that holds where the first does at its picks, and the second at its own.
fn both_spread(
    alloc: Global,
    widths: &[usize],
    first: &System,
    firsts: &[usize],
    second: &System,
    seconds: &[usize],
) -> Result<System, AllocError>
    requires fits { total widths.now < 2 ^ 64 }
    requires within { (g : Gauge) × IsSystemWithin g first.now × IsSystemWithin g second.now }
    requires first_apart { AllPairs (λ i j. i ≢ j) firsts.now }
    requires second_apart { AllPairs (λ i j. i ≢ j) seconds.now }
    requires first_columns { free_columns first.now ≡ picked_width widths.now firsts.now }
    requires second_columns { free_columns second.now ≡ picked_width widths.now seconds.now }
    ensures { (g : Gauge) → IsSystemWithin g first.now → IsSystemWithin g second.now
        → IfOk result (IsOverBlocks g widths.now ((first.now.definitions ≡ []) × (second.now.definitions ≡ []))
        (HoldBoth first.now firsts.now second.now seconds.now)) }
{
    let own = spread(alloc, first, widths, firsts)?;
    let other = spread(alloc, second, widths, seconds)?;
    meet(alloc, &own, &other)
}

/// The system over the blocks of a source, a sink, their access and their times that holds where the systems of both accesses do, and
/// those that give the times.
pub(crate) fn timed_accesses(
    alloc: Global,
    widths: &[usize],
    accesses: &Accesses<'_>,
    start: &Piece,
    stop: &Piece,
) -> Result<System, AllocError>
    requires fits { total widths.now < 2 ^ 64 }
    requires within { (g : Gauge) × IsSystemWithin g accesses.now.source.now.system × IsSystemWithin g accesses.now.sink.now.system
        × IsSystemWithin g start.now.system × IsSystemWithin g stop.now.system }
    requires source { free_columns accesses.now.source.now.system ≡ picked_width widths.now source_blocks }
    requires sink { free_columns accesses.now.sink.now.system ≡ picked_width widths.now sink_blocks }
    requires start { free_columns start.now.system ≡ picked_width widths.now start_blocks }
    requires stop { free_columns stop.now.system ≡ picked_width widths.now stop_blocks }
    ensures { (g : Gauge) → IsSystemWithin g accesses.now.source.now.system → IsSystemWithin g accesses.now.sink.now.system
        → IsSystemWithin g start.now.system → IsSystemWithin g stop.now.system
        → IfOk result (IsOverBlocks g widths.now
        (((accesses.now.source.now.system.definitions ≡ []) × (accesses.now.sink.now.system.definitions ≡ []))
        × ((start.now.system.definitions ≡ []) × (stop.now.system.definitions ≡ [])))
        (HoldFour accesses.now.source.now.system accesses.now.sink.now.system start.now.system stop.now.system)) }
{
    let source = accesses.source.system();
    let sink = accesses.sink.system();
    let own = both_spread(alloc, widths, source, &[0, 1, 3], sink, &[0, 2, 3])?;
    let times = both_spread(
        alloc,
        widths,
        start.system(),
        &[0, 1, 4],
        stop.system(),
        &[0, 2, 5],
    )?;
    meet(alloc, &own, &times)
}
