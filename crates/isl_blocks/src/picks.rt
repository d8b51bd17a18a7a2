//! Systems over more blocks of columns.

ghost use Rattle.std.specs.Prelude.{◌≡◌, ◌≢◌, ◌<◌, ◌^◌, AllPairs, IfOk, length, take};
ghost use Rattle.isl_meter.specs.Gauge.{Gauge};
ghost use Rattle.isl_piece.specs.System.{IsSystemWithin, free_columns};
ghost use Rattle.isl_blocks.specs.Blocks.{block_places, picked_width, places_of, total, IsSpread};

use isl_elim::columns_between;
use isl_piece::System;
use std::alloc::{AllocError, Global};

/// How many columns blocks of these widths have.
pub(crate) fn total_of(widths: &[usize]) -> usize
    requires { total widths.now < 2 ^ 64 }
    ensures { result ≡ total widths.now }
{
    let mut sum = 0;
    for &width in widths {
        sum += width;
    }
    sum
}

/// Where the columns of a block begin.
pub(crate) fn start_of(widths: &[usize], block: usize) -> usize
    requires inside { block < length widths.now }
    requires fits { total widths.now < 2 ^ 64 }
    ensures { result ≡ total (take block widths.now) }
{
    total_of(&widths[..block])
}

// The places of the columns of a block; none behind the last.
fn block_places(alloc: Global, widths: &[usize], block: usize) -> Result<Vec<usize>, AllocError>
    requires { total widths.now < 2 ^ 64 }
    ensures { IfOk result (λ places. places.items ≡ block_places 0 widths.now block) }
{
    if block >= widths.len() {
        return Ok(Vec::new(alloc));
    }
    let start = start_of(widths, block);
    columns_between(alloc, start, start + widths[block])
}

// Those of the picked blocks, one after the other.
fn places_of(alloc: Global, widths: &[usize], picks: &[usize]) -> Result<Vec<usize>, AllocError>
    requires { total widths.now < 2 ^ 64 }
    ensures { IfOk result (λ places. places.items ≡ places_of widths.now picks.now) }
{
    let mut places = Vec::new(alloc);
    for &pick in picks {
        let mut more = block_places(alloc, widths, pick)?;
        places.append(&mut more)?;
    }
    Ok(places)
}

/// The system over blocks of columns of these widths that holds where the other one does at the picked blocks, one after the other.
///
/// # Errors
///
/// Where memory ends.
pub fn spread(
    alloc: Global,
    system: &System,
    widths: &[usize],
    picks: &[usize],
) -> Result<System, AllocError>
    requires fits { total widths.now < 2 ^ 64 }
    requires apart { AllPairs (λ i j. i ≢ j) picks.now }
    requires columns { free_columns system.now ≡ picked_width widths.now picks.now }
    ensures { (g : Gauge) → IsSystemWithin g system.now → IfOk result (IsSpread g widths.now picks.now system.now) }
{
    let places = places_of(alloc, widths, picks)?;
    system.placed(alloc, total_of(widths), places.as_slice())
}
