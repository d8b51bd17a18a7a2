//! The systems of a space, with negatives behind the front.

ghost use Rattle.std.specs.Prelude.{◌≡◌, ◌+◌, ◌<◌, ◌^◌, [], IfOk};
ghost use Rattle.isl_pip.specs.Behind.{chosen_width, ArePutBehind, IsPutBehind};
ghost use Rattle.isl_pip.specs.Levels.{ArePlainOver};
ghost use Rattle.isl_piece.specs.System.{IsSystemWithin};

use crate::mirror::{mirrored, with_zero};
use isl_meter::Meter;
use isl_piece::System;
use std::alloc::{AllocError, Global};

/// How many columns are chosen behind the front: those that stand there; where there is none, one that is 0.
pub(crate) fn chosen_of(width: usize) -> usize
    ensures { result ≡ chosen_width width }
{
    if width == 0 {
        return 1;
    }
    width
}

// The system with negatives behind the front; or with one column more, that is 0.
fn put_one(
    alloc: Global,
    system: &System,
    front: usize,
    width: usize,
    meter: &Meter,
) -> Result<System, AllocError>
    requires within { IsSystemWithin meter.now system.now }
    requires plain { system.now.definitions ≡ [] }
    requires fits { system.now.columns + 1 < 2 ^ 64 }
    ensures { IfOk result (IsPutBehind meter.now front width system.now) }
{
    if width == 0 {
        return with_zero(alloc, system, meter);
    }
    mirrored(alloc, system, front, meter)
}

/// The systems, with negatives behind the front; where nothing is behind it, with one column more, that is 0.
///
/// # Errors
///
/// Where memory ends.
pub(crate) fn put_behind(
    alloc: Global,
    systems: &[System],
    front: usize,
    width: usize,
    meter: &Meter,
) -> Result<Vec<System>, AllocError>
    requires systems { ArePlainOver meter.now (front + width) systems.now }
    requires fits { front + width + 1 < 2 ^ 64 }
    ensures { IfOk result (λ made. ArePutBehind meter.now front width systems.now made.items) }
{
    let mut made = Vec::new(alloc);
    for system in systems {
        made.push(put_one(alloc, system, front, width, meter)?)?;
    }
    Ok(made)
}
