//! Covers, as items have them.

ghost use Rattle.std.specs.Prelude.{◌≡◌, IfOk, map};
ghost use Rattle.isl_calls.specs.CoverRows.{covers_of, rows_of};

use crate::Covers;
use isl_nest::Cover;
use isl_piece::System;
use std::alloc::{AllocError, Global};

// The rows of the systems.
fn cover_of(alloc: Global, systems: &[System]) -> Result<Cover, AllocError>
    ensures { IfOk result (λ cover. cover ≡ map rows_of systems.now) }
{
    let mut cover = Cover::new(alloc);
    for system in systems {
        cover.push(system.rows.copy(alloc)?)?;
    }
    Ok(cover)
}

/// The rows of the systems at each level, the lowest first.
///
/// # Errors
///
/// Where memory ends.
pub(crate) fn covers_of(alloc: Global, covers: &Covers) -> Result<Vec<Cover>, AllocError>
    ensures { IfOk result (λ made. made.items ≡ covers_of covers.now) }
{
    let mut made = Vec::with_capacity(alloc, covers.levels())?;
    for height in 0..covers.levels() {
        made.push(cover_of(alloc, covers.level(height))?)?;
    }
    Ok(made)
}
