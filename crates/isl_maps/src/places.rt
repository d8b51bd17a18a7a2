//! Where the columns of a piece stand when they are moved.

ghost use Rattle.std.specs.Prelude.{◌≡◌, ◌+◌, ◌<◌, ◌^◌, IfOk};
ghost use Rattle.std.specs.List.{range_with_len};
ghost use Rattle.isl_maps.specs.Places.{exchanged_places};

use isl_elim::columns_between;
use std::alloc::{AllocError, Global};

// So many columns, each at its own place.
pub(crate) fn own_places(alloc: Global, count: usize) -> Result<Vec<usize>, AllocError>
    ensures { IfOk result (λ places. places.items ≡ range_with_len 0 count) }
{
    columns_between(alloc, 0, count)
}

// So many columns at their own places, and behind them two runs of columns, exchanged.
pub(crate) fn exchanged_places(
    alloc: Global,
    before: usize,
    first: usize,
    second: usize,
) -> Result<Vec<usize>, AllocError>
    requires { before + first + second < 2 ^ 64 }
    ensures { IfOk result (λ places. places.items ≡ exchanged_places before first second) }
{
    let middle = before + second;
    let mut places = own_places(alloc, before)?;
    let mut exchanged = columns_between(alloc, middle, middle + first)?;
    let mut behind = columns_between(alloc, before, middle)?;
    exchanged.append(&mut behind)?;
    places.append(&mut exchanged)?;
    Ok(places)
}
