//! Lists of columns.

ghost use Rattle.std.specs.Prelude.{◌≡◌, ◌-◌, IfOk};
ghost use Rattle.std.specs.List.{range_with_len};

use std::alloc::{AllocError, Global};

/// The columns from `first` on, before `end`.
///
/// # Errors
///
/// Where memory ends.
pub fn columns_between(alloc: Global, first: usize, end: usize) -> Result<Vec<usize>, AllocError>
    ensures { IfOk result (λ cols. cols.items ≡ range_with_len first (end - first)) }
{
    (first..end).collect(alloc)
}
