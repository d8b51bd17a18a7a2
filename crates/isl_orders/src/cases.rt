//! The cases of an order of two blocks of columns.

ghost use Rattle.std.specs.Prelude.{◌≡◌, ◌≢◌, ◌<◌, ◌^◌, IfOk, length};
ghost use Rattle.isl_blocks.specs.Blocks.{total, width_at};
ghost use Rattle.isl_orders.specs.Cases.{AreCasesOf};
ghost use Rattle.isl_orders.specs.Comparison.{AreOrdered, IsApart};

use crate::order::Order;
use isl_blocks::{Direction, order_case, same_case};
use isl_piece::System;
use std::alloc::{AllocError, Global};

// A case for each place at which the blocks may first differ.
fn places_apart(
    alloc: Global,
    widths: &[usize],
    first: usize,
    second: usize,
    direction: Direction,
) -> Result<Vec<System>, AllocError>
    requires fits { total widths.now < 2 ^ 64 }
    requires first { first < length widths.now }
    requires differ { first ≢ second }
    requires same { width_at widths.now first ≡ width_at widths.now second }
    ensures { IfOk result (λ cases. AreCasesOf widths.now first second (IsApart direction) cases.items) }
{
    let mut cases = Vec::new(alloc);
    for at in 0..widths[first] {
        cases.push(order_case(alloc, widths, first, second, at, direction)?)?;
    }
    Ok(cases)
}

/// The cases in which the numbers of the one block are so ordered to those of the other: one for each place at which they may first
/// differ, and one for the same numbers.
///
/// # Errors
///
/// Where memory ends.
pub(crate) fn cases_of(
    alloc: Global,
    widths: &[usize],
    first: usize,
    second: usize,
    order: Order,
) -> Result<Vec<System>, AllocError>
    requires fits { total widths.now < 2 ^ 64 }
    requires first { first < length widths.now }
    requires second { second < length widths.now }
    requires differ { first ≢ second }
    requires same { width_at widths.now first ≡ width_at widths.now second }
    ensures { IfOk result (λ cases. AreCasesOf widths.now first second (AreOrdered order) cases.items) }
{
    let mut cases = places_apart(alloc, widths, first, second, order.direction())?;
    if order.has_same() {
        cases.push(same_case(alloc, widths, first, second)?)?;
    }
    Ok(cases)
}
