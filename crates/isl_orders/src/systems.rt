//! What is left of two systems at numbers that are so ordered.

ghost use Rattle.std.specs.Prelude.{◌≡◌, ◌+◌, ◌<◌, ◌^◌, IfOk};
ghost use Rattle.isl_meter.specs.Gauge.{IsMetered};
ghost use Rattle.isl_piece.specs.System.{IsSystemWithin, free_columns};
ghost use Rattle.isl_orders.specs.Ordered.{AreOfMaps, AreOfSets};

use crate::both::both_at;
use crate::cases::cases_of;
use crate::left::left_with_any;
use crate::order::Order;
use isl_meter::{Cut, Meter};
use isl_piece::System;
use std::alloc::Global;

/// How many columns the parameters have, the x of two maps, and what these are mapped to, which is compared.
#[derive(Clone, Copy)]
pub(crate) struct Columns {
    pub parameters: usize,
    pub first: usize,
    pub second: usize,
    pub compared: usize,
}

/// The systems over parameters, x and y of which some holds where the one system does at parameters and x, and the other one at
/// parameters and y, and x is so ordered to y.
///
/// # Errors
///
/// `Overflow` where a number passes the limit of the meter, `Budget` where its units are used up, and `NoMemory`.
pub(crate) fn of_sets(
    alloc: Global,
    columns: Columns,
    order: Order,
    own: &System,
    other: &System,
    meter: &mut Meter,
) -> Result<Vec<System>, Cut>
    requires own_within { IsSystemWithin meter.old own.now }
    requires other_within { IsSystemWithin meter.old other.now }
    requires own_columns { free_columns own.now ≡ columns.parameters + columns.compared }
    requires other_columns { free_columns other.now ≡ columns.parameters + columns.compared }
    requires fits { columns.parameters + (columns.compared + columns.compared) < 2 ^ 64 }
    ensures left { IfOk result (λ left. AreOfSets meter.old columns.parameters columns.compared order own.now other.now left.items) }
    ensures meter { IsMetered meter.old meter.new result }
{
    // For what a meter keeps: it has at least 8 bits.
    let _limit = meter.limit();
    let width = columns.compared;
    let widths = [columns.parameters, width, width];
    let both = both_at(alloc, &widths, own, &[0, 1], other, &[0, 2])?;
    let cases = cases_of(alloc, &widths, 1, 2, order)?;
    let kept = columns.parameters + (width + width);
    left_with_any(alloc, &both, cases.as_slice(), kept, 0, meter)
}

/// The systems over parameters, x and y of which some holds where some p and q, so ordered, make the one system hold at parameters, x
/// and p, and the other one at parameters, y and q.
///
/// # Errors
///
/// `Overflow` where a number passes the limit of the meter, `Budget` where its units are used up, and `NoMemory`.
pub(crate) fn of_maps(
    alloc: Global,
    columns: Columns,
    order: Order,
    own: &System,
    other: &System,
    meter: &mut Meter,
) -> Result<Vec<System>, Cut>
    requires own_within { IsSystemWithin meter.old own.now }
    requires other_within { IsSystemWithin meter.old other.now }
    requires own_columns { free_columns own.now ≡ columns.parameters + (columns.first + columns.compared) }
    requires other_columns { free_columns other.now ≡ columns.parameters + (columns.second + columns.compared) }
    requires fits { columns.parameters + (columns.first + columns.second) + (columns.compared + columns.compared) < 2 ^ 64 }
    ensures left { IfOk result (λ left. AreOfMaps meter.old columns order own.now other.now left.items) }
    ensures meter { IsMetered meter.old meter.new result }
{
    // For what a meter keeps: it has at least 8 bits.
    let _limit = meter.limit();
    let width = columns.compared;
    let widths = [
        columns.parameters,
        columns.first,
        columns.second,
        width,
        width,
    ];
    let both = both_at(alloc, &widths, own, &[0, 1, 3], other, &[0, 2, 4])?;
    let cases = cases_of(alloc, &widths, 3, 4, order)?;
    let kept = columns.parameters + (columns.first + columns.second);
    left_with_any(alloc, &both, cases.as_slice(), kept, width + width, meter)
}
