//! How far maps move elements.

ghost use Rattle.std.specs.Prelude.{◌≡◌, ◌↔◌, ◌+◌, ◌*◌, ◌<◌, ◌≤◌, ◌^◌, IfOk};
ghost use Rattle.isl_meter.specs.Gauge.{Gauge};
ghost use Rattle.isl_space.specs.Element.{Element};
ghost use Rattle.isl_space.specs.Valuation.{Valuation};
ghost use Rattle.isl_piece.specs.System.{IsSystemWithin, free_columns};
ghost use Rattle.isl_union.specs.Fault.{IsMeteredAnswer};
ghost use Rattle.isl_union.specs.KeptValue.{Has, IsKeptValue};
ghost use Rattle.isl_union.specs.Numbers.{IsWithinLimit};
ghost use Rattle.isl_relation.specs.Maps.{DeltasHas};
ghost use Rattle.isl_images.specs.Differences.{difference_row, difference_system, IsWithDifferences};

use crate::image::{Image, image_of};
use crate::shift::{Shift, shifted};
use isl_meter::{Int, Meter};
use isl_piece::{Coefs, Row, RowKind, Rows, System, meet};
use isl_union::{OpFault, Value};
use std::alloc::{AllocError, Global};

// The row over parameters and the numbers d, x and y, so many of each, that says of those at one place that d + x - y is 0.
fn difference_row(
    alloc: Global,
    parameters: usize,
    width: usize,
    place: usize,
) -> Result<Row, AllocError>
    requires fits { parameters + 3 * width < 2 ^ 64 }
    requires place { place < width }
    ensures { IfOk result (λ row. row ≡ difference_row parameters width place) }
{
    let mut coefs = Coefs::zeros(alloc, parameters + 3 * width)?;
    coefs.set(parameters + place, Int::ONE);
    coefs.set(parameters + width + place, Int::ONE);
    coefs.set(parameters + 2 * width + place, Int::new(-1));
    Ok(Row::new(RowKind::Zero, coefs, Int::ZERO, Int::ONE))
}

// The system over these that says so of those at each place.
fn difference_system(alloc: Global, parameters: usize, width: usize) -> Result<System, AllocError>
    requires { parameters + 3 * width < 2 ^ 64 }
    ensures { IfOk result (λ system. system ≡ difference_system parameters width) }
{
    let mut rows = Rows::with_capacity(alloc, width)?;
    for place in 0..width {
        rows.push(difference_row(alloc, parameters, width, place)?)?;
    }
    Ok(System::from_rows(alloc, parameters + 3 * width, rows))
}

/// The system over parameters, d, x and y that holds where the other holds at parameters, x and y, and d is y - x.
pub(crate) fn with_differences(
    alloc: Global,
    system: &System,
    parameters: usize,
    width: usize,
) -> Result<System, AllocError>
    requires columns { free_columns system.now ≡ parameters + (width + width) }
    requires fits { parameters + 3 * width < 2 ^ 64 }
    ensures { (g : Gauge) → 8 ≤ g.bits → IsSystemWithin g system.now → IfOk result (IsWithDifferences g system.now parameters width) }
{
    let shift = Shift {
        columns: parameters + 3 * width,
        stay: parameters,
        start: parameters + width,
    };
    let own = shifted(alloc, system, shift)?;
    let rows = difference_system(alloc, parameters, width)?;
    meet(alloc, &own, &rows)
}

/// The differences y - x of what a value of maps maps x to a y of the same shape, over the same parameters. Pieces that are sets,
/// and maps between two shapes, give none. (isl manual, relation operations)
///
/// # Errors
///
/// As every call under a meter; never `TooWide`.
pub fn deltas(alloc: Global, a: &Value, meter: &mut Meter) -> Result<Value, OpFault>
    requires { IsWithinLimit meter.old a.now }

    // The value, and what it has.
    ensures kept { IfOk result IsKeptValue }
    ensures params { IfOk result (λ value. value.params ≡ a.now.params) }
    ensures elements { (valuation : Valuation) (element : Element)
        → IfOk result (λ value. Has value valuation element ↔ DeltasHas (Has a.now valuation) element) }

    // How it is written, and what that cost.
    ensures numbers { IfOk result (IsWithinLimit meter.old) }
    ensures meter { IsMeteredAnswer meter.old meter.new result }
{
    image_of(alloc, Image::Deltas, a, meter)
}
