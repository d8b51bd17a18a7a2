//! Systems whose last columns stand for negatives: what is least in the one is greatest in the other.

ghost use Rattle.std.specs.Prelude.{◌≡◌, ◌+◌, ◌<◌, ◌^◌, [], if◌then◌else◌, neg_ℤ, IfOk};
ghost use Rattle.isl_meter.specs.Gauge.{IsWithin};
ghost use Rattle.isl_piece.specs.Row.{IsRowWithin};
ghost use Rattle.isl_piece.specs.System.{IsSystemWithin};
ghost use Rattle.isl_pip_law.specs.Mirror.{mirrored_row, IsMirror, IsOneMore};

use isl_blocks::spread;
use isl_meter::{Int, Meter};
use isl_piece::{Coefs, Row, RowKind, Rows, System};
use std::alloc::{AllocError, Global};

/// The number, or its negative.
pub(crate) fn signed(number: Int, is_negative: bool, meter: &Meter) -> Int
    requires { IsWithin meter.now number }
    ensures value { result ≡ (if is_negative then neg_ℤ number else number) }
    ensures within { IsWithin meter.now result }
{
    if is_negative {
        number.neg(meter)
    } else {
        number
    }
}

// The row, with negatives from a column on.
fn mirrored_row(alloc: Global, row: &Row, front: usize, meter: &Meter) -> Result<Row, AllocError>
    requires { IsRowWithin meter.now row.now }
    ensures exact { IfOk result (λ mirrored. mirrored ≡ mirrored_row front row.now) }
    ensures within { IfOk result (IsRowWithin meter.now) }
{
    let numbers = row.coefs.as_slice();
    let mut coefs = Coefs::new(alloc);
    for column in 0..numbers.len() {
        let is_behind = column >= front;
        let number = signed(numbers[column], is_behind, meter);
        coefs.push(number)?;
    }
    Ok(Row::new(row.kind, coefs, row.constant(), row.modulus()))
}

/// The system that holds where the other one does with the negatives of the numbers behind the front.
///
/// # Errors
///
/// Where memory ends.
pub(crate) fn mirrored(
    alloc: Global,
    system: &System,
    front: usize,
    meter: &Meter,
) -> Result<System, AllocError>
    requires within { IsSystemWithin meter.now system.now }
    requires plain { system.now.definitions ≡ [] }
    ensures { IfOk result (IsMirror meter.now front system.now) }
{
    let own = system.rows.as_slice();
    let mut rows = Rows::new(alloc);
    for row in own {
        rows.push(mirrored_row(alloc, row, front, meter)?)?;
    }
    Ok(System::from_rows(alloc, system.columns, rows))
}

/// The system with one column more, whose number is 0.
///
/// # Errors
///
/// Where memory ends.
pub(crate) fn with_zero(alloc: Global, system: &System, meter: &Meter) -> Result<System, AllocError>
    requires within { IsSystemWithin meter.now system.now }
    requires plain { system.now.definitions ≡ [] }
    requires fits { system.now.columns + 1 < 2 ^ 64 }
    ensures { IfOk result (IsOneMore meter.now system.now) }
{
    // For what a meter keeps: it has at least 8 bits.
    let _limit = meter.limit();
    let columns = system.columns;
    let mut made = spread(alloc, system, &[columns, 1], &[0])?;
    let mut last = Coefs::zeros(alloc, columns)?;
    last.push(Int::ONE)?;
    made.rows
        .push(Row::new(RowKind::Zero, last, Int::ZERO, Int::ONE))?;
    Ok(made)
}
