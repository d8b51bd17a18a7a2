//! Rows in their normal form, which stand even where they are constant.

ghost use Rattle.std.specs.Prelude.{◌≡◌, ◌++◌, ◌∷◌, [], ◌-◌, ◌≤◌, length, replicate, pos, All, IfOk};
ghost use Rattle.isl_meter.specs.Gauge.{IsWithin};
ghost use Rattle.isl_piece.specs.Row.{HasModulus, IsRowWithin};
ghost use Rattle.isl_refute.specs.Refutes.{always_row, never_row, padded, standing_row};

use isl_meter::{Int, Meter};
use isl_piece::{Coefs, Outcome, Row, RowKind, settle};
use std::alloc::{AllocError, Global};

// The row with 0 for each of so many columns.
fn constant_row(
    alloc: Global,
    kind: RowKind,
    columns: usize,
    constant: i128,
    k: i128,
) -> Result<Row, AllocError>
    ensures { IfOk result (λ row. row ≡ record { kind = kind; coefs = replicate columns (pos 0); constant = constant; k = k }) }
{
    let coefs = Coefs::zeros(alloc, columns)?;
    Ok(Row::new(kind, coefs, Int::new(constant), Int::new(k)))
}

// The row of this kind that always holds.
fn always_row(alloc: Global, row: &Row, constant: Int) -> Result<Row, AllocError>
    ensures { IfOk result (λ made. made ≡ always_row row.now.kind row.now.coefs constant) }
{
    let columns = row.coefs.len();
    match row.kind {
        RowKind::Zero => constant_row(alloc, RowKind::Zero, columns, 0, 1),
        RowKind::AtLeast => constant_row(alloc, RowKind::AtLeast, columns, constant.get(), 1),
        RowKind::Divides => constant_row(alloc, RowKind::Divides, columns, 0, 1),
        RowKind::NotDivides => constant_row(alloc, RowKind::NotDivides, columns, 1, 2),
    }
}

// The row of this kind that never holds.
fn never_row(alloc: Global, row: &Row, constant: Int) -> Result<Row, AllocError>
    ensures { IfOk result (λ made. made ≡ never_row row.now.kind row.now.coefs constant) }
{
    let columns = row.coefs.len();
    match row.kind {
        RowKind::Zero => constant_row(alloc, RowKind::Zero, columns, 1, 1),
        RowKind::AtLeast => constant_row(alloc, RowKind::AtLeast, columns, constant.get(), 1),
        RowKind::Divides => constant_row(alloc, RowKind::Divides, columns, 1, 2),
        RowKind::NotDivides => constant_row(alloc, RowKind::NotDivides, columns, 0, 1),
    }
}

/// The normal form of the row.
pub(crate) fn standing_row(alloc: Global, row: &Row, meter: &Meter) -> Result<Row, AllocError>
    requires modulus { HasModulus row.now.kind row.now.k }
    requires within { IsRowWithin meter.now row.now }
    ensures value { IfOk result (λ made. made ≡ standing_row row.now) }
    ensures bits { 8 ≤ meter.now.bits }
{
    let _limit = meter.limit();
    let mut made = row.copy(alloc)?;
    match settle(&mut made, meter) {
        Outcome::Stays => Ok(made),
        Outcome::Holds => always_row(alloc, row, row.constant()),
        Outcome::Fails => never_row(alloc, row, row.constant()),
    }
}

/// The row with 0 at each column that was added.
pub(crate) fn padded(alloc: Global, columns: usize, row: &Row) -> Result<Row, AllocError>
    ensures { IfOk result (λ made. made ≡ padded columns row.now) }
{
    let mut coefs = row.coefs.copy(alloc)?;
    let missing = columns.saturating_sub(coefs.len());
    for turn in 0..missing {
        let _turn = turn;
        coefs.push(Int::ZERO)?;
    }
    Ok(Row::new(row.kind, coefs, row.constant(), row.modulus()))
}
