//! Rows by the last column that they name.

ghost use Rattle.std.specs.Prelude.{◌≡◌, ◌≤◌, All, IfOk, length};
ghost use Rattle.isl_meter.specs.Gauge.{Gauge};
ghost use Rattle.isl_piece.specs.Row.{IsRowWithin, IsWellFormed};
ghost use Rattle.isl_frame.specs.Needed.{AreRowsOver};
ghost use Rattle.isl_nest.specs.Item.{named};
ghost use Rattle.isl_nest.specs.Naming.{cut, AreNaming};

use isl_piece::{Coefs, Row, Rows};
use std::alloc::{AllocError, Global};

// How many columns there are up to the last that is named.
pub(crate) fn named(coefs: &Coefs) -> usize
    ensures { result ≡ named coefs.now }
{
    let mut count = 0;
    for i in 0..coefs.len() {
        if coefs.get(i).is_zero() {
            continue;
        }
        count = i + 1;
    }
    count
}

// The row over its first columns.
pub(crate) fn cut(alloc: Global, row: &Row, columns: usize) -> Result<Row, AllocError>
    requires { columns ≤ length row.now.coefs }
    ensures { IfOk result (λ made. made ≡ cut columns row.now) }
{
    let coefs = Coefs::from_slice(alloc, &row.coefs.as_slice()[..columns])?;
    Ok(Row::new(row.kind, coefs, row.constant(), row.modulus()))
}

/// The rows whose last named column is from `least` to `columns`, counted from 1, over so many columns.
///
/// # Errors
///
/// Where memory ends.
pub fn naming(alloc: Global, rows: &Rows, least: usize, columns: usize) -> Result<Rows, AllocError>
    requires { All (λ r. columns ≤ length r.coefs) rows.now }
    ensures { IfOk result (AreNaming least columns rows.now) }
{
    let mut own = Rows::new(alloc);
    for row in rows.as_slice() {
        let last = named(&row.coefs);
        if last < least || columns < last {
            continue;
        }
        own.push(cut(alloc, row, columns)?)?;
    }
    Ok(own)
}
