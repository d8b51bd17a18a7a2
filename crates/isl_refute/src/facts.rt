//! Rows, to which steps add.

ghost use Rattle.std.specs.Prelude.{◌≡◌, ◌+◌, ◌++◌, ◌∷◌, [], length, map, pos, All, IfOk, OnOk, List};
ghost use Rattle.isl_piece.specs.declared.row.Row.{Row};
ghost use Rattle.isl_piece.specs.System.{widened};
ghost use Rattle.isl_refute.specs.Checked.{IsFact};
ghost use Rattle.isl_refute.specs.Refutes.{and_row};

use crate::forms::standing_row;
use isl_meter::{Int, Meter};
use isl_piece::{Row, Rows};
use std::alloc::{AllocError, Global};

/// Rows over so many columns.
#[derive(Drop)]
pub(crate) struct Facts {
    pub columns: usize,
    pub rows: Rows,
}

// The row with 0 at one more column.
fn widened(alloc: Global, row: &Row) -> Result<Row, AllocError>
    ensures { IfOk result (λ made. made ≡ widened row.now) }
{
    let mut coefs = row.coefs.copy(alloc)?;
    coefs.push(Int::ZERO)?;
    Ok(Row::new(row.kind, coefs, row.constant(), row.modulus()))
}

impl Facts {
    /// Puts the normal form of a row behind the others.
    pub(crate) fn push(&mut self, alloc: Global, row: &Row, meter: &Meter) -> Result<(), AllocError>
        requires facts { All (IsFact meter.now self.old.columns) self.old.rows }
        requires fact { IsFact meter.now self.old.columns row.now }
        ensures rows { OnOk result (self.new ≡ record self.old { rows = and_row self.old.rows row.now }) }
        ensures facts { OnOk result (All (IsFact meter.now self.new.columns) self.new.rows) }
    {
        let made = standing_row(alloc, row, meter)?;
        self.rows.push(made)?;
        Ok(())
    }

    /// Takes the last row away.
    pub(crate) fn pop(&mut self)
        requires { (rows : List Row) × (r : Row) × (self.old.rows ≡ rows ++ r ∷ []) }
        ensures { (rows : List Row) (r : Row) → self.old.rows ≡ rows ++ r ∷ [] → self.new ≡ record self.old { rows = rows } }
    {
        let last = self.rows.len() - 1;
        let _row = self.rows.remove(last);
    }

    /// The rows with 0 at one more column.
    pub(crate) fn widened(&self, alloc: Global, columns: usize) -> Result<Facts, AllocError>
        ensures { IfOk result (λ made. made ≡ record { columns = columns; rows = map widened self.now.rows }) }
    {
        let mut rows = Rows::new(alloc);
        for row in self.rows.as_slice() {
            rows.push(widened(alloc, row)?)?;
        }
        Ok(Facts { columns, rows })
    }
}
