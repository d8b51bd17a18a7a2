//! Rows that are asked in front of a tree.

ghost use Rattle.std.specs.Prelude.{◌≡◌, ◌↔◌, ◌++◌, ℕ, pos, All, IfOk, IsTrue};
ghost use Rattle.isl_meter.specs.Gauge.{Gauge};
ghost use Rattle.isl_piece.specs.Row.{coef_at};
ghost use Rattle.isl_loop.specs.Formed.{IsLoopOver, IsRowOver};
ghost use Rattle.isl_loop.specs.Printable.{IsPrintable};
ghost use Rattle.isl_nest.specs.Changing.{asked_first, AsksWhatChanges};
ghost use Rattle.isl_nest.specs.Naming.{cut};
ghost use Rattle.isl_nest.specs.Opened.{AreParted, IsOpened, RunsUnder};

use crate::naming::cut;
use isl_loop::Loop;
use isl_piece::{Row, Rows};
use sqlite_items::Boxed;
use std::alloc::{AllocError, Global};

/// Rows, and a tree that runs where they hold.
#[derive(Drop)]
pub(crate) struct Opened {
    pub rows: Rows,
    pub tree: Loop,
}

/// Rows in which a column has no part, without it, and the others.
#[derive(Drop)]
pub(crate) struct Parted {
    pub outside: Rows,
    pub inside: Rows,
}

impl Opened {
    // The tree, taken apart into the rows that it asks first and what runs where they hold.
    pub(crate) fn of(alloc: Global, tree: Loop) -> Opened
        ensures { IsOpened tree result.rows result.tree }
    {
        match tree {
            Loop::If(rows, body) => Opened {
                rows,
                tree: body.into_inner(),
            },
            bare => Opened {
                rows: Rows::new(alloc),
                tree: bare,
            },
        }
    }
}

// The tree where the rows hold, and those that it asks first, which are asked with them.
pub(crate) fn under(alloc: Global, rows: Rows, tree: Loop) -> Result<Loop, AllocError>
    ensures runs { IfOk result (RunsUnder rows tree) }
    ensures over { (g : Gauge) (n : ℕ) → All (IsRowOver g n) rows → IsLoopOver g n tree → IfOk result (IsLoopOver g n) }
    ensures first { IfOk result (λ made. asked_first made ≡ rows ++ asked_first tree) }
    ensures changing { (n : ℕ) → AsksWhatChanges n tree → IfOk result (AsksWhatChanges n) }
    ensures printable { (n : ℕ) → IsPrintable n tree → IfOk result (IsPrintable n) }
{
    if rows.is_empty() {
        return Ok(tree);
    }
    let Opened { rows: more, tree } = Opened::of(alloc, tree);
    let mut all = rows;
    all.append(alloc, &more)?;
    Ok(Loop::If(all, Boxed::new(alloc, tree)?))
}

// Whether the column behind so many has no part in the row.
fn is_fixed(row: &Row, variables: usize) -> bool
    ensures { IsTrue result ↔ (coef_at row.now variables ≡ pos 0) }
{
    row.coefs.len() <= variables || row.coefs.get(variables).is_zero()
}

// The row over its first columns.
fn narrowed(alloc: Global, row: &Row, columns: usize) -> Result<Row, AllocError>
    ensures { IfOk result (λ made. made ≡ cut columns row.now) }
{
    if row.coefs.len() <= columns {
        return row.copy(alloc);
    }
    cut(alloc, row, columns)
}

impl Parted {
    // The rows, taken apart by whether the column behind so many has a part in them.
    pub(crate) fn of(alloc: Global, rows: &Rows, variables: usize) -> Result<Parted, AllocError>
        ensures { IfOk result (λ parted. AreParted variables rows.now parted.outside parted.inside) }
    {
        let mut outside = Rows::new(alloc);
        let mut inside = Rows::new(alloc);
        for row in rows.as_slice() {
            if is_fixed(row, variables) {
                outside.push(narrowed(alloc, row, variables)?)?;
            } else {
                inside.push(row.copy(alloc)?)?;
            }
        }
        Ok(Parted { outside, inside })
    }
}
