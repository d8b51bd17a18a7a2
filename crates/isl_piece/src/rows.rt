//! Lists of rows.

ghost use Rattle.std.specs.Prelude.{All, Any, IfSome, IsNone, MatchOption, MatchResult, map, ◌≡◌, ◌↔◌, ◌<◌, [], ◌∷◌, ◌++◌, length, IsTrue, IfOk, IfErr, OnOk, slice_index_or, slice_set};
ghost use Rattle.std.specs.List.{remove};
ghost use Rattle.isl_meter.specs.Gauge.{overflown};

use crate::Row;
use crate::normal::normalise_rows;
use isl_meter::{Meter, Overflow};
use std::alloc::{AllocError, AllocFailed, Global};
use std::marker::Model;

/// Rows, in order.
#[derive(Drop)]
pub struct Rows {
    items: Vec<Row>,
}

impl Model for Rows {
    ghost use Rattle.std.specs.Prelude.{List};
    ghost use Rattle.isl_piece.specs.declared.row.Row.{Row};

    ghost Value = { List Row };

    ghost view = { λ r. r.items.items };
}

impl From<Vec<Row>> for Rows {
    ghost use Rattle.std.specs.Prelude.{◌≡◌};

    ghost from_gives = { λ items rows. rows ≡ items.items };

    fn from(items: Vec<Row>) -> Rows {
        Rows { items }
    }
}

impl From<Rows> for Vec<Row> {
    ghost use Rattle.std.specs.Prelude.{◌≡◌};

    ghost from_gives = { λ rows items. items.items ≡ rows };

    fn from(rows: Rows) -> Vec<Row> {
        rows.items
    }
}

impl Rows {
    ghost use Rattle.isl_piece.specs.declared.row.Row.{Row};

    pub fn new(alloc: Global) -> Self
        ensures { result ≡ [] }
    {
        Rows {
            items: Vec::new(alloc),
        }
    }

    /// No rows, with room for `count`.
    pub fn with_capacity(alloc: Global, count: usize) -> Result<Self, AllocError>
        ensures { IfOk result (λ rows. rows ≡ []) }
    {
        Ok(Rows {
            items: Vec::with_capacity(alloc, count)?,
        })
    }

    // Where the rows lie.
    pub(crate) fn allocator(&self) -> Global {
        *self.items.allocator()
    }

    pub fn len(&self) -> usize
        ensures { result ≡ length self.now }
    {
        self.items.len()
    }

    pub fn is_empty(&self) -> bool
        ensures { IsTrue result ↔ (self.now ≡ []) }
    {
        self.items.is_empty()
    }

    pub fn as_slice(&self) -> &[Row]
        ensures { result.now ≡ self.now }
    {
        self.items.as_slice()
    }

    pub fn push(&mut self, row: Row) -> Result<(), AllocFailed<Row>>
        ensures ok { OnOk result (self.new ≡ self.old ++ row ∷ []) }
        ensures err { IfErr result (λ failed. (self.new ≡ self.old) × (failed.value ≡ row)) }
    {
        self.items.push(row)
    }

    /// Puts the row in the place of the one at `at`.
    pub fn replace(&mut self, at: usize, row: Row)
        requires { at < length self.old }
        ensures { self.new ≡ slice_set self.old at row }
    {
        self.items[at] = row;
    }

    /// Takes the row at `at` out.
    pub fn remove(&mut self, at: usize) -> Row
        requires { at < length self.old }
        ensures row { (d : Row) → result ≡ slice_index_or self.old at d }
        ensures rest { self.new ≡ remove self.old at }
    {
        self.items.remove(at)
    }

    /// Puts copies of the other rows behind these. Where memory ends, some of them may stand there.
    pub fn append(&mut self, alloc: Global, other: &Rows) -> Result<(), AllocError>
        ensures { OnOk result (self.new ≡ self.old ++ other.now) }
    {
        for row in other.as_slice() {
            self.push(row.copy(alloc)?)?;
        }
        Ok(())
    }

    pub fn copy(&self, alloc: Global) -> Result<Self, AllocError>
        ensures { IfOk result (λ rows. rows ≡ self.now) }
    {
        let mut rows = Rows::with_capacity(alloc, self.len())?;
        rows.append(alloc, self)?;
        Ok(rows)
    }
}

impl Rows {
    ghost use Rattle.isl_piece.specs.Row.{HoldsRow, IsWellFormed, IsRowWithin, FormPassesLimit};
    ghost use Rattle.isl_piece.specs.System.{HoldRows, widened};

    // The rows, with 0 at one more column.
    pub(crate) fn widened(&self, alloc: Global) -> Result<Self, AllocError>
        ensures { IfOk result (λ rows. rows ≡ map widened self.now) }
    {
        let mut rows = Rows::with_capacity(alloc, self.len())?;
        for row in self.as_slice() {
            let coefs = row.coefs.widened(alloc)?;
            rows.push(Row::new(row.kind, coefs, row.constant(), row.modulus()))?;
        }
        Ok(rows)
    }

    /// Whether each row holds at the point. Takes no memory and uses no unit.
    ///
    /// # Errors
    ///
    /// `Overflow` where the form of a row passes the limit at the point.
    pub fn hold_at(&self, point: &[i128], meter: &mut Meter) -> Result<bool, Overflow>
        requires rows { All (IsWellFormed (length point.now)) self.now }
        requires within { All (IsRowWithin meter.old) self.now }
        ensures { MatchResult result
            (λ holds. (IsTrue holds ↔ HoldRows self.now point.now) × (meter.new ≡ meter.old))
            (λ _. Any (λ r. FormPassesLimit meter.old r.coefs r.constant point.now) self.now × (meter.new ≡ overflown meter.old)) }
    {
        for row in self.as_slice() {
            if !row.holds_at(point, meter)? {
                return Ok(false);
            }
        }
        Ok(true)
    }
}

impl Rows {
    ghost use Rattle.std.specs.Prelude.{ℕ, ℤ, List};
    ghost use Rattle.isl_piece.specs.Row.{HasModulus, HoldsRow, IsRowUpTo, IsRowWithin, IsWellFormed};
    ghost use Rattle.isl_piece.specs.Normal.{normal_rows, IsNormal};
    ghost use Rattle.isl_piece.specs.System.{HoldRows};

    /// The normal rows: each row divided as far as it goes, rows that hold everywhere left out, and each bound once, with the
    /// least constant, in the place of the first. `None` where one of the rows holds nowhere. The rows are made normal where
    /// they lie; an index finds equal bounds among many rows, and few rows take no memory.
    ///
    /// # Errors
    ///
    /// `AllocError` where memory ends.
    pub fn normalise(self, alloc: Global, meter: &Meter) -> Result<Option<Rows>, AllocError>
        requires moduli { All (λ r. HasModulus r.kind r.k) self }
        requires within { All (IsRowWithin meter.now) self }
        ensures exact { IfOk result (λ normal. normal ≡ normal_rows self) }
        ensures none { IfOk result (λ normal. IsNone normal ↔ Any (λ r. (point : List ℤ) → ¬ HoldsRow r point) self) }
        ensures points { IfOk result (λ normal. (point : List ℤ) → MatchOption normal
            (¬ HoldRows self point) (λ kept. HoldRows kept point ↔ HoldRows self point)) }
        ensures normal { IfOk result (λ normal. IfSome normal IsNormal) }
        ensures shape { (columns : ℕ) → All (IsWellFormed columns) self
            → IfOk result (λ normal. IfSome normal (All (IsWellFormed columns))) }
        ensures within { IfOk result (λ normal. IfSome normal (All (IsRowWithin meter.now))) }
        ensures magnitudes { (b : ℕ) → All (IsRowUpTo b) self → IfOk result (λ normal. IfSome normal (All (IsRowUpTo b))) }
    {
        self.normal(alloc, meter)
    }

    // The normal rows.
    fn normal(mut self, alloc: Global, meter: &Meter) -> Result<Option<Rows>, AllocError>
        requires moduli { All (λ r. HasModulus r.kind r.k) self }
        requires within { All (IsRowWithin meter.now) self }
        ensures { IfOk result (λ normal. normal ≡ normal_rows self) }
    {
        match normalise_rows(alloc, self.items.as_mut_slice(), meter)? {
            Some(kept) => {
                self.items.truncate(kept);
                Ok(Some(self))
            }
            None => Ok(None),
        }
    }
}
