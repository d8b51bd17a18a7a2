//! Steps on the rows at given places.

ghost use Rattle.std.specs.Prelude.{◌≡◌, ◌+◌, All, IfErr, IfOk, IfSome, MatchOption, MatchResult, option_map, slice_get};
ghost use Rattle.isl_piece.specs.declared.row.Row.{Row};
ghost use Rattle.isl_piece.specs.Cut.{IsCutFor};
ghost use Rattle.isl_refute.specs.Checked.{IsFact};
ghost use Rattle.isl_refute.specs.Passes.{RowPasses, SumAtPasses};
ghost use Rattle.isl_refute.specs.Refutes.{fresh_row, is_false, mod_row, sum_row, tie_row, weaken_row, where_some, with_both, with_one};

use crate::facts::Facts;
use crate::steps::{fresh_row, is_false, mod_row, sum_row, tie_row, weaken_row};
use isl_meter::{Cut, Meter};
use isl_piece::Row;
use std::alloc::{AllocError, Global};

impl Facts {
    // The row there.
    fn row_at(&self, i: usize) -> Option<&Row>
        ensures { option_map (λ row. row.now) result ≡ slice_get self.now.rows i }
    {
        self.rows.as_slice().get(i)
    }

    /// Whether the row there is constant and false.
    pub(crate) fn false_at(&self, i: usize, meter: &Meter) -> bool
        requires { All (IsFact meter.now self.now.columns) self.now.rows }
        ensures { result ≡ where_some (slice_get self.now.rows i) (λ r. is_false r) }
    {
        match self.rows.as_slice().get(i) {
            Some(row) => is_false(row, meter),
            None => false,
        }
    }

    /// `a` times one row plus `b` times another one.
    pub(crate) fn sum_at(
        &self,
        alloc: Global,
        i: usize,
        a: i128,
        j: usize,
        b: i128,
        meter: &mut Meter,
    ) -> Result<Option<Row>, Cut>
        requires { All (IsFact meter.old self.now.columns) self.now.rows }
        ensures value { IfOk result (λ made. made ≡ with_both (slice_get self.now.rows i) (slice_get self.now.rows j) (sum_row a b)) }
        ensures fact { IfOk result (λ made. IfSome made (IsFact meter.old self.now.columns)) }
        ensures same { IfOk result (λ _. meter.new ≡ meter.old) }
        ensures cut { IfErr result (IsCutFor (SumAtPasses meter.old.bits self.now.rows i a j b) meter.old meter.new) }
    {
        match (self.row_at(i), self.row_at(j)) {
            (Some(first), Some(second)) => sum_row(alloc, a, b, first, second, meter),
            _ => Ok(None),
        }
    }

    /// What two opposite bounds say together.
    pub(crate) fn tie_at(
        &self,
        alloc: Global,
        i: usize,
        j: usize,
        meter: &Meter,
    ) -> Result<Option<Row>, AllocError>
        requires { All (IsFact meter.now self.now.columns) self.now.rows }
        ensures value { IfOk result (λ made. made ≡ with_both (slice_get self.now.rows i) (slice_get self.now.rows j) tie_row) }
        ensures fact { IfOk result (λ made. IfSome made (IsFact meter.now self.now.columns)) }
    {
        let rows = self.rows.as_slice();
        match (rows.get(i), rows.get(j)) {
            (Some(first), Some(second)) => tie_row(alloc, first, second, meter),
            _ => Ok(None),
        }
    }

    /// What divides the form of an equality.
    pub(crate) fn mod_at(
        &self,
        alloc: Global,
        i: usize,
        k: i128,
        meter: &mut Meter,
    ) -> Result<Option<Row>, Cut>
        requires { All (IsFact meter.old self.now.columns) self.now.rows }
        ensures { MatchResult result
            (λ made. (made ≡ with_one (slice_get self.now.rows i) (mod_row k))
            × IfSome made (IsFact meter.old self.now.columns) × (meter.new ≡ meter.old))
            (IsCutFor (MatchOption (with_one (slice_get self.now.rows i) (mod_row k)) ⊥ (RowPasses meter.old.bits)) meter.old meter.new) }
    {
        match self.rows.as_slice().get(i) {
            Some(row) => mod_row(alloc, k, row, meter),
            None => Ok(None),
        }
    }

    /// What divides the form of a congruence by one of its multiples.
    pub(crate) fn weaken_at(
        &self,
        alloc: Global,
        i: usize,
        k: i128,
        meter: &Meter,
    ) -> Result<Option<Row>, AllocError>
        requires { All (IsFact meter.now self.now.columns) self.now.rows }
        ensures value { IfOk result (λ made. made ≡ with_one (slice_get self.now.rows i) (weaken_row k)) }
        ensures fact { IfOk result (λ made. IfSome made (IsFact meter.now self.now.columns)) }
    {
        match self.rows.as_slice().get(i) {
            Some(row) => weaken_row(alloc, k, row, meter),
            None => Ok(None),
        }
    }

    /// The equality of a congruence with a new column.
    pub(crate) fn fresh_at(
        &self,
        alloc: Global,
        i: usize,
        meter: &Meter,
    ) -> Result<Option<Row>, AllocError>
        requires { All (IsFact meter.now self.now.columns) self.now.rows }
        ensures value { IfOk result (λ made. made ≡ with_one (slice_get self.now.rows i) fresh_row) }
        ensures fact { IfOk result (λ made. IfSome made (IsFact meter.now (self.now.columns + 1))) }
    {
        match self.rows.as_slice().get(i) {
            Some(row) => fresh_row(alloc, row, meter),
            None => Ok(None),
        }
    }
}
