//! What rows say of the last of their columns.

ghost use Rattle.std.specs.Prelude.{◌≡◌, ◌≢◌, ◌+◌, ◌<ℤ◌, ◌⊎◌, ◌∷◌, ◌++◌, [], pos, neg_ℤ, All, IfOk, OnOk};
ghost use Rattle.isl_meter.specs.Gauge.{IsWithin};
ghost use Rattle.isl_piece.specs.declared.row.RowKind.TheVariants.{Zero, AtLeast, Divides, NotDivides};
ghost use Rattle.isl_piece.specs.declared.row.Row.{Row};
ghost use Rattle.isl_piece.specs.Row.{coef_at, IsRowWithin, IsWellFormed};
ghost use Rattle.isl_bounds.specs.Directed.{directed};

use isl_frame::signed;
use isl_meter::{Int, Meter};
use isl_piece::{Row, RowKind, Rows};
use std::alloc::{AllocError, Global};

/// Rows over variables and one column behind them, by what they say of it: those that bound it from below, those that bound it from
/// above, and the others.
#[derive(Drop)]
pub struct Ends {
    pub low: Rows,
    pub high: Rows,
    pub others: Rows,
}

// The row's form with the sign of `by`, as an inequality.
fn directed(alloc: Global, row: &Row, by: Int, meter: &Meter) -> Result<Row, AllocError>
    requires { IsRowWithin meter.now row.now }
    ensures exact { IfOk result (λ made. made ≡ directed by row.now) }
    ensures within { IfOk result (IsRowWithin meter.now) }
{
    Ok(Row::new(
        RowKind::AtLeast,
        signed(alloc, row.coefs.as_slice(), by, meter)?,
        row.constant().times_sign_of(by, meter),
        row.modulus(),
    ))
}

// Puts a copy of the row to the rows.
fn push_copy(alloc: Global, rows: &mut Rows, row: &Row) -> Result<(), AllocError>
    ensures { OnOk result (rows.new ≡ rows.old ++ row.now ∷ []) }
{
    rows.push(row.copy(alloc)?)?;
    Ok(())
}

impl Ends {
    ghost use Rattle.std.specs.Prelude.{List};
    ghost use Rattle.isl_bounds.specs.Ends.{AreEndsOf};

    fn new(alloc: Global) -> Ends
        ensures { result ≡ record { low = []; high = []; others = [] } }
    {
        Ends {
            low: Rows::new(alloc),
            high: Rows::new(alloc),
            others: Rows::new(alloc),
        }
    }

    // One more row, an equality. The column's coefficient in it is `last`.
    fn add_equality(
        &mut self,
        alloc: Global,
        row: &Row,
        last: Int,
        meter: &Meter,
    ) -> Result<(), AllocError>
        requires within { IsRowWithin meter.now row.now }
        requires last { IsWithin meter.now last }
        ensures rows { OnOk result (self.new ≡ record {
          low = self.old.low ++ directed last row.now ∷ [];
          high = self.old.high ++ directed (neg_ℤ last) row.now ∷ [];
          others = self.old.others;
        }) }
        ensures low { OnOk result (IsRowWithin meter.now (directed last row.now)) }
        ensures high { OnOk result (IsRowWithin meter.now (directed (neg_ℤ last) row.now)) }
    {
        self.low.push(directed(alloc, row, last, meter)?)?;
        self.high
            .push(directed(alloc, row, last.neg(meter), meter)?)?;
        Ok(())
    }

    // One more row. The column's coefficient in it is `last`.
    fn add(
        &mut self,
        alloc: Global,
        row: &Row,
        last: Int,
        variables: usize,
        meter: &Meter,
    ) -> Result<(), AllocError>
        requires row { IsWellFormed (variables + 1) row.now }
        requires within { IsRowWithin meter.now row.now }
        requires last { last ≡ coef_at row.now variables }
        requires last_within { IsWithin meter.now last }
        ensures { (rows : List Row) → AreEndsOf meter.now variables rows self.old
            → OnOk result (AreEndsOf meter.now variables (rows ++ row.now ∷ []) self.new) }
    {
        if last.is_zero() {
            return push_copy(alloc, &mut self.others, row);
        }
        match row.kind {
            RowKind::Zero => self.add_equality(alloc, row, last, meter),
            RowKind::AtLeast if last.is_positive() => push_copy(alloc, &mut self.low, row),
            RowKind::AtLeast => push_copy(alloc, &mut self.high, row),
            RowKind::Divides | RowKind::NotDivides => push_copy(alloc, &mut self.others, row),
        }
    }

    /// The rows over so many variables and one column behind them, taken apart by what they say of it: an equality bounds it from both
    /// sides.
    ///
    /// # Errors
    ///
    /// `AllocError` where memory ends.
    pub fn of_rows(
        alloc: Global,
        rows: &Rows,
        variables: usize,
        meter: &Meter,
    ) -> Result<Ends, AllocError>
        requires rows { All (IsWellFormed (variables + 1)) rows.now }
        requires within { All (IsRowWithin meter.now) rows.now }
        ensures { IfOk result (AreEndsOf meter.now variables rows.now) }
    {
        let mut ends = Ends::new(alloc);
        for row in rows.as_slice() {
            ends.add(alloc, row, row.coefs.get(variables), variables, meter)?;
        }
        Ok(ends)
    }
}
