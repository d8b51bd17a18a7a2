//! Rows taken apart by what they say of their last column.

ghost use Rattle.std.specs.Prelude.{◌≡◌, ◌≢◌, ◌↔◌, ◌+◌, ◌<ℤ◌, ◌<◌, ◌^◌, [], pos, All, IfOk, IsTrue, OnOk, MatchResult, length};
ghost use Rattle.isl_meter.specs.Gauge.{IsCutBy, IsWithin};
ghost use Rattle.isl_piece.specs.Row.{coef_at, HasModulus, IsRowWithin, IsWellFormed};
ghost use Rattle.isl_piece.specs.System.{IsSystemWithin};
ghost use Rattle.isl_greatest_law.specs.Case.{IsBound, IsCongruence};
ghost use Rattle.isl_greatest.specs.Problem.{IsCaseOf};
ghost use Rattle.isl_greatest.specs.Parts.{half_of, IsPeriodOf, PushesRow};

use isl_meter::{Cut, Int, Meter, Overflow};
use isl_piece::{Row, RowKind, Rows, System, weighted_sum};
use std::alloc::{AllocError, Global};
use std::marker::Model;

/// Rows that bound their last number from above, the other rows, and a multiple of all moduli of these.
#[derive(Drop)]
pub struct Case {
    pub(crate) tops: Rows,
    pub(crate) others: Rows,
    pub(crate) period: Int,
}

impl Model for Case {
    ghost use Rattle.isl_greatest_law.specs.Case.{CaseView};

    ghost Value = { CaseView };

    ghost view = { λ c. record { tops = c.tops; others = c.others; period = c.period } };
}

/// Whether the row is a congruence.
pub(crate) fn is_congruence(row: &Row) -> bool
    ensures { IsTrue result ↔ IsCongruence row.now }
{
    matches!(row.kind, RowKind::Divides | RowKind::NotDivides)
}

/// Whether the row is a bound of its column at the place from below.
pub(crate) fn is_steep(row: &Row, column: usize) -> bool
    requires { column < length row.now.coefs }
    ensures { IsTrue result ↔ (IsBound row.now × (pos 0 <ℤ coef_at row.now column)) }
{
    row.kind == RowKind::AtLeast && row.coefs.get(column).is_positive()
}

// Whether it is one from above.
fn is_top(row: &Row, column: usize) -> bool
    requires { column < length row.now.coefs }
    ensures { IsTrue result ↔ (IsBound row.now × (coef_at row.now column <ℤ pos 0)) }
{
    row.kind == RowKind::AtLeast && row.coefs.get(column).is_negative()
}

// Rows so far.
#[derive(Drop)]
pub(crate) struct Parts {
    pub(crate) tops: Rows,
    pub(crate) others: Rows,
}

// The form of the row, or its negative, as a bound.
fn half(alloc: Global, row: &Row, is_negated: bool, meter: &mut Meter) -> Result<Row, Cut>
    requires within { IsRowWithin meter.old row.now }
    ensures { MatchResult result (λ half. (half ≡ half_of is_negated row.now) × IsRowWithin meter.old half × (meter.new ≡ meter.old))
        (IsCutBy meter.old meter.new) }
{
    // For what a meter keeps: it has at least 8 bits.
    let _limit = meter.limit();
    if !is_negated {
        let coefs = row.coefs.copy(alloc)?;
        return Ok(Row::new(RowKind::AtLeast, coefs, row.constant(), Int::ONE));
    }
    let numbers = row.coefs.as_slice();
    let coefs = weighted_sum(alloc, Int::new(-1), numbers, Int::ZERO, numbers, meter)?;
    let constant = row.constant().neg(meter);
    Ok(Row::new(RowKind::AtLeast, coefs, constant, Int::ONE))
}

impl Parts {
    // One more row, which is no equation.
    fn push(&mut self, row: Row, column: usize, meter: &Meter) -> Result<(), AllocError>
        requires formed { IsWellFormed (column + 1) row }
        requires within { IsRowWithin meter.now row }
        requires kind { row.kind ≢ RowKind.Zero }
        ensures { OnOk result (PushesRow meter.now column row self.old self.new) }
    {
        if is_top(&row, column) {
            self.tops.push(row)?;
        } else {
            self.others.push(row)?;
        }
        Ok(())
    }

    // One more row; of an equation both halves.
    fn add(&mut self, alloc: Global, row: &Row, column: usize, meter: &mut Meter) -> Result<(), Cut>
        requires formed { IsWellFormed (column + 1) row.now }
        requires within { IsRowWithin meter.old row.now }
        ensures { MatchResult result (λ _. PushesRow meter.old column row.now self.old self.new × (meter.new ≡ meter.old))
            (IsCutBy meter.old meter.new) }
    {
        if row.kind != RowKind::Zero {
            let same = row.copy(alloc)?;
            self.push(same, column, meter)?;
            return Ok(());
        }
        let first = half(alloc, row, false, meter)?;
        self.push(first, column, meter)?;
        let second = half(alloc, row, true, meter)?;
        self.push(second, column, meter)?;
        Ok(())
    }
}

// A number that all moduli of the congruences divide.
fn period_of(rows: &[Row], meter: &mut Meter) -> Result<Int, Cut>
    requires moduli { All (λ r. HasModulus r.kind r.k) rows.now }
    requires within { All (IsRowWithin meter.old) rows.now }
    ensures { MatchResult result (λ period. IsPeriodOf rows.now period × IsWithin meter.old period × (meter.new ≡ meter.old))
        (IsCutBy meter.old meter.new) }
{
    // For what a meter keeps: it has at least 8 bits.
    let _limit = meter.limit();
    let mut period = Int::ONE;
    for row in rows {
        if !is_congruence(row) {
            continue;
        }
        if period.modulo(row.modulus(), meter).is_zero() {
            continue;
        }
        let next = period.mul(row.modulus(), meter)?;
        period = next;
    }
    Ok(period)
}

/// The rows of the system, taken apart by what they say of its last column.
///
/// # Errors
///
/// `Overflow` where a multiple of the moduli passes the limit of the meter, and `NoMemory`.
pub fn case_of(
    alloc: Global,
    system: &System,
    column: usize,
    meter: &mut Meter,
) -> Result<Case, Cut>
    requires within { IsSystemWithin meter.old system.now }
    requires columns { system.now.columns ≡ column + 1 }
    ensures { MatchResult result (λ case. IsCaseOf meter.old column system.now case × (meter.new ≡ meter.old)) (IsCutBy meter.old meter.new) }
{
    let mut parts = Parts {
        tops: Rows::new(alloc),
        others: Rows::new(alloc),
    };
    let rows = system.rows.as_slice();
    for row in rows {
        parts.add(alloc, row, column, meter)?;
    }
    let period = period_of(parts.others.as_slice(), meter)?;
    Ok(Case {
        tops: parts.tops,
        others: parts.others,
        period,
    })
}
