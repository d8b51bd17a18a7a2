//! The rows of branches.

ghost use Rattle.std.specs.Prelude.{◌≡◌, ◌<◌, slice_index_or, ◌-ℤ◌, pos, length, nat_eq, All, Any, MatchResult};
ghost use Rattle.isl_meter.specs.Gauge.{IsWithin, overflown};
ghost use Rattle.isl_piece.specs.Cut.{IsCutFor};
ghost use Rattle.isl_piece.specs.Negation.{below, negation_of};
ghost use Rattle.isl_piece.specs.Normal.{bound, congruence};
ghost use Rattle.isl_piece.specs.Row.{IsRowWithin};
ghost use Rattle.isl_refute.specs.Checked.{negation_count, IsOutRow};
ghost use Rattle.isl_refute.specs.Passes.{Above, RowPasses};
ghost use Rattle.isl_refute.specs.Refutes.{negations, padded, residue_rows};

use crate::Form;
use crate::forms::padded;
use crate::steps::{measured, negative, one};
use isl_meter::{Cut, Int, Meter, Overflow};
use isl_piece::{Coefs, Row, RowKind, Rows, negate};
use std::alloc::Global;

// The number at a place, if it is within the limit.
fn measured_at(numbers: &[i128], i: usize, meter: &mut Meter) -> Result<Int, Overflow>
    requires { i < length numbers.now }
    ensures { MatchResult result
        (λ z. (z ≡ slice_index_or numbers.now i (pos 0)) × IsWithin meter.old z × (meter.new ≡ meter.old))
        (λ _. (¬ IsWithin meter.old (slice_index_or numbers.now i (pos 0))) × (meter.new ≡ overflown meter.old)) }
{
    measured(numbers[i], meter)
}

// The numbers, if each is within the limit.
fn all_measured(alloc: Global, numbers: &[i128], meter: &mut Meter) -> Result<Coefs, Cut>
    ensures { MatchResult result
        (λ coefs. (coefs ≡ numbers.now) × All (IsWithin meter.old) coefs × (meter.new ≡ meter.old))
        (IsCutFor (Any (Above meter.old.bits) numbers.now) meter.old meter.new) }
{
    let mut coefs = Coefs::new(alloc);
    for i in 0..numbers.len() {
        let next = measured_at(numbers, i, meter)?;
        coefs.push(next)?;
    }
    Ok(coefs)
}

/// The form is at least 0.
pub(crate) fn bound(alloc: Global, form: &Form, meter: &mut Meter) -> Result<Row, Cut>
    ensures { MatchResult result
        (λ row. (row ≡ bound form.now.coefs form.now.constant) × IsRowWithin meter.old row × (meter.new ≡ meter.old))
        (IsCutFor (RowPasses meter.old.bits (bound form.now.coefs form.now.constant)) meter.old meter.new) }
{
    let coefs = all_measured(alloc, form.coefs.as_slice(), meter)?;
    let constant = measured(form.constant, meter)?;
    Ok(Row::new(RowKind::AtLeast, coefs, constant, one(meter)))
}

/// The form of the bound is below 0.
pub(crate) fn below(alloc: Global, row: &Row, meter: &mut Meter) -> Result<Row, Cut>
    requires { IsRowWithin meter.old row.now }
    ensures { MatchResult result
        (λ made. (made ≡ below row.now.coefs row.now.constant) × IsRowWithin meter.old made × (meter.new ≡ meter.old))
        (IsCutFor (RowPasses meter.old.bits (below row.now.coefs row.now.constant)) meter.old meter.new) }
{
    let constant = row.constant().neg(meter).sub(Int::ONE, meter)?;
    let coefs = negative(alloc, &row.coefs, meter)?;
    Ok(Row::new(RowKind::AtLeast, coefs, constant, one(meter)))
}

// `k` divides the form less a number.
fn residue_row(
    alloc: Global,
    form: &Form,
    k: i128,
    rest: i128,
    meter: &mut Meter,
) -> Result<Row, Cut>
    ensures { MatchResult result
        (λ row. (row ≡ congruence form.now.coefs (form.now.constant -ℤ rest) k) × IsRowWithin meter.old row × (meter.new ≡ meter.old))
        (IsCutFor (RowPasses meter.old.bits (congruence form.now.coefs (form.now.constant -ℤ rest) k)) meter.old meter.new) }
{
    let divisor = measured(k, meter)?;
    let coefs = all_measured(alloc, form.coefs.as_slice(), meter)?;
    let constant = Int::new(form.constant).sub(Int::new(rest), meter)?;
    Ok(Row::new(RowKind::Divides, coefs, constant, divisor))
}

/// `k` divides the form less a number, for each of the numbers from 0 to `k - 1`.
pub(crate) fn residue_rows(
    alloc: Global,
    form: &Form,
    k: i128,
    count: usize,
    meter: &mut Meter,
) -> Result<Rows, Cut>
    requires { k ≡ pos count }
    ensures { MatchResult result
        (λ rows. (rows ≡ residue_rows form.now k) × All (IsRowWithin meter.old) rows × (meter.new ≡ meter.old))
        (IsCutFor (Any (RowPasses meter.old.bits) (residue_rows form.now k)) meter.old meter.new) }
{
    let mut rows = Rows::new(alloc);
    for rest in 0..count {
        let row = residue_row(alloc, form, k, rest as i128, meter)?;
        rows.push(row)?;
    }
    Ok(rows)
}

/// The rows of the negation of each row, over so many columns.
pub(crate) fn negations(
    alloc: Global,
    columns: usize,
    rows: &[Row],
    meter: &mut Meter,
) -> Result<Rows, Cut>
    requires { All (IsOutRow meter.old columns) rows.now }
    ensures { MatchResult result
        (λ made. (made ≡ negations columns rows.now) × All (IsRowWithin meter.old) made × (meter.new ≡ meter.old))
        (IsCutFor (Any (RowPasses meter.old.bits) (negations columns rows.now)) meter.old meter.new) }
{
    let mut made = Rows::new(alloc);
    for row in rows {
        let negated = negation(alloc, columns, row, meter)?;
        made.append(alloc, &negated)?;
    }
    Ok(made)
}

// The rows of the negation of a row, over so many columns.
fn negation(alloc: Global, columns: usize, row: &Row, meter: &mut Meter) -> Result<Rows, Cut>
    requires { IsOutRow meter.old columns row.now }
    ensures { MatchResult result
        (λ made. (made ≡ negation_of (padded columns row.now)) × All (IsRowWithin meter.old) made × (meter.new ≡ meter.old))
        (IsCutFor (Any (RowPasses meter.old.bits) (negation_of (padded columns row.now))) meter.old meter.new) }
{
    let whole = padded(alloc, columns, row)?;
    negate(alloc, &whole, meter)
}

// How many rows the negation of a row of this kind has.
fn negations_of(kind: RowKind) -> usize
    ensures { result ≡ negation_count kind }
{
    match kind {
        RowKind::Zero => 2,
        RowKind::AtLeast | RowKind::Divides | RowKind::NotDivides => 1,
    }
}

/// Whether there are so many rows in the negations of all rows.
pub(crate) fn has_negations(columns: usize, rows: &[Row], count: usize) -> bool
    ensures { result ≡ nat_eq count (length (negations columns rows.now)) }
{
    let mut left = count;
    for row in rows {
        let own = negations_of(row.kind);
        if left < own {
            return false;
        }
        left -= own;
    }
    left == 0
}
