//! Forms that are 0 at points, one point more at a time.

ghost use Rattle.std.specs.Prelude.{◌≡◌, ◌≢◌, ◌<◌, ◌≤◌, pos, [], ◌∷◌, ◌++◌, All, IfOk, MatchResult, OnOk, drop, length, slice_index_or};
ghost use Rattle.std.specs.Prelude.{take};
ghost use Rattle.isl_meter.specs.Gauge.{overflown, IsMetered, IsWithin};
ghost use Rattle.isl_piece.specs.declared.row.Row.{Row};
ghost use Rattle.isl_piece.specs.Normal.{normal_row, Kept};
ghost use Rattle.isl_piece.specs.Row.{HasModulus, IsRowWithin, IsWellFormed, value_at};
ghost use Rattle.isl_span.specs.Forms.{number_row, number_rows};
ghost use Rattle.isl_span.specs.Forms.{AreToldApart, AreExchanged, IsContingentForm, IsExchanged, IsForm};

use isl_meter::{Cut, Int, Meter, Overflow};
use isl_piece::{Coefs, Row, RowKind, Rows, combination, settle};
use std::alloc::{AllocError, Global};

/// The number that the row's form has at the point.
///
/// # Errors
///
/// `Overflow` where a product or a sum passes the limit of the meter.
#[tactic(auto, using(std::proofs::lemmas::Grind::common_steps, isl_piece::proofs::RowLemmas::value_steps))]
pub(crate) fn value_at(row: &Row, point: &[i128], meter: &mut Meter) -> Result<Int, Overflow>
    requires { length row.now.coefs ≡ length point.now }
    ensures { MatchResult result
        (λ value. (value ≡ value_at row.now point.now) × IsWithin meter.old value × (meter.new ≡ meter.old))
        (λ _. meter.new ≡ overflown meter.old) }
{
    let coefs = row.coefs.as_slice();
    let mut sum = Int::ZERO;
    for i in 0..coefs.len() {
        let product = coefs[i].mul(Int::new(point[i]), meter)?;
        sum = sum.add(product, meter)?;
    }
    sum.add(row.constant(), meter)
}

// The equation over so many columns that says that one of them is this number.
fn number_form(
    alloc: Global,
    columns: usize,
    column: usize,
    number: i128,
    meter: &Meter,
) -> Result<Row, AllocError>
    requires column_in { column < columns }
    requires within { IsWithin meter.now number }
    ensures { IfOk result (λ row. row ≡ number_row columns column number) }
{
    let mut coefs = Coefs::zeros(alloc, columns)?;
    coefs.set(column, Int::ONE);
    let constant = Int::new(number).neg(meter);
    Ok(Row::new(RowKind::Zero, coefs, constant, Int::ONE))
}

/// An equation for each column, which says what number the point has there.
///
/// # Errors
///
/// Where memory ends.
pub(crate) fn number_forms(alloc: Global, point: &[i128], meter: &Meter) -> Result<Rows, AllocError>
    requires { All (IsWithin meter.now) point.now }
    ensures exact { IfOk result (λ rows. rows ≡ number_rows (length point.now) 0 point.now) }
    ensures forms { IfOk result (All (IsForm meter.now (length point.now))) }
{
    // A limit leaves room for the coefficient 1.
    let _limit = meter.limit();
    let columns = point.len();
    let mut forms = Rows::with_capacity(alloc, columns)?;
    for column in 0..columns {
        forms.push(number_form(alloc, columns, column, point[column], meter)?)?;
    }
    Ok(forms)
}

// The equation, divided as far as it goes.
fn divided(mut form: Row, meter: &Meter) -> Row
    requires kind { form.kind ≡ RowKind.Zero }
    requires modulus { form.k ≡ pos 1 }
    requires within { IsRowWithin meter.now form }
    requires contingent { IsContingentForm form }
    ensures { normal_row form ≡ Kept result }
{
    settle(&mut form, meter);
    form
}

// The form, with such a multiple of the other one put in that it is 0 at the point. There the other one has this value, which is not 0.
#[tactic(auto, using(std::proofs::lemmas::Grind::common_steps, isl_meter::proofs::CutLemmas::charges))]
fn exchanged_form(
    alloc: Global,
    form: &Row,
    other: &Row,
    value: Int,
    point: &[i128],
    meter: &mut Meter,
) -> Result<Row, Cut>
    requires form { IsForm meter.old (length point.now) form.now }
    requires other { IsForm meter.old (length point.now) other.now }
    requires value { value ≡ value_at other.now point.now }
    requires within { IsWithin meter.old value }
    requires nonzero { value ≢ pos 0 }
    requires apart { AreToldApart form.now other.now }
    ensures exact { IfOk result (IsExchanged meter.old (length point.now) other.now point.now form.now) }
    ensures meter { IsMetered meter.old meter.new result }
{
    let height = value_at(form, point, meter)?;
    if height.is_zero() {
        return Ok(form.copy(alloc)?);
    }
    let sum = combination(alloc, value, form, height.neg(meter), other, meter)?;
    Ok(divided(sum, meter))
}

// Puts copies of the rows from the place on behind the others.
fn push_from(alloc: Global, rows: &mut Rows, others: &[Row], from: usize) -> Result<(), AllocError>
    ensures { OnOk result (rows.new ≡ rows.old ++ drop from others.now) }
{
    for i in from..others.len() {
        rows.push(others[i].copy(alloc)?)?;
    }
    Ok(())
}

/// The forms before the place, each changed so that it is 0 at the point, where the one at the place is not; and those behind the place.
///
/// # Errors
///
/// `Overflow` where a number passes the limit of the meter, and `NoMemory`.
#[tactic(auto, using(std::proofs::lemmas::Grind::common_steps, isl_meter::proofs::CutLemmas::charges))]
pub(crate) fn exchanged(
    alloc: Global,
    forms: &[Row],
    at: usize,
    point: &[i128],
    meter: &mut Meter,
) -> Result<Rows, Cut>
    requires inside { at < length forms.now }
    requires forms { All (IsForm meter.old (length point.now)) forms.now }
    requires nonzero { (d : Row) → value_at (slice_index_or forms.now at d) point.now ≢ pos 0 }
    requires apart { (d : Row) → All (λ form. AreToldApart form (slice_index_or forms.now at d)) (take at forms.now) }
    ensures exact { IfOk result (AreExchanged meter.old (length point.now) at point.now forms.now) }
    ensures meter { IsMetered meter.old meter.new result }
{
    let other = &forms[at];
    let value = value_at(other, point, meter)?;
    let mut left = Rows::with_capacity(alloc, forms.len())?;
    for i in 0..at {
        left.push(exchanged_form(alloc, &forms[i], other, value, point, meter)?)?;
    }
    push_from(alloc, &mut left, forms, at + 1)?;
    Ok(left)
}
