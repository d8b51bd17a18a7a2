//! Forms over defined columns as sums with quotients.

ghost use Rattle.std.specs.Prelude.{◌≡◌, ◌≢◌, ◌+◌, ◌<◌, All, length, MatchResult};
ghost use Rattle.isl_meter.specs.Gauge.{IsCutBy, IsWithin};
ghost use Rattle.isl_piece.specs.Definition.{AreDefinitions};
ghost use Rattle.isl_piece.specs.Row.{IsRowWithin, IsWellFormed};
ghost use Rattle.isl_greatest.specs.Expressed.{AreExpressed, IsExpressed, IsNegatedColumn, IsRowTest, IsTestOf};
ghost use Rattle.isl_greatest.specs.State.{IsFrame, IsQuestion};

use crate::sum::{form_sum, with_quotient};
use isl_meter::{Cut, Int, Meter};
use isl_piece::{Coefs, Definition, Row, RowKind, System, sum_of, weighted_sum};
use isl_quast::QExpr;
use sqlite_items::Items;
use std::alloc::Global;

// The form over so many columns and defined ones behind them.
fn expressed(
    alloc: Global,
    front: usize,
    definitions: &[Definition],
    coefs: &[Int],
    constant: Int,
    meter: &mut Meter,
) -> Result<QExpr, Cut>
    requires definitions { AreDefinitions meter.old front definitions.now }
    requires count { length coefs.now ≡ front + length definitions.now }
    requires coefs { All (IsWithin meter.old) coefs.now }
    requires constant { IsWithin meter.old constant }
    ensures { MatchResult result (λ e. IsExpressed meter.old front definitions.now coefs.now constant e × (meter.new ≡ meter.old))
        (IsCutBy meter.old meter.new) }
{
    let count = definitions.len();
    if count == 0 {
        let plain = form_sum(alloc, coefs, constant)?;
        return Ok(plain);
    }
    let last = count - 1;
    let at = front + last;
    let others = &definitions[..last];
    let definition = &definitions[last];
    let first = &coefs[..at];
    let coef = coefs[at];
    if coef.is_zero() {
        return expressed(alloc, front, others, first, constant, meter);
    }
    let inner = definition.coefs.as_slice();
    let own = Int::new(definition.constant);
    let k = definition.k;
    if k == 1 {
        let merged = weighted_sum(alloc, Int::ONE, first, coef, inner, meter)?;
        let sum = sum_of(Int::ONE, constant, coef, own, meter)?;
        let narrow = merged.as_slice();
        return expressed(alloc, front, others, narrow, sum, meter);
    }
    let dividend = expressed(alloc, front, others, inner, own, meter)?;
    let rest = expressed(alloc, front, others, first, constant, meter)?;
    let divisor = Int::new(k);
    let whole = with_quotient(alloc, rest, coef, dividend, divisor)?;
    Ok(whole)
}

// The sum that is at least 0 exactly where the bound holds.
fn bound_test(
    alloc: Global,
    front: usize,
    definitions: &[Definition],
    row: &Row,
    meter: &mut Meter,
) -> Result<QExpr, Cut>
    requires definitions { AreDefinitions meter.old front definitions.now }
    requires formed { IsWellFormed (front + length definitions.now) row.now }
    requires within { IsRowWithin meter.old row.now }
    requires kind { row.now.kind ≡ RowKind.AtLeast }
    ensures { MatchResult result (λ e. IsRowTest meter.old front definitions.now row.now e × (meter.new ≡ meter.old)) (IsCutBy meter.old meter.new) }
{
    let coefs = row.coefs.as_slice();
    expressed(alloc, front, definitions, coefs, row.constant(), meter)
}

// The sum that is at least 0 exactly where the modulus divides the form.
fn multiple_test(
    alloc: Global,
    front: usize,
    definitions: &[Definition],
    row: &Row,
    meter: &mut Meter,
) -> Result<QExpr, Cut>
    requires definitions { AreDefinitions meter.old front definitions.now }
    requires formed { IsWellFormed (front + length definitions.now) row.now }
    requires within { IsRowWithin meter.old row.now }
    requires kind { row.now.kind ≡ RowKind.Divides }
    ensures { MatchResult result (λ e. IsRowTest meter.old front definitions.now row.now e × (meter.new ≡ meter.old)) (IsCutBy meter.old meter.new) }
{
    let coefs = row.coefs.as_slice();
    let k = row.modulus();
    let own = row.constant();
    let form = expressed(alloc, front, definitions, coefs, own, meter)?;
    let opposite = weighted_sum(alloc, Int::new(-1), coefs, Int::ZERO, coefs, meter)?;
    let constant = own.neg(meter);
    let negated = opposite.as_slice();
    let rest = expressed(alloc, front, definitions, negated, constant, meter)?;
    let test = with_quotient(alloc, rest, k, form, k)?;
    Ok(test)
}

// The sum that is at least 0 exactly where the modulus does not divide the form.
fn no_multiple_test(
    alloc: Global,
    front: usize,
    definitions: &[Definition],
    row: &Row,
    meter: &mut Meter,
) -> Result<QExpr, Cut>
    requires definitions { AreDefinitions meter.old front definitions.now }
    requires formed { IsWellFormed (front + length definitions.now) row.now }
    requires within { IsRowWithin meter.old row.now }
    requires kind { row.now.kind ≡ RowKind.NotDivides }
    ensures { MatchResult result (λ e. IsRowTest meter.old front definitions.now row.now e × (meter.new ≡ meter.old)) (IsCutBy meter.old meter.new) }
{
    let coefs = row.coefs.as_slice();
    let k = row.modulus();
    let own = row.constant();
    let form = expressed(alloc, front, definitions, coefs, own, meter)?;
    let constant = own.sub(Int::ONE, meter)?;
    let rest = expressed(alloc, front, definitions, coefs, constant, meter)?;
    let times = k.neg(meter);
    let test = with_quotient(alloc, rest, times, form, k)?;
    Ok(test)
}

// The sum that is at least 0 exactly where the row, which is no equation, holds.
fn row_test(
    alloc: Global,
    front: usize,
    definitions: &[Definition],
    row: &Row,
    meter: &mut Meter,
) -> Result<QExpr, Cut>
    requires definitions { AreDefinitions meter.old front definitions.now }
    requires formed { IsWellFormed (front + length definitions.now) row.now }
    requires within { IsRowWithin meter.old row.now }
    requires kind { row.now.kind ≢ RowKind.Zero }
    ensures { MatchResult result (λ e. IsRowTest meter.old front definitions.now row.now e × (meter.new ≡ meter.old)) (IsCutBy meter.old meter.new) }
{
    match row.kind {
        RowKind::Divides => multiple_test(alloc, front, definitions, row, meter),
        RowKind::NotDivides => no_multiple_test(alloc, front, definitions, row, meter),
        RowKind::Zero | RowKind::AtLeast => bound_test(alloc, front, definitions, row, meter),
    }
}

/// The sum that is at least 0 exactly where the question holds.
///
/// # Errors
///
/// `Overflow` where a number passes the limit of the meter, and `NoMemory`.
pub(crate) fn test_of(
    alloc: Global,
    front: usize,
    question: &System,
    meter: &mut Meter,
) -> Result<QExpr, Cut>
    requires { IsQuestion meter.old front question.now }
    ensures { MatchResult result (λ test. IsTestOf meter.old front question.now test × (meter.new ≡ meter.old)) (IsCutBy meter.old meter.new) }
{
    let row = &question.rows.as_slice()[0];
    let definitions = question.definitions.as_slice();
    row_test(alloc, front, definitions, row, meter)
}

// The number of a column, negated.
fn negated_column(
    alloc: Global,
    front: usize,
    numbers: &System,
    column: usize,
    meter: &mut Meter,
) -> Result<QExpr, Cut>
    requires frame { IsFrame meter.old front numbers.now }
    requires column { column < numbers.now.columns }
    ensures { MatchResult result (λ e. IsNegatedColumn meter.old front numbers.now column e × (meter.new ≡ meter.old)) (IsCutBy meter.old meter.new) }
{
    // For what a meter keeps: it has at least 8 bits.
    let _limit = meter.limit();
    let mut coefs = Coefs::zeros(alloc, numbers.columns)?;
    coefs.set(column, Int::new(-1));
    expressed(
        alloc,
        front,
        numbers.definitions.as_slice(),
        coefs.as_slice(),
        Int::ZERO,
        meter,
    )
}

/// The numbers of the columns behind the front, negated.
///
/// # Errors
///
/// `Overflow` where a number passes the limit of the meter, and `NoMemory`.
pub(crate) fn leaf_of(
    alloc: Global,
    front: usize,
    numbers: &System,
    meter: &mut Meter,
) -> Result<Items<QExpr>, Cut>
    requires { IsFrame meter.old front numbers.now }
    ensures { MatchResult result (λ leaf. AreExpressed meter.old front numbers.now leaf × (meter.new ≡ meter.old)) (IsCutBy meter.old meter.new) }
{
    let mut leaf = Items::new(alloc);
    for column in front..numbers.columns {
        let number = negated_column(alloc, front, numbers, column, meter)?;
        leaf.push(number)?;
    }
    Ok(leaf)
}
