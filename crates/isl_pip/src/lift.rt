//! Systems with one column more, for the quotient of a congruence: it tells the number that is divided, which is not tried then.

ghost use Rattle.std.specs.Prelude.{◌≡◌, ◌≢◌, ◌↔◌, ◌⊎◌, ◌+◌, ◌<◌, ◌≤◌, ◌<ℤ◌, ◌≤ℤ◌, ◌^◌, pos, [], All, Any, IfOk, IfSome, IsTrue, OnOk, MatchResult, drop, length};
ghost use Rattle.std.specs.List.{insert};
ghost use Rattle.isl_meter.specs.Gauge.{IsCutBy, IsWithin};
ghost use Rattle.isl_piece.specs.declared.row.Row.{Row};
ghost use Rattle.isl_piece.specs.Row.{coef_at, IsRowWithin, IsWellFormed};
ghost use Rattle.isl_piece.specs.System.{IsSystemWithin};
ghost use Rattle.isl_pip.specs.Levels.{ArePlainOver};
ghost use Rattle.isl_pip.specs.Lift.{AreLiftedSystems, AreMoved, EndsAt, HaveLink, IsAnchor, IsLiftedSystem};

use crate::mirror::signed;
use isl_meter::{Cut, Int, Meter};
use isl_piece::{Coefs, Row, RowKind, Rows, System, weighted_sum};
use std::alloc::{AllocError, Global};

// Whether the row is a congruence, with a coefficient below 0 at the column.
fn falls_at(row: &Row, column: usize) -> bool
    requires { column < length row.now.coefs }
    ensures { IsTrue result ↔ ((row.now.kind ≡ RowKind.Divides) × (coef_at row.now column <ℤ pos 0)) }
{
    row.kind == RowKind::Divides && row.coefs.get(column).is_negative()
}

// Whether all numbers behind the column are 0.
fn is_last(coefs: &[Int], column: usize) -> bool
    requires { column < length coefs.now }
    ensures { IsTrue result ↔ All (λ c. c ≡ pos 0) (drop (column + 1) coefs.now) }
{
    coefs[column + 1..].iter().all(|coef| coef.is_zero())
}

// Whether the row is a congruence of which the column is the last one, with a coefficient below 0.
fn ends_at(row: &Row, column: usize) -> bool
    requires { column < length row.now.coefs }
    ensures { IsTrue result ↔ EndsAt column row.now }
{
    if !falls_at(row, column) {
        return false;
    }
    is_last(row.coefs.as_slice(), column)
}

// Of both, that with the greater modulus.
fn greater(found: Option<Row>, other: Option<Row>) -> Option<Row>
    ensures { (result ≡ found) ⊎ (result ≡ other) }
{
    match (found, other) {
        (Some(one), Some(two)) => { if one.k < two.k { Some(two) } else { Some(one) } }
        (Some(one), None) => Some(one),
        (None, other) => other,
    }
}

// The greatest number that divides all coefficients behind the column; 0 where these are 0.
fn factor_behind(coefs: &[Int], column: usize, meter: &Meter) -> Int
    requires inside { column < length coefs.now }
    requires within { All (IsWithin meter.now) coefs.now }
    ensures within { IsWithin meter.now result }
    ensures positive { pos 0 ≤ℤ result }
{
    let behind = &coefs[column + 1..];
    let mut factor = Int::ZERO;
    for coef in behind {
        factor = factor.gcd(*coef, meter);
    }
    factor
}

// The congruence modulo the factor that the equation says of its numbers up to the column, with a coefficient below 0 there.
fn cut_off(
    alloc: Global,
    row: &Row,
    column: usize,
    factor: Int,
    meter: &Meter,
) -> Result<Row, AllocError>
    requires formed { IsWellFormed (length row.now.coefs) row.now }
    requires within { IsRowWithin meter.now row.now }
    requires inside { column < length row.now.coefs }
    requires some { coef_at row.now column ≢ pos 0 }
    requires factor { (pos 0 <ℤ factor) × IsWithin meter.now factor }
    ensures { IfOk result (IsAnchor meter.now (length row.now.coefs) column) }
{
    let is_negated = row.coefs.get(column).is_positive();
    let numbers = row.coefs.as_slice();
    let mut coefs = Coefs::zeros(alloc, numbers.len())?;
    for i in 0..column + 1 {
        let number = signed(numbers[i], is_negated, meter);
        coefs.set(i, number);
    }
    let constant = signed(row.constant(), is_negated, meter);
    Ok(Row::new(RowKind::Divides, coefs, constant, factor))
}

// Whether the row is an equation that names the column, and the factor of what is behind it is greater than 1.
fn is_cut(row: &Row, column: usize, factor: Int) -> bool
    requires { column < length row.now.coefs }
    ensures { IsTrue result → (coef_at row.now column ≢ pos 0) × (pos 0 <ℤ factor) }
{
    row.kind == RowKind::Zero && !row.coefs.get(column).is_zero() && factor > Int::ONE
}

// The congruence of which the column is the last one that the row is, or where it is an equation, says.
fn congruence_of(
    alloc: Global,
    row: &Row,
    column: usize,
    meter: &Meter,
) -> Result<Option<Row>, AllocError>
    requires formed { IsWellFormed (length row.now.coefs) row.now }
    requires within { IsRowWithin meter.now row.now }
    requires inside { column < length row.now.coefs }
    ensures { IfOk result (λ found. IfSome found (IsAnchor meter.now (length row.now.coefs) column)) }
{
    if ends_at(row, column) {
        let same = row.copy(alloc)?;
        return Ok(Some(same));
    }
    let factor = factor_behind(row.coefs.as_slice(), column, meter);
    if !is_cut(row, column, factor) {
        return Ok(None);
    }
    let cut = cut_off(alloc, row, column, factor, meter)?;
    Ok(Some(cut))
}

// Of the one that was found and the rows, a congruence with the greatest modulus of which the column is the last one.
fn found_in(
    alloc: Global,
    rows: &[Row],
    columns: usize,
    column: usize,
    found: Option<Row>,
    meter: &Meter,
) -> Result<Option<Row>, AllocError>
    requires formed { All (IsWellFormed columns) rows.now }
    requires within { All (IsRowWithin meter.now) rows.now }
    requires inside { column < columns }
    requires found { IfSome found (IsAnchor meter.now columns column) }
    ensures { IfOk result (λ found. IfSome found (IsAnchor meter.now columns column)) }
{
    let mut found = found;
    for row in rows {
        let other = congruence_of(alloc, row, column, meter)?;
        found = greater(found, other);
    }
    Ok(found)
}

/// A congruence with the greatest modulus of which the column is the last one, with a coefficient below 0, among those that stand in the
/// systems, and those that their equations say of their numbers up to the column.
///
/// # Errors
///
/// Where memory ends.
pub(crate) fn anchor_of(
    alloc: Global,
    systems: &[System],
    columns: usize,
    column: usize,
    meter: &Meter,
) -> Result<Option<Row>, AllocError>
    requires systems { ArePlainOver meter.now columns systems.now }
    requires inside { column < columns }
    ensures { IfOk result (λ found. IfSome found (IsAnchor meter.now columns column)) }
{
    let mut found = None;
    for system in systems {
        found = found_in(alloc, system.rows.as_slice(), columns, column, found, meter)?;
    }
    Ok(found)
}

// The coefficients with one more at the column.
fn inserted(alloc: Global, coefs: &[Int], column: usize, number: Int) -> Result<Coefs, AllocError>
    requires { column ≤ length coefs.now }
    ensures { IfOk result (λ made. made ≡ insert coefs.now column number) }
{
    let mut made = Coefs::from_slice(alloc, &coefs[..column])?;
    made.push(number)?;
    let behind = &coefs[column..];
    for coef in behind {
        made.push(*coef)?;
    }
    Ok(made)
}

// Rows that say what the number at the column is: the quotient, rounded down, or where it is known to be exact, the quotient.
fn link_rows(
    alloc: Global,
    anchor: &Row,
    column: usize,
    is_exact: bool,
    meter: &mut Meter,
) -> Result<Rows, Cut>
    requires anchor { IsAnchor meter.old (length anchor.now.coefs) column anchor.now }
    ensures { MatchResult result
        (λ rows. HaveLink meter.old column anchor.now is_exact rows × (meter.new ≡ meter.old)) (IsCutBy meter.old meter.new) }
{
    // For what a meter keeps: it has at least 8 bits.
    let _limit = meter.limit();
    let mut rows = Rows::new(alloc);
    let link = inserted(alloc, anchor.coefs.as_slice(), column, anchor.modulus())?;
    if is_exact {
        let row = Row::new(RowKind::Zero, link, anchor.constant(), Int::ONE);
        rows.push(row)?;
        return Ok(rows);
    }
    let numbers = link.as_slice();
    let opposite = weighted_sum(alloc, Int::new(-1), numbers, Int::ZERO, numbers, meter)?;
    let own = anchor.constant();
    let constant = own.neg(meter);
    let less = anchor.modulus().sub(Int::ONE, meter)?;
    let most = less.add(own, meter)?;
    let first = Row::new(RowKind::AtLeast, opposite, constant, Int::ONE);
    rows.push(first)?;
    let second = Row::new(RowKind::AtLeast, link, most, Int::ONE);
    rows.push(second)?;
    Ok(rows)
}

// Whether the numbers are the same.
fn are_same_numbers(numbers: &[Int], others: &[Int]) -> bool
    ensures { IsTrue result ↔ (numbers.now ≡ others.now) }
{
    numbers == others
}

// Whether the rows are the same.
#[tactic(auto, using(std::proofs::lemmas::Grind::common_steps, isl_union::proofs::SameLaws::rows_same))]
fn is_same_row(row: &Row, other: &Row) -> bool
    ensures { IsTrue result ↔ (row.now ≡ other.now) }
{
    row.kind == other.kind
        && row.constant == other.constant
        && row.k == other.k
        && are_same_numbers(row.coefs.as_slice(), other.coefs.as_slice())
}

// Puts the rows but the anchor behind the others, with one column more.
fn push_moved(
    alloc: Global,
    made: &mut Rows,
    rows: &[Row],
    column: usize,
    anchor: &Row,
) -> Result<(), AllocError>
    requires inside { column ≤ length anchor.now.coefs }
    requires formed { All (IsWellFormed (length anchor.now.coefs)) rows.now }
    ensures { OnOk result (AreMoved column anchor.now rows.now made.old made.new) }
{
    for row in rows {
        if is_same_row(row, anchor) {
            continue;
        }
        let coefs = inserted(alloc, row.coefs.as_slice(), column, Int::ZERO)?;
        let wider = Row::new(row.kind, coefs, row.constant(), row.modulus());
        made.push(wider)?;
    }
    Ok(())
}

// Whether the row is one of these.
fn has_row(rows: &[Row], row: &Row) -> bool
    ensures { IsTrue result ↔ Any (λ other. other ≡ row.now) rows.now }
{
    rows.iter().any(|other| is_same_row(other, row))
}

// The system with one column more, whose number is the quotient.
fn lifted(
    alloc: Global,
    system: &System,
    columns: usize,
    column: usize,
    anchor: &Row,
    meter: &mut Meter,
) -> Result<System, Cut>
    requires anchor { IsAnchor meter.old columns column anchor.now }
    requires within { IsSystemWithin meter.old system.now }
    requires plain { system.now.definitions ≡ [] }
    requires columns { system.now.columns ≡ columns }
    requires fits { columns + 1 < 2 ^ 64 }
    ensures { MatchResult result
        (λ made. IsLiftedSystem meter.old columns column anchor.now system.now made × (meter.new ≡ meter.old)) (IsCutBy meter.old meter.new) }
{
    // For what a meter keeps: it has at least 8 bits.
    let _limit = meter.limit();
    let own = system.rows.as_slice();
    let mut rows = link_rows(alloc, anchor, column, has_row(own, anchor), meter)?;
    push_moved(alloc, &mut rows, own, column, anchor)?;
    Ok(System::from_rows(alloc, columns + 1, rows))
}

/// The systems with one column more, whose number is the quotient of the congruence.
///
/// # Errors
///
/// `Overflow` where a number passes the limit of the meter, and `NoMemory`.
pub(crate) fn lifted_systems(
    alloc: Global,
    systems: &[System],
    columns: usize,
    column: usize,
    anchor: &Row,
    meter: &mut Meter,
) -> Result<Vec<System>, Cut>
    requires anchor { IsAnchor meter.old columns column anchor.now }
    requires systems { ArePlainOver meter.old columns systems.now }
    requires fits { columns + 1 < 2 ^ 64 }
    ensures { MatchResult result
        (λ made. AreLiftedSystems meter.old columns column anchor.now systems.now made.items × (meter.new ≡ meter.old))
        (IsCutBy meter.old meter.new) }
{
    let mut made = Vec::new(alloc);
    for system in systems {
        made.push(lifted(alloc, system, columns, column, anchor, meter)?)?;
    }
    Ok(made)
}
