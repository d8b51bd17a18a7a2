//! Whether trees are well formed.

ghost use Rattle.std.specs.Prelude.{◌≡◌, ◌≤◌, ◌↔◌, ◌<ℤ◌, pos, length, All, IfOk, IsTrue};
ghost use Rattle.isl_meter.specs.Gauge.{IsWithin};
ghost use Rattle.isl_piece.specs.Normal.{normal_row, Kept};
ghost use Rattle.isl_piece.specs.Row.{HasModulus, IsRowWithin};
ghost use Rattle.isl_loop.specs.Formed.{IsAtomOver, IsExprOver, IsLoopOver, IsRowOver};
ghost use Rattle.isl_loop.specs.Lists.{IsItemOver};

use isl_loop::{Atom, Expr, Item, Loop};
use isl_meter::{Int, Meter};
use isl_piece::{Outcome, Row, RowKind, settle};
use std::alloc::{AllocError, Global};

// ---- numbers
fn is_within(number: i128, meter: &Meter) -> bool
    ensures { IsTrue result ↔ IsWithin meter.now number }
{
    number.unsigned_abs() <= meter.limit().unsigned_abs()
}

fn are_within(numbers: &[Int], meter: &Meter) -> bool
    ensures { IsTrue result ↔ All (IsWithin meter.now) numbers.now }
{
    for number in numbers {
        if !is_within(number.get(), meter) {
            return false;
        }
    }
    true
}

// Whether the number may be divided by, or be a step.
fn is_divisor(number: i128, meter: &Meter) -> bool
    ensures { IsTrue result ↔ ((pos 0 <ℤ number) × IsWithin meter.now number) }
{
    number > 0 && is_within(number, meter)
}

// ---- expressions
#[cycle(form)]
fn is_expr_over(expr: &Expr, columns: usize, meter: &Meter) -> bool
    ensures { IsTrue result ↔ IsExprOver meter.now columns expr.now }
{
    is_within(expr.constant, meter) && are_items_over(expr.items.as_slice(), columns, meter)
}

#[cycle(form)]
fn are_items_over(items: &[Item], columns: usize, meter: &Meter) -> bool
    ensures { IsTrue result ↔ All (IsItemOver meter.now columns) items.now }
{
    for item in items {
        if !is_within(item.coef, meter) {
            return false;
        }
        if !is_atom_over(&item.atom, columns, meter) {
            return false;
        }
    }
    true
}

#[cycle(form)]
fn is_atom_over(atom: &Atom, columns: usize, meter: &Meter) -> bool
    ensures { IsTrue result ↔ IsAtomOver meter.now columns atom.now }
{
    match atom {
        Atom::Column(place) => *place < columns,
        Atom::Floor(dividend, k) => is_divisor(*k, meter)
            && is_expr_over(dividend.get(), columns, meter),
        Atom::Ceil(dividend, k) => is_divisor(*k, meter)
            && is_expr_over(dividend.get(), columns, meter),
        Atom::Min(parts) => are_some_over(parts.as_slice(), columns, meter),
        Atom::Max(parts) => are_some_over(parts.as_slice(), columns, meter),
    }
}

// Whether they are two or more, each well formed.
#[cycle(form)]
fn are_some_over(parts: &[Expr], columns: usize, meter: &Meter) -> bool
    ensures { IsTrue result ↔ (All (IsExprOver meter.now columns) parts.now × (2 ≤ length parts.now)) }
{
    if parts.len() < 2 {
        return false;
    }
    for part in parts {
        if !is_expr_over(part, columns, meter) {
            return false;
        }
    }
    true
}

fn are_exprs_over(exprs: &[Expr], columns: usize, meter: &Meter) -> bool
    ensures { IsTrue result ↔ All (IsExprOver meter.now columns) exprs.now }
{
    for expr in exprs {
        if !is_expr_over(expr, columns, meter) {
            return false;
        }
    }
    true
}

// ---- rows
fn has_modulus(row: &Row) -> bool
    ensures { IsTrue result ↔ HasModulus row.now.kind row.now.k }
{
    match row.kind {
        RowKind::Zero | RowKind::AtLeast => row.k == 1,
        RowKind::Divides | RowKind::NotDivides => row.k > 0,
    }
}

fn is_row_within(row: &Row, meter: &Meter) -> bool
    ensures { IsTrue result ↔ IsRowWithin meter.now row.now }
{
    is_within(row.constant, meter)
        && is_within(row.k, meter)
        && are_within(row.coefs.as_slice(), meter)
}

fn have_same_coefs(row: &Row, other: &Row) -> bool
    ensures { IsTrue result ↔ (other.now.coefs ≡ row.now.coefs) }
{
    row.coefs.as_slice() == other.coefs.as_slice()
}

#[tactic(auto, using(std::proofs::lemmas::Grind::common_steps, crate::proofs::FormedLaws::rows_same))]
fn is_same(row: &Row, other: &Row) -> bool
    ensures { IsTrue result ↔ (other.now ≡ row.now) }
{
    row.kind == other.kind
        && row.constant == other.constant
        && row.k == other.k
        && have_same_coefs(row, other)
}

// Whether the row is its own normal row.
fn is_normal(alloc: Global, row: &Row, meter: &Meter) -> Result<bool, AllocError>
    requires modulus { HasModulus row.now.kind row.now.k }
    requires within { IsRowWithin meter.now row.now }
    ensures { IfOk result (λ is. IsTrue is ↔ (normal_row row.now ≡ Kept row.now)) }
{
    let mut normal = row.copy(alloc)?;
    match settle(&mut normal, meter) {
        Outcome::Stays => Ok(is_same(row, &normal)),
        Outcome::Holds | Outcome::Fails => Ok(false),
    }
}

fn is_row_over(alloc: Global, row: &Row, columns: usize, meter: &Meter) -> Result<bool, AllocError>
    ensures { IfOk result (λ is. IsTrue is ↔ IsRowOver meter.now columns row.now) }
{
    if row.coefs.len() == columns && has_modulus(row) && is_row_within(row, meter) {
        is_normal(alloc, row, meter)
    } else {
        Ok(false)
    }
}

fn are_rows_over(
    alloc: Global,
    rows: &[Row],
    columns: usize,
    meter: &Meter,
) -> Result<bool, AllocError>
    ensures { IfOk result (λ are. IsTrue are ↔ All (IsRowOver meter.now columns) rows.now) }
{
    for row in rows {
        if !is_row_over(alloc, row, columns, meter)? {
            return Ok(false);
        }
    }
    Ok(true)
}

// ---- loops
#[cycle(formed)]
fn are_loops_over(
    alloc: Global,
    parts: &[Loop],
    columns: usize,
    meter: &Meter,
) -> Result<bool, AllocError>
    ensures { IfOk result (λ are. IsTrue are ↔ All (IsLoopOver meter.now columns) parts.now) }
{
    for part in parts {
        if !is_loop_over(alloc, part, columns, meter)? {
            return Ok(false);
        }
    }
    Ok(true)
}

/// Whether the tree is one that `execute` takes, where so many parameters are declared: its columns are those of the parameters and of
/// the loops around, divisors and steps are at least 1, `min` and `max` have two parts or more, conditions are normal rows over all
/// columns there, and numbers are within the limit of the meter.
///
/// # Errors
///
/// `AllocError` where memory ends, or where more loops stand in one another than a `usize` counts.
#[cycle(formed)]
pub fn is_loop_over(
    alloc: Global,
    tree: &Loop,
    columns: usize,
    meter: &Meter,
) -> Result<bool, AllocError>
    ensures { IfOk result (λ is. IsTrue is ↔ IsLoopOver meter.now columns tree.now) }
{
    match tree {
        Loop::Block(parts) => are_loops_over(alloc, parts.as_slice(), columns, meter),
        Loop::For(low, high, step, body) => {
            let Some(more) = columns.checked_add(1) else {
                return Err(AllocError);
            };
            if is_expr_over(low, columns, meter)
                && is_expr_over(high, columns, meter)
                && is_divisor(*step, meter)
            {
                is_loop_over(alloc, body.get(), more, meter)
            } else {
                Ok(false)
            }
        }
        Loop::If(rows, body) => {
            if are_rows_over(alloc, rows.as_slice(), columns, meter)? {
                is_loop_over(alloc, body.get(), columns, meter)
            } else {
                Ok(false)
            }
        }
        Loop::Call(_name, args) => Ok(are_exprs_over(args.as_slice(), columns, meter)),
    }
}
