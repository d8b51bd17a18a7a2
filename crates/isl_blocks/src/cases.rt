//! Systems that compare two blocks of columns.

ghost use Rattle.std.specs.Prelude.{◌≡◌, ◌≢◌, ◌+◌, ◌<◌, ◌≤◌, ◌^◌, IfOk, length};
ghost use Rattle.isl_blocks.specs.Blocks.{total, width_at};
ghost use Rattle.isl_blocks.specs.Cases.{DiffersAt, IsCaseOf};
ghost use Rattle.isl_blocks.specs.CaseRows.{case_rows, compared_row, next_row, same_rows};

use crate::picks::{start_of, total_of};
use isl_meter::Int;
use isl_piece::{Coefs, Row, RowKind, Rows, System};
use std::alloc::{AllocError, Global};

/// How numbers are compared where they first differ.
#[derive(Clone, Copy)]
pub enum Direction {
    /// The first is less.
    Before,
    /// The first is greater.
    After,
}

// The row whose form is the number at one column less that at another one, and a constant.
fn compared_row(
    alloc: Global,
    kind: RowKind,
    columns: usize,
    plus: usize,
    minus: usize,
    constant: Int,
) -> Result<Row, AllocError>
    requires plus { plus < columns }
    requires minus { minus < columns }
    ensures { IfOk result (λ row. row ≡ compared_row kind columns plus minus constant) }
{
    let mut coefs = Coefs::zeros(alloc, columns)?;
    coefs.set(plus, Int::ONE);
    coefs.set(minus, Int::new(-1));
    Ok(Row::new(kind, coefs, constant, Int::ONE))
}

// The rows that say of so many columns from one on that their numbers are those of the columns from another one on.
fn same_rows(
    alloc: Global,
    columns: usize,
    first: usize,
    second: usize,
    count: usize,
) -> Result<Rows, AllocError>
    requires first { first + count ≤ columns }
    requires second { second + count ≤ columns }
    ensures { IfOk result (λ rows. rows ≡ same_rows columns first second count) }
{
    let mut rows = Rows::with_capacity(alloc, count)?;
    for i in 0..count {
        let row = compared_row(
            alloc,
            RowKind::Zero,
            columns,
            second + i,
            first + i,
            Int::ZERO,
        )?;
        rows.push(row)?;
    }
    Ok(rows)
}

// The row that says that the number at the one column is less than that at the other one, or greater.
fn next_row(
    alloc: Global,
    columns: usize,
    first: usize,
    second: usize,
    direction: Direction,
) -> Result<Row, AllocError>
    requires first { first < columns }
    requires second { second < columns }
    ensures { IfOk result (λ row. row ≡ next_row columns first second direction) }
{
    let less = Int::new(-1);
    match direction {
        Direction::Before => compared_row(alloc, RowKind::AtLeast, columns, second, first, less),
        Direction::After => compared_row(alloc, RowKind::AtLeast, columns, first, second, less),
    }
}

/// The system over blocks of columns of these widths that holds where the first `at` numbers of the one block are those of the other,
/// and the next one is less, or greater.
///
/// # Errors
///
/// Where memory ends.
pub fn order_case(
    alloc: Global,
    widths: &[usize],
    first: usize,
    second: usize,
    at: usize,
    direction: Direction,
) -> Result<System, AllocError>
    requires fits { total widths.now < 2 ^ 64 }
    requires differ { first ≢ second }
    requires same { width_at widths.now first ≡ width_at widths.now second }
    requires at { at < width_at widths.now first }
    ensures { IfOk result (IsCaseOf widths.now first second (DiffersAt direction at)) }
{
    let columns = total_of(widths);
    let own = start_of(widths, first);
    let other = start_of(widths, second);
    let mut rows = same_rows(alloc, columns, own, other, at)?;
    rows.push(next_row(alloc, columns, own + at, other + at, direction)?)?;
    Ok(System::from_rows(alloc, columns, rows))
}

/// The system over blocks of columns of these widths that holds where the numbers of the one block are those of the other.
///
/// # Errors
///
/// Where memory ends.
pub fn same_case(
    alloc: Global,
    widths: &[usize],
    first: usize,
    second: usize,
) -> Result<System, AllocError>
    requires fits { total widths.now < 2 ^ 64 }
    requires first { first < length widths.now }
    requires second { second < length widths.now }
    requires differ { first ≢ second }
    requires same { width_at widths.now first ≡ width_at widths.now second }
    ensures { IfOk result (IsCaseOf widths.now first second (λ xs ys. xs ≡ ys)) }
{
    let columns = total_of(widths);
    let own = start_of(widths, first);
    let other = start_of(widths, second);
    let rows = same_rows(alloc, columns, own, other, widths[first])?;
    Ok(System::from_rows(alloc, columns, rows))
}
