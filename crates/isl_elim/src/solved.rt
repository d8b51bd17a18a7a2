//! One column out of rows, by an equality that has it with 1 or -1.

ghost use Rattle.std.specs.Prelude.{◌≡◌, ◌<◌, ◌+◌, ◌*◌, ◌^◌, ℕ, All, IfSome, IsTrue, length, slice_index_or};
ghost use Rattle.isl_ledger.specs.Difference.{IsDifferenceRow};
ghost use Rattle.isl_meter.specs.Gauge.{IsDone};
ghost use Rattle.isl_omega.specs.Column.{IsProper};
ghost use Rattle.isl_omega.specs.Magnitude.{IsNoOverflow, IsRowUpToAt};
ghost use Rattle.isl_omega.specs.Units.{IsAnsweredFor};
ghost use Rattle.isl_piece.specs.Row.{IsRowWithin};
ghost use Rattle.isl_elim.specs.Solved.{IsUnitEquality, IsUnitEqualityOf, IsSubstituted, short_image};
ghost use Rattle.isl_elim.specs.Tame.{IsTameOn};

use isl_meter::{Cut, Int, Meter};
use isl_omega::column::Column;
use isl_omega::combine::{Multiple, weighted_without};
use isl_piece::{Row, RowKind, Rows, sum_of};
use std::alloc::Global;

// Whether the row is an equality that has the column with 1 or -1.
fn is_unit_equality(row: &Row, col: usize) -> bool
    ensures { IsTrue result → IsUnitEquality col row.now }
{
    if row.kind != RowKind::Zero || col >= row.coefs.len() {
        return false;
    }
    let own = row.coefs.get(col);
    own == Int::ONE || own == Int::new(-1)
}

// Of rows over so many columns, the place of an equality that has the column with 1 or -1.
pub(crate) fn unit_at(rows: &[Row], col: usize) -> Option<usize>
    ensures { IfSome result (λ at. (at < length rows.now) × ((d : Row) → IsUnitEquality col (slice_index_or rows.now at d))) }
{
    for i in 0..rows.len() {
        if is_unit_equality(&rows[i], col) {
            return Some(i);
        }
    }
    None
}

// The place of an equality, and a column that it has with 1 or -1.
#[derive(Clone, Copy)]
pub(crate) struct UnitEquality {
    pub at: usize,
    pub col: usize,
}

// The last column that the row, where it is an equality, has with 1 or -1.
fn unit_column(row: &Row) -> Option<usize>
    ensures { IfSome result (λ col. IsUnitEquality col row.now × (col < length row.now.coefs)) }
{
    if row.kind != RowKind::Zero {
        return None;
    }
    let columns = row.coefs.len();
    for behind in 0..columns {
        let col = columns - behind - 1;
        if is_unit_equality(row, col) {
            return Some(col);
        }
    }
    None
}

// The first of the rows that is an equality which has some column with 1 or -1.
pub(crate) fn unit_equality(rows: &[Row]) -> Option<UnitEquality>
    ensures { IfSome result (IsUnitEqualityOf rows.now) }
{
    for at in 0..rows.len() {
        if let Some(col) = unit_column(&rows[at]) {
            return Some(UnitEquality { at, col });
        }
    }
    None
}

// Makes a row what it is where `fixed` is 0, without the column. One that does not have the column stays where it lies.
fn substitute(
    alloc: Global,
    row: &mut Row,
    fixed: &Row,
    column: Column,
    meter: &mut Meter,
) -> Result<(), Cut>
    requires row { IsProper meter.old column.columns row.old }
    requires fixed { IsProper meter.old column.columns fixed.now }
    requires unit { IsUnitEquality column.at fixed.now }
    ensures exact { IsDone meter.old meter.new
        (λ _. (row.new ≡ short_image fixed.now column.at row.old) × IsRowWithin meter.old row.new) result }
    ensures no_overflow { (w : ℕ) → IsRowUpToAt column.at 1 w row.old → IsRowUpToAt column.at 1 w fixed.now
        → 1 * w + 1 * w < 2 ^ meter.old.bits → IsNoOverflow result }
    ensures answered { IsAnsweredFor 0 meter.old meter.new result }
{
    let own = row.coefs.get(column.at);
    if own.is_zero() {
        row.coefs.remove(column.at);
        return Ok(());
    }
    let n = own
        .times_sign_of(fixed.coefs.get(column.at), meter)
        .neg(meter);
    let left = Multiple {
        times: Int::ONE,
        numbers: row.coefs.as_slice(),
    };
    let right = Multiple {
        times: n,
        numbers: fixed.coefs.as_slice(),
    };
    let coefs = weighted_without(alloc, &left, &right, column.at, meter)?;
    let constant = sum_of(Int::ONE, row.constant(), n, fixed.constant(), meter)?;
    row.coefs = coefs;
    row.set_constant(constant);
    Ok(())
}

/// The rows where that equality is 0, without the column: they hold at a point exactly where some whole number at the column makes the
/// rows hold. Rows are changed where they lie, and are not made normal: of the equality itself a row stays that always holds. No unit
/// is used. (Pugh, the Omega test: substitution by an equality)
///
/// # Errors
///
/// `Overflow` where a number passes the limit of the meter, and `NoMemory`.
pub(crate) fn substituted(
    alloc: Global,
    rows: Rows,
    at: usize,
    column: Column,
    meter: &mut Meter,
) -> Result<Rows, Cut>
    requires rows { All (IsProper meter.old column.columns) rows }
    requires inside { at < length rows }
    requires unit { (d : Row) → IsUnitEquality column.at (slice_index_or rows at d) }
    ensures exact { IsDone meter.old meter.new (IsSubstituted meter.old column.columns column.at rows) result }
    ensures tame { IsTameOn 1 (λ bits. All (IsDifferenceRow bits) rows) 0 meter.old meter.new
        (λ bits short. All (IsDifferenceRow (bits + 1)) short) result }
{
    let mut short = Vec::from(rows);
    let fixed = short[at].copy(alloc)?;
    for i in 0..short.len() {
        substitute(alloc, &mut short[i], &fixed, column, meter)?;
    }
    Ok(Rows::from(short))
}
