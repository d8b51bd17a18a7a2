//! One column out of rows.

ghost use Rattle.std.specs.Prelude.{◌≡◌, ◌≢◌, ◌-◌, ◌≤ℤ◌, ◌+ℤ◌, pos, All, length, IfOk, option_to_list, ◌+◌, ◌≤◌};
ghost use Rattle.isl_meter.specs.Gauge.{IsMetered};
ghost use Rattle.isl_piece.specs.Normal.{IsNormal};
ghost use Rattle.isl_shadows.specs.Column.{IsProjectionOf};
ghost use Rattle.isl_shadows.specs.Exact.{IsExactColumn, exact_rows, pairs_on};
ghost use Rattle.isl_omega.specs.Column.{IsProper};
ghost use Rattle.isl_omega.specs.Equality.{HasEquality};
ghost use Rattle.isl_shadows.specs.Solved.{solved_rows};
ghost use Rattle.isl_shadows.specs.Tame.{IsTameColumn};
ghost use Rattle.isl_shadows.specs.Units.{elimination_units};
ghost use Rattle.isl_shadows.specs.Magnitude.{HaveSmallNumbers, HaveOneCongruence};

use crate::lists::push_list;
use crate::parts::Parts;
use isl_meter::{Cut, Meter};
use isl_omega::column::Column;
use isl_piece::{Row, Rows};
use std::alloc::Global;

/// The rows without the column: lists of rows, of which one holds at a point exactly where some whole number put at the column
/// makes `rows` hold. Each list is in normal form.
///
/// Where an equality has the column, no unit is used; else at most `elimination_units`, at least one for each pair of a lower and an
/// upper bound, and at least one for each list that is answered but the first. Where one has it, or the column is exact, what is
/// answered is a function of the rows: at most one list.
///
/// # Errors
///
/// `Overflow` where a number passes the limit of the meter, `Budget` where its units are used up, and `NoMemory`. A limit
/// of 127 bits is not passed where the numbers are at most `2^30` and at most one congruence has the column. Where an equality has it, or it
/// is exact, `IsTameColumn` tells from which limit and how many units on `NoMemory` alone is left.
pub fn eliminate_rows(
    alloc: Global,
    rows: &[Row],
    column: Column,
    meter: &mut Meter,
) -> Result<Vec<Rows>, Cut>
    requires rows { All (IsProper meter.old column.columns) rows.now }
    ensures projection { IfOk result (λ answers. IsProjectionOf column.columns rows.now column.at answers.items) }
    ensures proper { IfOk result (λ answers. All (All (IsProper meter.old (column.columns - 1))) answers.items) }
    ensures normal { IfOk result (λ answers. All IsNormal answers.items) }
    ensures exact_column { IsExactColumn column.at rows.now → ¬ HasEquality column.at rows.now
        → IfOk result (λ answers. answers.items ≡ option_to_list (exact_rows rows.now column.at)) }
    ensures solved_column { HasEquality column.at rows.now → IfOk result
        (λ answers. answers.items ≡ option_to_list (solved_rows rows.now column.at)) }
    ensures meter { IsMetered meter.old meter.new result }
    ensures units { pos meter.new.units ≤ℤ (pos meter.old.units +ℤ elimination_units rows.now column.at) }
    ensures equality { HasEquality column.at rows.now → meter.new.units ≡ meter.old.units }
    ensures magnitude { meter.old.bits ≡ 127 → HaveSmallNumbers rows.now → HaveOneCongruence rows.now column.at
        → result ≢ Err Cut.Overflow }
    ensures pairs { ¬ HasEquality column.at rows.now → IfOk result (λ _. meter.old.units + pairs_on column.at rows.now ≤ meter.new.units) }
    ensures counted { IfOk result (λ answers. length answers.items + meter.old.units ≤ meter.new.units + 1) }
    ensures tame { IsTameColumn meter.old meter.new rows.now column.at result }
{
    let mut parts = Parts::of(alloc, rows, column, meter)?;
    let mut answers = Vec::new(alloc);
    while let Some(left) = parts.next(alloc, column.columns - 1, meter)? {
        push_list(&mut answers, left, column.columns)?;
    }
    Ok(answers)
}
