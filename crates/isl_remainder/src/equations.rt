//! What is left of a system without its last columns, where equations that give a column are put into its other rows first.

ghost use Rattle.std.specs.Prelude.{◌≡◌, ◌+◌, ◌<◌, ◌≤◌, ℕ, ℤ, pos, All, IfOk, IfSome, length, slice_index_or};
ghost use Rattle.isl_meter.specs.Gauge.{IsDone, IsMetered};
ghost use Rattle.isl_piece.specs.declared.row.Row.{Row};
ghost use Rattle.isl_piece.specs.declared.row.RowKind.TheVariants.{Zero};
ghost use Rattle.isl_piece.specs.Combine.{combination};
ghost use Rattle.isl_piece.specs.Row.{IsRowWithin, IsWellFormed};
ghost use Rattle.isl_piece.specs.System.{IsSystemWithin, free_columns};
ghost use Rattle.isl_blocks.specs.Left.{IsLeftWithout};
ghost use Rattle.isl_remainder.specs.Solved.{AreAlike, IsSolvedFrom};

use isl_blocks::live_without;
use isl_meter::{Cut, Int, Meter};
use isl_piece::{Row, RowKind, Rows, System, combination};
use std::alloc::Global;

// The last of the first `free` columns that the row gives by the others: an equation that has it with the coefficient 1 or -1.
fn given_column(row: &Row, free: usize) -> Option<usize>
    requires { free ≤ length row.now.coefs }
    ensures { IfSome result (λ col. (row.now.kind ≡ Zero) × (col < free)) }
{
    if row.kind != RowKind::Zero {
        return None;
    }
    let mut found = None;
    for col in 0..free {
        let number = row.coefs.get(col).get();
        if number == 1 || number == -1 {
            found = Some(col);
        }
    }
    found
}

// The row without the column, for an equation that has it with the coefficient 1 or -1: the equation is put into the row.
fn put_into(
    alloc: Global,
    row: &Row,
    equation: &Row,
    col: usize,
    meter: &mut Meter,
) -> Result<Row, Cut>
    requires row { IsRowWithin meter.old row.now }
    requires equation { IsRowWithin meter.old equation.now }
    requires width { length row.now.coefs ≡ length equation.now.coefs }
    requires inside { col < length row.now.coefs }
    ensures { IsDone meter.old meter.new
        (λ made. ((n : ℤ) × (made ≡ combination (pos 1) row.now n equation.now)) × IsRowWithin meter.old made) result }
{
    // For what a meter keeps: it has at least 8 bits.
    let _limit = meter.limit();
    let own = row.coefs.get(col);
    let times = own.times_sign_of(equation.coefs.get(col), meter);
    combination(alloc, Int::ONE, row, times.neg(meter), equation, meter)
}

// The rows where the equation at a place was put into the others that have the column.
fn put_into_others(
    alloc: Global,
    rows: Rows,
    at: usize,
    col: usize,
    meter: &mut Meter,
) -> Result<Rows, Cut>
    requires inside { at < length rows }
    requires equation { (d : Row) → (slice_index_or rows at d).kind ≡ Zero }
    requires formed { (columns : ℕ) × All (IsWellFormed columns) rows × (col < columns) }
    requires within { All (IsRowWithin meter.old) rows }
    ensures { IsDone meter.old meter.new (AreAlike meter.old rows) result }
{
    let mut made = rows;
    for into in 0..made.len() {
        let slice = made.as_slice();
        if into == at || slice[into].coefs.get(col).is_zero() {
            continue;
        }
        let row = put_into(alloc, &slice[into], &slice[at], col, meter)?;
        made.replace(into, row);
    }
    Ok(made)
}

// The system where each equation that gives a column by the others was put into its other rows: they hold at the same points. Rows that
// are parallel but for such equations are so then. No unit is used.
#[tactic(auto, using(std::proofs::lemmas::Grind::common_steps, isl_meter::proofs::CutLemmas::charges))]
fn solved(alloc: Global, system: System, meter: &mut Meter) -> Result<System, Cut>
    requires { IsSystemWithin meter.old system }
    ensures made { IfOk result (IsSolvedFrom meter.old system) }
    ensures meter { IsMetered meter.old meter.new result }
{
    let free = system.free();
    let System {
        columns,
        definitions,
        mut rows,
    } = system;
    for at in 0..rows.len() {
        if let Some(col) = given_column(&rows.as_slice()[at], free) {
            rows = put_into_others(alloc, rows, at, col, meter)?;
        }
    }
    Ok(System::over(columns, definitions, rows))
}

/// What is left of the system over the first `kept` of its free columns, without the last `count`: systems of which each has a point. What
/// equations give is put into the other rows first, so that bounds of the same number are not taken for bounds of two.
#[tactic(auto, using(std::proofs::lemmas::Grind::common_steps, isl_meter::proofs::CutLemmas::charges))]
pub fn left_without(
    alloc: Global,
    system: &System,
    kept: usize,
    count: usize,
    meter: &mut Meter,
) -> Result<Vec<System>, Cut>
    requires within { IsSystemWithin meter.old system.now }
    requires columns { free_columns system.now ≡ kept + count }
    ensures left { IfOk result (λ systems. IsLeftWithout meter.old system.now kept count systems.items) }
    ensures meter { IsMetered meter.old meter.new result }
{
    let simple = solved(alloc, system.copy(alloc)?, meter)?;
    live_without(alloc, &simple, kept, count, meter)
}
