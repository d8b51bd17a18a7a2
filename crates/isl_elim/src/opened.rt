//! Systems in which defined columns are free.

ghost use Rattle.std.specs.Prelude.{◌≡◌, ◌<◌, ◌≤◌, [], ◌∷◌, ◌++◌, negsuc, All, IfOk, IfSome, MatchOption, length};
ghost use Rattle.isl_math.specs.Dot.{scaled};
ghost use Rattle.isl_meter.specs.Gauge.{IsDone, IsWithin};
ghost use Rattle.isl_omega.specs.Column.{IsProper};
ghost use Rattle.isl_piece.specs.Definition.{IsDefinition};
ghost use Rattle.isl_piece.specs.System.{HoldsSystem, IsSystemWithin, free_columns};
ghost use Rattle.isl_elim.specs.Opened.{AreOpened, definition_rows, padded, least_row, most_row, opened_rows};
ghost use Rattle.isl_elim.specs.Sample.{IsNowhere};
ghost use Rattle.isl_elim.specs.Tame.{IsPlainDifference, IsTameOn};
ghost use Rattle.isl_ledger.specs.Difference.{IsDifferenceRow};

use crate::dependents::{column_of, is_among};
use isl_meter::{Cut, Int, Meter};
use isl_piece::{Coefs, Definition, Row, RowKind, Rows, System};
use std::alloc::{AllocError, Global};

// The coefficients, and 0 at the columns behind them.
fn padded(coefs: Coefs, columns: usize) -> Result<Coefs, AllocError>
    requires { length coefs ≤ columns }
    ensures { IfOk result (λ wide. wide ≡ padded columns coefs) }
{
    let zeros = columns - coefs.len();
    let mut wide = coefs;
    for i in 0..zeros {
        wide.push(Int::ZERO)?;
    }
    Ok(wide)
}

// The negatives of the numbers.
#[tactic(auto, using(std::proofs::lemmas::Grind::common_steps, crate::proofs::OpenedLaws::row_steps))]
fn negatives(alloc: Global, numbers: &[Int], meter: &Meter) -> Result<Coefs, AllocError>
    requires { All (IsWithin meter.now) numbers.now }
    ensures { IfOk result (λ coefs. coefs ≡ scaled (negsuc 0) numbers.now) }
{
    let mut coefs = Coefs::new(alloc);
    for i in 0..numbers.len() {
        coefs.push(numbers[i].neg(meter))?;
    }
    Ok(coefs)
}

// The row that the form is at least `k` times the column.
#[tactic(auto, using(std::proofs::lemmas::Grind::common_steps, crate::proofs::OpenedLaws::row_steps))]
fn least_row(
    alloc: Global,
    definition: &Definition,
    columns: usize,
    meter: &Meter,
) -> Result<Row, AllocError>
    requires definition { IsDefinition meter.now (length definition.now.coefs) definition.now }
    requires column { length definition.now.coefs < columns }
    ensures { IfOk result (λ row. row ≡ least_row columns definition.now) }
{
    let mut coefs = definition.coefs.copy(alloc)?;
    coefs.push(Int::new(definition.k).neg(meter))?;
    let wide = padded(coefs, columns)?;
    let constant = Int::new(definition.constant);
    Ok(Row::new(RowKind::AtLeast, wide, constant, Int::ONE))
}

// The row that it is at most `k - 1` more.
#[tactic(auto, using(std::proofs::lemmas::Grind::common_steps, crate::proofs::OpenedLaws::row_steps))]
fn most_row(
    alloc: Global,
    definition: &Definition,
    columns: usize,
    meter: &mut Meter,
) -> Result<Row, Cut>
    requires definition { IsDefinition meter.old (length definition.now.coefs) definition.now }
    requires column { length definition.now.coefs < columns }
    ensures { IsDone meter.old meter.new (λ row. (row ≡ most_row columns definition.now) × IsWithin meter.old row.constant) result }
{
    let greatest = Int::new(definition.k).sub(Int::ONE, meter)?;
    let constant = greatest.sub(Int::new(definition.constant), meter)?;
    let mut coefs = negatives(alloc, definition.coefs.as_slice(), meter)?;
    coefs.push(Int::new(definition.k))?;
    let wide = padded(coefs, columns)?;
    Ok(Row::new(RowKind::AtLeast, wide, constant, Int::ONE))
}

// Puts the rows of a definition behind the others.
#[tactic(auto, using(std::proofs::lemmas::Grind::common_steps, crate::proofs::OpenedLaws::row_steps))]
fn push_definition(
    alloc: Global,
    definition: &Definition,
    columns: usize,
    rows: &mut Rows,
    meter: &mut Meter,
) -> Result<(), Cut>
    requires definition { IsDefinition meter.old (length definition.now.coefs) definition.now }
    requires column { length definition.now.coefs < columns }
    requires rows { All (IsProper meter.old columns) rows.old }
    ensures { IsDone meter.old meter.new (λ _. (rows.new ≡ rows.old ++ least_row columns definition.now ∷ most_row columns definition.now ∷ [])
        × All (IsProper meter.old columns) rows.new) result }
{
    let least = least_row(alloc, definition, columns, meter)?;
    let most = most_row(alloc, definition, columns, meter)?;
    rows.push(least)?;
    rows.push(most)?;
    Ok(())
}

/// The rows of the system, and those of the definitions whose columns are among these.
#[tactic(auto, using(std::proofs::lemmas::Grind::common_steps, crate::proofs::OpenedLaws::opening_steps))]
pub(crate) fn opened_rows(
    alloc: Global,
    system: &System,
    cols: &[usize],
    meter: &mut Meter,
) -> Result<Rows, Cut>
    requires well_formed { IsSystemWithin meter.old system.now }
    ensures exact { IsDone meter.old meter.new (λ rows. (rows ≡ opened_rows system.now cols.now) × All (IsProper meter.old system.now.columns) rows) result }
    ensures tame { IsTameOn (length cols.now) (IsPlainDifference system.now) 0 meter.old meter.new
        (λ bits rows. All (IsDifferenceRow bits) rows) result }
{
    let definitions = system.definitions.as_slice();
    let mut rows = system.rows.copy(alloc)?;
    for i in 0..definitions.len() {
        if !is_among(column_of(system, i), cols) {
            continue;
        }
        push_definition(alloc, &definitions[i], system.columns, &mut rows, meter)?;
    }
    Ok(rows)
}

/// The rows of the system, in which each defined column is free.
#[tactic(auto, using(std::proofs::lemmas::Grind::common_steps, crate::proofs::OpenedLaws::opening_steps))]
pub(crate) fn all_opened(alloc: Global, system: &System, meter: &mut Meter) -> Result<Rows, Cut>
    requires well_formed { IsSystemWithin meter.old system.now }
    ensures exact { IsDone meter.old meter.new
        (λ rows. (rows ≡ system.now.rows ++ definition_rows system.now.columns system.now.definitions)
        × All (IsProper meter.old system.now.columns) rows) result }
    ensures tame { IsTameOn system.now.columns (IsPlainDifference system.now) 0 meter.old meter.new (λ bits rows. All (IsDifferenceRow bits) rows) result }
{
    let mut rows = system.rows.copy(alloc)?;
    for definition in system.definitions.as_slice() {
        push_definition(alloc, definition, system.columns, &mut rows, meter)?;
    }
    Ok(rows)
}

/// The normal rows of the system, in which each defined column is free; none where one of them holds nowhere.
#[tactic(auto, using(std::proofs::lemmas::Grind::common_steps, crate::proofs::OpenedLaws::opening_steps))]
pub(crate) fn opened(alloc: Global, system: &System, meter: &mut Meter) -> Result<Option<Rows>, Cut>
    requires well_formed { IsSystemWithin meter.old system.now }
    ensures exact { IsDone meter.old meter.new
        (λ found. MatchOption found (IsNowhere (free_columns system.now) (HoldsSystem system.now)) (AreOpened meter.old system.now)) result }
    ensures tame { IsTameOn system.now.columns (IsPlainDifference system.now) 0 meter.old meter.new (λ bits found. IfSome found (All (IsDifferenceRow bits))) result }
{
    let rows = all_opened(alloc, system, meter)?;
    match rows.normalise(alloc, meter)? {
        None => Ok(None),
        Some(normal) => Ok(Some(normal)),
    }
}
