//! Several columns out of rows together.

ghost use Rattle.std.specs.Prelude.{◌≡◌, ◌≢◌, ◌<◌, ◌≤◌, ◌+◌, ◌*◌, ℕ, ℤ, List, [], All, AllPairs, IfOk, IfSome, MatchOption, MatchResult, false, length};
ghost use Rattle.isl_meter.specs.Gauge.{IsCharged, IsCutBy, IsDone};
ghost use Rattle.isl_piece.specs.Normal.{IsNormal};
ghost use Rattle.isl_piece.specs.System.{HoldRows};
ghost use Rattle.isl_omega.specs.Column.{IsProper};
ghost use Rattle.isl_elim.specs.Elimination.{AddsAlong};
ghost use Rattle.isl_presolve.specs.Emptiness.{HoldNowhere};
ghost use Rattle.isl_presolve.specs.Fixed.{HoldAlike};
ghost use Rattle.isl_elim.specs.Narrow.{IsNarrow};
ghost use Rattle.isl_elim.specs.Others.{others_of};
ghost use Rattle.isl_elim.specs.Solved.{IsGivenBy};
ghost use Rattle.isl_elim.specs.Tame.{AreFewDifferences, AddsFewDifferences, IsDifferenceHead, IsTameOn};
ghost use Rattle.isl_column.specs.Parts.{AreParts, HoldsPart, head_count};
ghost use Rattle.isl_ledger.specs.Difference.{IsDifferenceRow};

use crate::emptiness::hold_nowhere;
use crate::narrow::{Narrow, narrow_among, without_narrow};
use crate::solved::{substituted, unit_at};
use isl_column::{Parts, push_list};
use isl_meter::{Cut, Meter};
use isl_omega::column::Column;
use isl_piece::{Row, Rows};
use isl_presolve::{add_many_rows, cheapest, with_fixed};
use isl_redundant::without_redundant;
use std::alloc::{AllocError, Global};

// How many parts are taken as they come. The later ones are tested first: of many splinters most hold nowhere.
const FEW_PARTS: usize = 4;

// The other columns, where they stand once the column was taken out.
#[tactic(auto, using(std::proofs::lemmas::Grind::common_steps, crate::proofs::OthersLaws::others_steps))]
fn others(alloc: Global, cols: &[usize], col: usize) -> Result<Vec<usize>, AllocError>
    ensures { IfOk result (λ left. left.items ≡ others_of col cols.now) }
{
    let mut left = Vec::with_capacity(alloc, cols.len())?;
    for &other in cols {
        if other < col {
            left.push(other)?;
        } else if other > col {
            left.push(other - 1)?;
        }
    }
    Ok(left)
}

// Normal rows that hold at the same points: where a congruence and bounds leave one number at a column they say so, and where many pairs
// of bounds come next some are gone that the others imply; none where they are seen to hold nowhere.
#[tactic(auto, using(std::proofs::lemmas::Grind::common_steps, crate::proofs::FewerLaws::fewer_steps))]
fn simpler(
    alloc: Global,
    rows: Rows,
    columns: usize,
    cols: &[usize],
    meter: &mut Meter,
) -> Result<Option<Rows>, Cut>
    requires rows { All (IsProper meter.old columns) rows }
    requires normal { IsNormal rows }
    ensures exact { IsDone meter.old meter.new
        (λ found. MatchOption found (HoldNowhere columns rows) (HoldAlike meter.old columns rows)) result }
    ensures tame { IsTameOn (length cols.now) (λ bits. All (IsDifferenceRow bits) rows) 0 meter.old meter.new
        (λ bits found. IfSome found (All (IsDifferenceRow bits))) result }
{
    let Some(fixed) = with_fixed(alloc, rows, columns, meter)? else {
        return Ok(None);
    };
    if !add_many_rows(fixed.as_slice(), cols) {
        return Ok(Some(fixed));
    }
    let few = without_redundant(alloc, fixed, columns, meter)?;
    Ok(few)
}

// Pushes what is left of the rows without the columns: first without those between two opposite bounds.
#[cycle(eliminate_all)]
#[tactic(auto, using(crate::proofs::AlongLaws::along_steps))]
fn push_without(
    alloc: Global,
    rows: Rows,
    columns: usize,
    cols: &[usize],
    lists: &mut Vec<Rows>,
    meter: &mut Meter,
) -> Result<(), Cut>
    requires rows { All (IsProper meter.old columns) rows }
    requires normal { IsNormal rows }
    requires distinct { AllPairs (λ a b. a ≢ b) cols.now }
    requires cols_in { All (λ col. col < columns) cols.now }
    ensures exact { MatchResult result
        (λ _. AddsAlong meter.old columns cols.now (HoldRows rows) lists.old.items lists.new.items × IsCharged meter.old meter.new)
        (IsCutBy meter.old meter.new) }
    ensures counted { IfOk result (λ _. meter.old.units + length lists.new.items ≤ meter.new.units + (length lists.old.items + 1)) }
    ensures tame { IsTameOn (length cols.now) (λ bits. All (IsDifferenceRow bits) rows) (length cols.now * (columns * columns))
        meter.old meter.new (λ bits _. AddsFewDifferences (bits + length cols.now) lists.old.items lists.new.items) result }
{
    match narrow_among(rows.as_slice(), cols, meter) {
        Some(narrow) => push_narrow(alloc, rows, narrow, columns, cols, lists, meter),
        None => push_by_parts(alloc, rows, columns, cols, lists, meter),
    }
}

// The same, where a column lies between two opposite bounds: that column goes first, and leaves one list of rows at most.
#[cycle(eliminate_all)]
#[tactic(auto, using(crate::proofs::AlongLaws::along_steps))]
fn push_narrow(
    alloc: Global,
    rows: Rows,
    narrow: Narrow,
    columns: usize,
    cols: &[usize],
    lists: &mut Vec<Rows>,
    meter: &mut Meter,
) -> Result<(), Cut>
    requires rows { All (IsProper meter.old columns) rows }
    requires narrow { IsNarrow rows cols.now narrow }
    requires distinct { AllPairs (λ a b. a ≢ b) cols.now }
    requires cols_in { All (λ col. col < columns) cols.now }
    ensures exact { MatchResult result
        (λ _. AddsAlong meter.old columns cols.now (HoldRows rows) lists.old.items lists.new.items × IsCharged meter.old meter.new)
        (IsCutBy meter.old meter.new) }
    ensures counted { IfOk result (λ _. meter.old.units + length lists.new.items ≤ meter.new.units + (length lists.old.items + 1)) }
{
    let left = others(alloc, cols, narrow.col)?;
    let column = Column {
        columns,
        at: narrow.col,
    };
    match without_narrow(alloc, rows, narrow, column, meter)? {
        None => Ok(()),
        Some(short) => push_without(alloc, short, columns - 1, left.as_slice(), lists, meter),
    }
}

// The same, one column after another, each by the parts that are left without it.
#[cycle(eliminate_all)]
#[tactic(auto, using(crate::proofs::AlongLaws::along_steps))]
fn push_by_parts(
    alloc: Global,
    rows: Rows,
    columns: usize,
    cols: &[usize],
    lists: &mut Vec<Rows>,
    meter: &mut Meter,
) -> Result<(), Cut>
    requires rows { All (IsProper meter.old columns) rows }
    requires normal { IsNormal rows }
    requires distinct { AllPairs (λ a b. a ≢ b) cols.now }
    requires cols_in { All (λ col. col < columns) cols.now }
    ensures exact { MatchResult result
        (λ _. AddsAlong meter.old columns cols.now (HoldRows rows) lists.old.items lists.new.items × IsCharged meter.old meter.new)
        (IsCutBy meter.old meter.new) }
    ensures counted { IfOk result (λ _. meter.old.units + length lists.new.items ≤ meter.new.units + (length lists.old.items + 1)) }
    ensures tame { IsTameOn (length cols.now) (λ bits. All (IsDifferenceRow bits) rows) (length cols.now * (columns * columns))
        meter.old meter.new (λ bits _. AddsFewDifferences (bits + length cols.now) lists.old.items lists.new.items) result }
{
    if cols.is_empty() {
        push_list(lists, rows, columns)?;
        return Ok(());
    }
    let Some(few) = simpler(alloc, rows, columns, cols, meter)? else {
        return Ok(());
    };
    let at = cheapest(few.as_slice(), cols);
    let col = cols[at];
    let left = others(alloc, cols, col)?;
    let parts = Parts::of(alloc, few.as_slice(), Column { columns, at: col }, meter)?;
    push_parts(alloc, parts, columns - 1, left.as_slice(), lists, meter)
}

// Pushes what is left of the rows without the columns; where they are tested, only if they hold somewhere.
#[cycle(eliminate_all)]
#[tactic(auto, using(crate::proofs::AlongLaws::along_steps))]
fn push_some(
    alloc: Global,
    rows: Rows,
    columns: usize,
    cols: &[usize],
    test: bool,
    lists: &mut Vec<Rows>,
    meter: &mut Meter,
) -> Result<(), Cut>
    requires rows { All (IsProper meter.old columns) rows }
    requires normal { IsNormal rows }
    requires distinct { AllPairs (λ a b. a ≢ b) cols.now }
    requires cols_in { All (λ col. col < columns) cols.now }
    ensures exact { MatchResult result
        (λ _. AddsAlong meter.old columns cols.now (HoldRows rows) lists.old.items lists.new.items × IsCharged meter.old meter.new)
        (IsCutBy meter.old meter.new) }
    ensures counted { IfOk result (λ _. meter.old.units + length lists.new.items ≤ meter.new.units + (length lists.old.items + 1)) }
    ensures tame { test ≡ false → IsTameOn (length cols.now) (λ bits. All (IsDifferenceRow bits) rows) (length cols.now * (columns * columns))
        meter.old meter.new (λ bits _. AddsFewDifferences (bits + length cols.now) lists.old.items lists.new.items) result }
{
    if !test {
        return push_without(alloc, rows, columns, cols, lists, meter);
    }
    if hold_nowhere(alloc, rows.copy(alloc)?, columns, meter)? {
        return Ok(());
    }
    push_without(alloc, rows, columns, cols, lists, meter)
}

// Pushes what is left of the parts without the columns.
#[cycle(eliminate_all)]
#[tactic(auto, using(crate::proofs::AlongLaws::along_steps))]
fn push_parts(
    alloc: Global,
    mut parts: Parts,
    columns: usize,
    cols: &[usize],
    lists: &mut Vec<Rows>,
    meter: &mut Meter,
) -> Result<(), Cut>
    requires parts { AreParts meter.old columns parts }
    requires distinct { AllPairs (λ a b. a ≢ b) cols.now }
    requires cols_in { All (λ col. col < columns) cols.now }
    ensures exact { MatchResult result
        (λ _. AddsAlong meter.old columns cols.now (HoldsPart parts) lists.old.items lists.new.items × IsCharged meter.old meter.new)
        (IsCutBy meter.old meter.new) }
    ensures counted { IfOk result (λ _. meter.old.units + length lists.new.items ≤ meter.new.units + (length lists.old.items + head_count parts)) }
    ensures tame { IsTameOn (length cols.now) (IsDifferenceHead parts) (length cols.now * (columns * columns)) meter.old meter.new
        (λ bits _. AddsFewDifferences (bits + length cols.now) lists.old.items lists.new.items) result }
{
    let mut taken: usize = 0;
    while let Some(rows) = parts.next(alloc, columns, meter)? {
        push_some(alloc, rows, columns, cols, taken >= FEW_PARTS, lists, meter)?;
        taken = taken.saturating_add(1);
    }
    Ok(())
}

// What is left of the rows without the columns, once they are normal.
#[tactic(auto, using(crate::proofs::AlongLaws::along_steps))]
fn normal_without(
    alloc: Global,
    rows: Rows,
    columns: usize,
    cols: &[usize],
    meter: &mut Meter,
) -> Result<Vec<Rows>, Cut>
    requires rows { All (IsProper meter.old columns) rows }
    requires distinct { AllPairs (λ a b. a ≢ b) cols.now }
    requires cols_in { All (λ col. col < columns) cols.now }
    ensures exact { MatchResult result
        (λ lists. AddsAlong meter.old columns cols.now (HoldRows rows) [] lists.items × IsCharged meter.old meter.new)
        (IsCutBy meter.old meter.new) }
    ensures counted { IfOk result (λ lists. meter.old.units + length lists.items ≤ meter.new.units + 1) }
    ensures tame { IsTameOn (length cols.now) (λ bits. All (IsDifferenceRow bits) rows) (length cols.now * (columns * columns))
        meter.old meter.new (λ bits lists. AreFewDifferences (bits + length cols.now) lists.items) result }
{
    match rows.normalise(alloc, meter)? {
        None => Ok(Vec::new(alloc)),
        Some(normal) => {
            let mut lists = Vec::new(alloc);
            push_without(alloc, normal, columns, cols, &mut lists, meter)?;
            Ok(lists)
        }
    }
}

// A column, and the place of an equality that has it with 1 or -1.
#[derive(Clone, Copy)]
struct Given {
    col: usize,
    at: usize,
}

// The first of the columns that an equality has with 1 or -1, and the place of that equality.
fn given_column(rows: &[Row], cols: &[usize]) -> Option<Given>
    ensures { IfSome result (IsGivenBy rows.now cols.now) }
{
    for &col in cols {
        if let Some(at) = unit_at(rows, col) {
            return Some(Given { col, at });
        }
    }
    None
}

/// What is left of the rows without the columns: lists of normal rows. Columns that an equality has with 1 or -1 go first, by
/// substitution where the rows lie, which uses no unit; only then the rows are made normal.
#[tactic(auto, using(crate::proofs::GivenLaws::solved_steps))]
pub(crate) fn rows_without(
    alloc: Global,
    rows: Rows,
    columns: usize,
    cols: &[usize],
    meter: &mut Meter,
) -> Result<Vec<Rows>, Cut>
    requires rows { All (IsProper meter.old columns) rows }
    requires distinct { AllPairs (λ a b. a ≢ b) cols.now }
    requires cols_in { All (λ col. col < columns) cols.now }
    ensures exact { MatchResult result
        (λ lists. AddsAlong meter.old columns cols.now (HoldRows rows) [] lists.items × IsCharged meter.old meter.new)
        (IsCutBy meter.old meter.new) }
    ensures counted { IfOk result (λ lists. meter.old.units + length lists.items ≤ meter.new.units + 1) }
    ensures tame { IsTameOn (length cols.now) (λ bits. All (IsDifferenceRow bits) rows) (length cols.now * (columns * columns))
        meter.old meter.new (λ bits lists. AreFewDifferences (bits + length cols.now) lists.items) result }
{
    let Some(given) = given_column(rows.as_slice(), cols) else {
        return normal_without(alloc, rows, columns, cols, meter);
    };
    let left = others(alloc, cols, given.col)?;
    let column = Column {
        columns,
        at: given.col,
    };
    let short = substituted(alloc, rows, given.at, column, meter)?;
    rows_without(alloc, short, columns - 1, left.as_slice(), meter)
}
