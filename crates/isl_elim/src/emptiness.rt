//! Whether rows hold nowhere.

ghost use Rattle.std.specs.Prelude.{◌≡◌, ◌↔◌, ◌+◌, ◌*◌, ◌-◌, ◌<◌, ◌≤◌, ◌+ℤ◌, ◌≤ℤ◌, ℕ, ℤ, pos, List, All, [], ◌∷◌, None, IfOk, IfSome, IsTrue, MatchOption, MatchResult};
ghost use Rattle.isl_meter.specs.Gauge.{IsCharged, IsCutBy, IsDone, IsMetered};
ghost use Rattle.isl_piece.specs.Normal.{IsNormal};
ghost use Rattle.isl_omega.specs.Column.{IsProper};
ghost use Rattle.isl_shadows.specs.Units.{elimination_units};
ghost use Rattle.isl_shadows.specs.Magnitude.{IsSpared};
ghost use Rattle.isl_omega.specs.Equality.{HasEquality};
ghost use Rattle.isl_presolve.specs.Emptiness.{HoldNowhere};
ghost use Rattle.isl_presolve.specs.Shear.{IsReduction};
ghost use Rattle.isl_redundant.specs.Redundant.{IsReduced};
ghost use Rattle.isl_piece.specs.System.{HoldRows, HoldsSystem, IsSystemWithin, free_columns};
ghost use Rattle.isl_elim.specs.Sample.{IsNowhere};
ghost use Rattle.isl_elim.specs.Spent.{IsSpentOn};
ghost use Rattle.isl_elim.specs.Tame.{IsTameOn};
ghost use Rattle.isl_column.specs.Parts.{AreParts, AreNone, IsHeadAlone};
ghost use Rattle.isl_ledger.specs.Answered.{IsTame};
ghost use Rattle.isl_ledger.specs.Difference.{IsDifferenceRow};
ghost use Rattle.isl_ledger.specs.Work.{Size, HasSize};

use crate::opened::all_opened;
use crate::solved::{substituted, unit_equality};
use isl_column::{Parts, real_shadow};
use isl_meter::{Cut, Meter};
use isl_omega::column::Column;
use isl_piece::{Rows, System};
use isl_presolve::{
    add_many_rows, any_column, hold_at_guess, pairs_at, reduced, without_one_sided,
};
use isl_redundant::without_redundant;
use std::alloc::{AllocError, Global};

/// Whether no number makes rows over one column hold. This spends what elimination of the column does.
pub(crate) fn column_nowhere(alloc: Global, rows: &Rows, meter: &mut Meter) -> Result<bool, Cut>
    requires rows { All (IsProper meter.old 1) rows.now }
    ensures exact { MatchResult result (λ empty. (IsTrue empty ↔ HoldNowhere 1 rows.now) × IsCharged meter.old meter.new) (IsCutBy meter.old meter.new) }
    ensures units { pos meter.new.units ≤ℤ (pos meter.old.units +ℤ elimination_units rows.now 0) }
    ensures equality { HasEquality 0 rows.now → meter.new.units ≡ meter.old.units }
    ensures magnitude { IsSpared meter.old rows.now 0 result }
    ensures tame { IsNormal rows.now → IsTameOn 1 (λ bits. All (IsDifferenceRow bits) rows.now) 1 meter.old meter.new (λ _ _. Unit {0}) result }
{
    let mut parts = Parts::of(alloc, rows.as_slice(), Column { columns: 1, at: 0 }, meter)?;
    Ok(parts.next(alloc, 0, meter)?.is_none())
}

// From how many rows on those that the others imply are looked for.
const MANY_ROWS: usize = 10;

// The rows, where many pairs of bounds come next without some that the others imply; none where they are seen to hold nowhere.
#[tactic(auto, using(std::proofs::lemmas::Grind::common_steps, crate::proofs::FewerLaws::fewer_steps))]
fn fewer(
    alloc: Global,
    rows: Rows,
    columns: usize,
    meter: &Meter,
) -> Result<Option<Rows>, AllocError>
    requires rows { All (IsProper meter.now columns) rows }
    requires some { 0 < columns }
    ensures { IfOk result (λ found. MatchOption found ((point : List ℤ) → ¬ HoldRows rows point) (IsReduced columns rows)) }
{
    if rows.len() < MANY_ROWS {
        return Ok(Some(rows));
    }
    let col = any_column(rows.as_slice(), columns);
    if !add_many_rows(rows.as_slice(), &[col]) {
        return Ok(Some(rows));
    }
    without_redundant(alloc, rows, columns, meter)
}

// Rows that hold nowhere exactly where these do: those on a column that they bound on one side alone are gone, their numbers are smaller,
// and where many pairs of bounds come next they are fewer; none where they are seen to hold nowhere.
#[tactic(auto, using(std::proofs::lemmas::Grind::common_steps, crate::proofs::FewerLaws::fewer_steps))]
fn shorter(
    alloc: Global,
    rows: Rows,
    columns: usize,
    meter: &mut Meter,
) -> Result<Option<Rows>, Cut>
    requires rows { All (IsProper meter.old columns) rows }
    requires normal { IsNormal rows }
    requires some { 0 < columns }
    ensures exact { IsDone meter.old meter.new
        (λ found. MatchOption found (HoldNowhere columns rows) (IsReduction meter.old columns rows)) result }
    ensures tame { IsTameOn columns (λ bits. All (IsDifferenceRow bits) rows) 0 meter.old meter.new
        (λ bits found. IfSome found (All (IsDifferenceRow bits))) result }
{
    let two_sided = without_one_sided(rows, columns, meter);
    let Some(short) = reduced(alloc, two_sided, columns, meter)? else {
        return Ok(None);
    };
    let few = fewer(alloc, short, columns, meter)?;
    Ok(few)
}

// How many pairs are made at most to see whether a real shadow holds nowhere.
const MOST_PAIRS: usize = 4096;

// Whether the real shadows of the rows hold nowhere, one column after another. Then no point makes the rows hold; else one may, or none.
// Where a shadow would have many pairs, that is not looked at.
#[cycle(shadows)]
#[tactic(auto, using(crate::proofs::EmptinessLaws::emptiness_steps))]
fn shadows_hold_nowhere(
    alloc: Global,
    rows: &Rows,
    columns: usize,
    meter: &mut Meter,
) -> Result<bool, Cut>
    requires rows { All (IsProper meter.old columns) rows.now }
    ensures exact { MatchResult result
        (λ empty. (IsTrue empty → HoldNowhere columns rows.now) × IsCharged meter.old meter.new)
        (IsCutBy meter.old meter.new) }
{
    if columns == 0 || rows.is_empty() {
        return Ok(false);
    }
    let Some(few) = fewer(alloc, rows.copy(alloc)?, columns, meter)? else {
        return Ok(true);
    };
    let col = any_column(few.as_slice(), columns);
    if pairs_at(few.as_slice(), col) > MOST_PAIRS {
        return Ok(false);
    }
    match real_shadow(alloc, few.as_slice(), Column { columns, at: col }, meter)? {
        None => Ok(true),
        Some(shadow) => shadows_hold_nowhere(alloc, &shadow, columns - 1, meter),
    }
}

// Whether no point makes the rows hold, once their columns were changed so that numbers are small.
#[cycle(emptiness)]
#[tactic(auto, using(crate::proofs::EmptinessLaws::emptiness_steps))]
pub(crate) fn hold_nowhere(
    alloc: Global,
    rows: Rows,
    columns: usize,
    meter: &mut Meter,
) -> Result<bool, Cut>
    requires rows { All (IsProper meter.old columns) rows }
    requires normal { IsNormal rows }
    ensures exact { MatchResult result
        (λ empty. (IsTrue empty ↔ HoldNowhere columns rows) × IsCharged meter.old meter.new)
        (IsCutBy meter.old meter.new) }
    ensures tame { IsTameOn columns (λ bits. All (IsDifferenceRow bits) rows) (columns * (columns * columns)) meter.old meter.new (λ _ _. Unit {0}) result }
{
    if rows.is_empty() {
        return Ok(false);
    }
    if columns == 1 {
        return column_nowhere(alloc, &rows, meter);
    }
    if hold_at_guess(alloc, &rows, columns, meter)? {
        return Ok(false);
    }
    match shorter(alloc, rows, columns, meter)? {
        None => Ok(true),
        Some(short) => column_out(alloc, &short, columns, meter),
    }
}

// Whether no point makes the rows hold: one column is taken out, and then the others.
#[cycle(emptiness)]
#[tactic(auto, using(crate::proofs::EmptinessLaws::emptiness_steps))]
fn column_out(alloc: Global, rows: &Rows, columns: usize, meter: &mut Meter) -> Result<bool, Cut>
    requires rows { All (IsProper meter.old columns) rows.now }
    requires normal { IsNormal rows.now }
    requires some { 0 < columns }
    ensures exact { MatchResult result
        (λ empty. (IsTrue empty ↔ HoldNowhere columns rows.now) × IsCharged meter.old meter.new)
        (IsCutBy meter.old meter.new) }
    ensures tame { IsTameOn columns (λ bits. All (IsDifferenceRow bits) rows.now) (columns * (columns * columns)) meter.old meter.new (λ _ _. Unit {0}) result }
{
    let col = any_column(rows.as_slice(), columns);
    let mut parts = Parts::of(alloc, rows.as_slice(), Column { columns, at: col }, meter)?;
    let Some(head) = parts.take_head() else {
        return rest_is_empty(alloc, rows, parts, columns, meter);
    };
    if !hold_nowhere(alloc, head, columns - 1, meter)? {
        return Ok(false);
    }
    rest_is_empty(alloc, rows, parts, columns, meter)
}

// Whether no point makes some of the parts hold, which are left of the rows without one column. The real shadows of the rows come
// before splinters and residues.
#[cycle(emptiness)]
#[tactic(auto, using(crate::proofs::EmptinessLaws::emptiness_steps))]
fn rest_is_empty(
    alloc: Global,
    rows: &Rows,
    parts: Parts,
    columns: usize,
    meter: &mut Meter,
) -> Result<bool, Cut>
    requires rows { All (IsProper meter.old columns) rows.now }
    requires some { 0 < columns }
    requires parts { AreParts meter.old (columns - 1) parts }
    requires left { HoldNowhere columns rows.now → AreNone (columns - 1) parts }
    ensures exact { MatchResult result
        (λ empty. (IsTrue empty ↔ AreNone (columns - 1) parts) × IsCharged meter.old meter.new)
        (IsCutBy meter.old meter.new) }
    ensures spent { IsHeadAlone None parts → IsTame 0 meter.old meter.new (λ _. Unit {0}) result }
{
    if !parts.has_more() {
        return are_empty(alloc, parts, columns - 1, meter);
    }
    if shadows_hold_nowhere(alloc, rows, columns, meter)? {
        return Ok(true);
    }
    are_empty(alloc, parts, columns - 1, meter)
}

// Whether no point makes some of the parts hold.
#[cycle(emptiness)]
#[tactic(auto, using(crate::proofs::EmptinessLaws::emptiness_steps))]
fn are_empty(
    alloc: Global,
    mut parts: Parts,
    columns: usize,
    meter: &mut Meter,
) -> Result<bool, Cut>
    requires parts { AreParts meter.old columns parts }
    ensures exact { MatchResult result
        (λ empty. (IsTrue empty ↔ AreNone columns parts) × IsCharged meter.old meter.new)
        (IsCutBy meter.old meter.new) }
    ensures spent { IsHeadAlone None parts → IsTame 0 meter.old meter.new (λ _. Unit {0}) result }
{
    while let Some(rows) = parts.next(alloc, columns, meter)? {
        if !hold_nowhere(alloc, rows, columns, meter)? {
            return Ok(false);
        }
    }
    Ok(true)
}

// Whether no point makes the rows hold, once they are normal.
#[tactic(auto, using(crate::proofs::EmptinessLaws::emptiness_steps))]
fn normal_nowhere(alloc: Global, rows: Rows, columns: usize, meter: &mut Meter) -> Result<bool, Cut>
    requires rows { All (IsProper meter.old columns) rows }
    ensures exact { MatchResult result
        (λ empty. (IsTrue empty ↔ HoldNowhere columns rows) × IsCharged meter.old meter.new)
        (IsCutBy meter.old meter.new) }
    ensures tame { IsTameOn columns (λ bits. All (IsDifferenceRow bits) rows) (columns * (columns * columns)) meter.old meter.new (λ _ _. Unit {0}) result }
{
    match rows.normalise(alloc, meter)? {
        None => Ok(true),
        Some(normal) => hold_nowhere(alloc, normal, columns, meter),
    }
}

// Whether no point makes the rows hold. Columns that an equality has with 1 or -1 go first, by substitution where the rows lie; only then
// the rows are made normal.
#[tactic(auto, using(crate::proofs::EmptinessLaws::emptiness_steps))]
fn rows_nowhere(alloc: Global, rows: Rows, columns: usize, meter: &mut Meter) -> Result<bool, Cut>
    requires rows { All (IsProper meter.old columns) rows }
    ensures exact { MatchResult result
        (λ empty. (IsTrue empty ↔ HoldNowhere columns rows) × IsCharged meter.old meter.new)
        (IsCutBy meter.old meter.new) }
    ensures tame { IsTameOn columns (λ bits. All (IsDifferenceRow bits) rows) (columns * (columns * columns)) meter.old meter.new (λ _ _. Unit {0}) result }
{
    let Some(given) = unit_equality(rows.as_slice()) else {
        return normal_nowhere(alloc, rows, columns, meter);
    };
    let column = Column {
        columns,
        at: given.col,
    };
    let short = substituted(alloc, rows, given.at, column, meter)?;
    rows_nowhere(alloc, short, columns - 1, meter)
}

/// Whether the system holds at no point of whole numbers. Of one column, which is free, this spends what `eliminate` does; it
/// spends no unit of its own.
///
/// # Errors
///
/// `Overflow` where a number passes the limit of the meter, `Budget` where its units are used up, and `NoMemory`. With one
/// column a limit of 127 bits is not passed where the numbers are at most `2^30` and at most one congruence has it. Of difference
/// constraints over c columns, which are normal where c is 1, no error but `NoMemory` comes where 127 bits have room for one bit more
/// with each column, and `c^3` units are left.
#[tactic(auto, using(crate::proofs::OpenedLaws::opened_steps))]
pub fn is_empty(alloc: Global, system: &System, meter: &mut Meter) -> Result<bool, Cut>
    requires well_formed { IsSystemWithin meter.old system.now }
    ensures exact { IfOk result (λ empty. IsTrue empty ↔ IsNowhere (free_columns system.now) (HoldsSystem system.now)) }
    ensures meter { IsMetered meter.old meter.new result }
    ensures units { system.now.definitions ≡ [] → system.now.columns ≡ 1 → pos meter.new.units ≤ℤ (pos meter.old.units +ℤ elimination_units system.now.rows 0) }
    ensures equality { system.now.definitions ≡ [] → system.now.columns ≡ 1 → HasEquality 0 system.now.rows → meter.new.units ≡ meter.old.units }
    ensures magnitude { system.now.definitions ≡ [] → system.now.columns ≡ 1 → IsSpared meter.old system.now.rows 0 result }
    ensures tame { (size : Size) → meter.old.bits ≡ 127 → size.bits + size.columns ≤ 120 → HasSize size system.now
        → (system.now.columns ≡ 1 → IsNormal system.now.rows)
        → IsTame (size.columns * (size.columns * size.columns)) meter.old meter.new (λ _. Unit {0}) result }
{
    if system.columns == 1 && system.definitions.is_empty() {
        return column_nowhere(alloc, &system.rows, meter);
    }
    let rows = all_opened(alloc, system, meter)?;
    rows_nowhere(alloc, rows, system.columns, meter)
}

/// Whether the system, whose rows are normal, holds at no point of whole numbers: as `is_empty`, which makes rows normal first.
///
/// # Errors
///
/// `Overflow` where a number passes the limit of the meter, `Budget` where its units are used up, and `NoMemory`. Of one column, and of
/// difference constraints, `is_empty` tells.
#[tactic(auto, using(crate::proofs::OpenedLaws::opened_steps))]
pub fn is_normal_empty(alloc: Global, system: &System, meter: &mut Meter) -> Result<bool, Cut>
    requires well_formed { IsSystemWithin meter.old system.now }
    requires normal { IsNormal system.now.rows }
    ensures exact { IfOk result (λ empty. IsTrue empty ↔ IsNowhere (free_columns system.now) (HoldsSystem system.now)) }
    ensures meter { IsMetered meter.old meter.new result }
    ensures one { system.now.definitions ≡ [] → system.now.columns ≡ 1 → IsSpentOn system.now.rows 0 meter.old meter.new result }
    ensures tame { (size : Size) → meter.old.bits ≡ 127 → size.bits + size.columns ≤ 120 → HasSize size system.now
        → IsTame (size.columns * (size.columns * size.columns)) meter.old meter.new (λ _. Unit {0}) result }
{
    if system.columns == 1 || !system.definitions.is_empty() {
        return is_empty(alloc, system, meter);
    }
    let rows = system.rows.copy(alloc)?;
    rows_nowhere(alloc, rows, system.columns, meter)
}
