//! Lines: the numbers that rows over one column leave.

ghost use Rattle.std.specs.Prelude.{◌≡◌, ◌↔◌, ◌⊎◌, ◌+◌, ◌+ℤ◌, ◌<ℤ◌, ◌≤ℤ◌, ◌<◌, ℤ};
ghost use Rattle.std.specs.Prelude.{pos, [], ◌∷◌, ◌++◌, length, All, IsTrue, MatchOption, MatchResult};
ghost use Rattle.isl_meter.specs.Gauge.{Gauge, IsCharged, IsCutBy, IsWithin, overflown};
ghost use Rattle.isl_piece.specs.System.{HoldRows};
ghost use Rattle.isl_omega.specs.Column.{IsProper};
ghost use Rattle.isl_points.specs.Exclusion.{IsTried, MeetsExclusion};
ghost use Rattle.isl_tower.specs.Ends.{HasLowerEnd, HasUpperEnd};

use crate::division::remainder;
use crate::interval::Interval;
use crate::list::check_count;
use crate::progression::Progression;
use crate::row::LineRow;
use isl_meter::{Cut, Int, Meter, Overflow};
use isl_piece::RowKind;

/// The numbers from `low` to `high` on a progression.
#[derive(Clone, Copy)]
pub(crate) struct Line {
    pub low: Int,
    pub high: Int,
    pub steps: Progression,
}

// The sum, where it is at most `high`.
fn up_to(x: Int, by: Int, high: Int) -> Option<Int>
    requires { pos 0 ≤ℤ by }
    ensures { MatchOption result (high <ℤ (x +ℤ by)) (λ sum. (sum ≡ x +ℤ by) × sum ≤ℤ high) }
{
    match x.get().checked_add(by.get()) {
        Some(sum) if sum <= high.get() => Some(Int::new(sum)),
        _ => None,
    }
}

// Whether the row holds at the number, where its modulus must not divide.
fn allows(row: &LineRow, x: Int, meter: &mut Meter) -> Result<bool, Overflow>
    requires { IsProper meter.old 1 row.now }
    ensures { MatchResult result
        (λ allowed. (IsTrue allowed ↔ MeetsExclusion x row.now) × (meter.new ≡ meter.old))
        (λ _. meter.new ≡ overflown meter.old) }
{
    match row.kind() {
        RowKind::NotDivides => row.spares(x, meter),
        RowKind::Zero | RowKind::AtLeast | RowKind::Divides => Ok(true),
    }
}

fn all_allow(rows: &[LineRow], x: Int, meter: &mut Meter) -> Result<bool, Overflow>
    requires { All (IsProper meter.old 1) rows.now }
    ensures { MatchResult result
        (λ allowed. (IsTrue allowed ↔ All (MeetsExclusion x) rows.now) × (meter.new ≡ meter.old))
        (λ _. meter.new ≡ overflown meter.old) }
{
    for row in rows {
        if !allows(row, x, meter)? {
            return Ok(false);
        }
    }
    Ok(true)
}

// Whether a row that does not depend on the number excludes all numbers.
fn excludes_all(rows: &[LineRow], meter: &mut Meter) -> Result<bool, Overflow>
    requires { All (IsProper meter.old 1) rows.now }
    ensures { MatchResult result
        (λ none. (IsTrue none → (x : ℤ) → ¬ All (MeetsExclusion x) rows.now) × (meter.new ≡ meter.old))
        (λ _. meter.new ≡ overflown meter.old) }
{
    for row in rows {
        if row.coef().is_zero() && !allows(row, Int::ZERO, meter)? {
            return Ok(true);
        }
    }
    Ok(false)
}

// Whether the row is none that its modulus must not divide.
fn excludes_nothing(row: &LineRow) -> bool
    ensures { IsTrue result → (x : ℤ) → MeetsExclusion x row.now }
{
    match row.kind() {
        RowKind::NotDivides => false,
        RowKind::Zero | RowKind::AtLeast | RowKind::Divides => true,
    }
}

// Whether no row is one that its modulus must not divide.
fn excludes_none(rows: &[LineRow]) -> bool
    ensures { IsTrue result → (x : ℤ) → All (MeetsExclusion x) rows.now }
{
    for row in rows {
        if !excludes_nothing(row) {
            return false;
        }
    }
    true
}

/// The rows, or none of them where none is one that its modulus must not divide.
pub(crate) fn excluding(rows: &[LineRow]) -> &[LineRow]
    ensures same { (x : ℤ) → All (MeetsExclusion x) result.now ↔ All (MeetsExclusion x) rows.now }
    ensures proper { (g : Gauge) → All (IsProper g 1) rows.now → All (IsProper g 1) result.now }
{
    if excludes_none(rows) {
        &rows[..0]
    } else {
        rows
    }
}

// Uses a unit, and puts the number behind the others where the rows allow it.
fn try_number(found: &mut Vec<Int>, rows: &[LineRow], x: Int, meter: &mut Meter) -> Result<(), Cut>
    requires { All (IsProper meter.old 1) rows.now }
    ensures { MatchResult result
        (λ _. IsTried (All (MeetsExclusion x) rows.now) x found.old.items found.new.items
        × (meter.new ≡ record meter.old { units = meter.old.units + 1 }) × (meter.old.units < meter.old.budget))
        (IsCutBy meter.old meter.new) }
{
    meter.unit()?;
    if all_allow(rows, x, meter)? {
        check_count(found.len())?;
        found.push(x)?;
    }
    Ok(())
}

impl Line {
    ghost use Rattle.isl_points.specs.Line.{IsIn, IsLeft, IsLineWithin, IsListing, IsNext};

    /// What the rows over one column leave, up to the rows that their modulus must not divide. None where they hold nowhere, or
    /// where the numbers have no end on one side.
    ///
    /// # Errors
    ///
    /// `Overflow` where a number passes the limit of the meter.
    pub(crate) fn of(rows: &[LineRow], meter: &mut Meter) -> Result<Option<Line>, Overflow>
        requires { All (IsProper meter.old 1) rows.now }
        ensures { MatchResult result
            (λ found. MatchOption found
            (HasLowerEnd 0 rows.now → HasUpperEnd 0 rows.now → (x : ℤ) → ¬ HoldRows rows.now (x ∷ []))
            (λ line. IsLineWithin meter.old line × ((x : ℤ) → IsLeft line rows.now x ↔ HoldRows rows.now (x ∷ [])))
            × (meter.new ≡ meter.old))
            (λ _. meter.new ≡ overflown meter.old) }
    {
        if excludes_all(rows, meter)? {
            return Ok(None);
        }
        let interval = Interval::of(rows, meter);
        let (Some(low), Some(high)) = (interval.low, interval.high) else {
            return Ok(None);
        };
        match Progression::of(rows, meter)? {
            None => Ok(None),
            Some(steps) => Ok(Some(Line { low, high, steps })),
        }
    }

    // The least number of the line.
    fn first(&self, meter: &mut Meter) -> Result<Option<Int>, Overflow>
        requires { IsLineWithin meter.old self.now }
        ensures { MatchResult result
            (λ found. MatchOption found ((x : ℤ) → ¬ IsIn self.now x) (λ y. IsIn self.now y × ((x : ℤ) → IsIn self.now x → y ≤ℤ x))
            × (meter.new ≡ meter.old))
            (λ _. meter.new ≡ overflown meter.old) }
    {
        let step = self.steps.step;
        let first = remainder(self.steps.first, step, meter);
        let low = remainder(self.low, step, meter);
        let ahead = remainder(first.sub(low, meter)?, step, meter);
        Ok(up_to(self.low, ahead, self.high))
    }

    // The number of the line behind this one.
    fn after(&self, x: Int) -> Option<Int>
        requires step { pos 0 <ℤ self.now.steps.step }
        requires x_in { IsIn self.now x }
        ensures { IsNext (IsIn self.now) x result }
    {
        up_to(x, self.steps.step, self.high)
    }

    /// The numbers of the line at which no row is one that its modulus must not divide, in ascending order, in the place of what was
    /// found before. A unit is used for each number of the line.
    ///
    /// # Errors
    ///
    /// `Overflow` where a number passes the limit of the meter, `Budget` where its units are used up, and `NoMemory`.
    pub(crate) fn list(
        &self,
        rows: &[LineRow],
        mut found: Vec<Int>,
        meter: &mut Meter,
    ) -> Result<Vec<Int>, Cut>
        requires line { IsLineWithin meter.old self.now }
        requires rows { All (IsProper meter.old 1) rows.now }
        ensures exact { MatchResult result
            (λ found. IsListing meter.old meter.new (IsLeft self.now rows.now) found.items)
            (IsCutBy meter.old meter.new) }
    {
        found.clear();
        let mut next = self.first(meter)?;
        while let Some(x) = next {
            try_number(&mut found, rows, x, meter)?;
            next = self.after(x);
        }
        Ok(found)
    }
}
