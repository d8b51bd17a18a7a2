//! Splinters: rows in which a lower bound has one of its least values.

ghost use Rattle.std.specs.Prelude.{◌≡◌, ◌↔◌, ◌-◌, ◌<◌, ◌+ℤ◌, ◌-ℤ◌, ◌≤ℤ◌, ◌<ℤ◌, pos, [], All, IfSome, IsTrue, MatchOption, MatchResult, ◌^◌, ◌≤◌, unsigned_abs, ◌+◌, IfOk};
ghost use Rattle.isl_meter.specs.Gauge.{IsWithin, IsDone, IsDoneWithin};
ghost use Rattle.isl_shadows.specs.Splinters.{HasValue, AreSplinters, splinter_count};
ghost use Rattle.isl_column.specs.DarkShadow.{IsDarkShadow, IsSplit, IsTakenOut, IsNoDarkShadow};
ghost use Rattle.isl_omega.specs.Column.{IsAnswerFor, IsProper};
ghost use Rattle.isl_omega.specs.Sides.{IsLower};
ghost use Rattle.isl_piece.specs.Row.{IsRowUpTo};
ghost use Rattle.isl_omega.specs.Magnitude.{IsNoOverflow, IsNoOverflowWith, paired_magnitude, substituted_magnitude};
ghost use Rattle.isl_shadows.specs.Magnitude.{AreSmallSplinters};
ghost use Rattle.isl_column.specs.DarkShadow.{IsSmallDarkShadow};

use crate::dark_shadow::DarkShadow;
use isl_meter::{Cut, Int, Meter};
use isl_omega::column::Column;
use isl_omega::equality::equality_step;
use isl_omega::pair::reduced_by;
use isl_omega::shadow::Splinters;
use isl_piece::{Row, Rows};
use std::alloc::Global;

/// Whether no splinter of the tails is still to come.
pub(crate) fn are_spent(tails: &[Splinters]) -> bool
    ensures { IsTrue result ↔ All (λ t. t.last <ℤ pos 0) tails.now }
{
    for tail in tails {
        if !tail.last.is_negative() {
            return false;
        }
    }
    true
}

// The rows where the bound has the last value of its splinters, without the column.
fn splinter(
    alloc: Global,
    rows: &[Row],
    tail: &Splinters,
    column: Column,
    meter: &mut Meter,
) -> Result<Option<Rows>, Cut>
    requires rows { All (IsProper meter.old column.columns) rows.now }
    requires bound { IsLower meter.old column.columns column.at tail.now.lower }
    ensures exact { IsDone meter.old meter.new
        (λ left. IsAnswerFor meter.old (column.columns - 1) (HasValue rows.now column.at tail.now.lower tail.now.last) left) result }
    ensures no_overflow { meter.old.bits ≡ 127 → All (IsRowUpTo substituted_magnitude) rows.now → IsRowUpTo substituted_magnitude tail.now.lower
        → unsigned_abs tail.now.last ≤ paired_magnitude → IsNoOverflow result }
{
    let fixed = reduced_by(alloc, &tail.lower, tail.last, meter)?;
    let left = equality_step(alloc, rows, &fixed, column, meter)?;
    Ok(left)
}

impl DarkShadow {
    ghost use Rattle.isl_column.specs.Parts.{count_of};

    // The splinter at the last value of a tail, which is put back without it.
    fn split(
        &mut self,
        alloc: Global,
        tail: Splinters,
        column: Column,
        meter: &mut Meter,
    ) -> Result<Option<Rows>, Cut>
        requires rows { All (IsProper meter.old column.columns) self.old.rows }
        requires tail { AreSplinters meter.old column.columns column.at tail }
        ensures exact { IsDoneWithin (pos 1) meter.old meter.new
            (λ left. IsAnswerFor meter.old (column.columns - 1) (HasValue self.old.rows column.at tail.lower tail.last) left
            × IsSplit self.old tail self.new × IsWithin meter.old (tail.last -ℤ pos 1)) result }
        ensures used { IfOk result (λ _. meter.old.units < meter.new.units) }
        ensures no_overflow { meter.old.bits ≡ 127 → All (IsRowUpTo substituted_magnitude) self.old.rows → AreSmallSplinters tail → pos 0 ≤ℤ tail.last
            → IsNoOverflow result }
    {
        meter.unit()?;
        let left = splinter(alloc, self.rows.as_slice(), &tail, column, meter)?;
        let Splinters { lower, last } = tail;
        let last = last.sub(Int::ONE, meter)?;
        self.tails.push(Splinters { lower, last })?;
        Ok(left)
    }

    /// Takes out the dark rows, and then the rows of one splinter after another, of which each costs a unit.
    pub(crate) fn next(
        &mut self,
        alloc: Global,
        column: Column,
        meter: &mut Meter,
    ) -> Result<Option<Rows>, Cut>
        requires shadow { IsDarkShadow meter.old column.columns column.at self.old }
        ensures exact { IsDoneWithin (splinter_count self.old.tails.items) meter.old meter.new
            (λ found. MatchOption found (IsNoDarkShadow column.columns column.at self.old)
            (λ rows. IsTakenOut meter.old column.columns column.at self.old rows self.new)) result }
        ensures units { IfOk result (λ found. IfSome found (λ _. (pos meter.new.units +ℤ splinter_count self.new.tails.items)
            ≤ℤ (pos meter.old.units +ℤ splinter_count self.old.tails.items))) }
        ensures counted { IfOk result (λ found. IfSome found (λ _. meter.old.units + 1 ≤ meter.new.units + count_of self.old.dark)) }
        ensures alone { self.old.tails.items ≡ [] → MatchResult result
            (λ found. (found ≡ self.old.dark) × (self.new.tails.items ≡ []) × (meter.new ≡ meter.old)) (λ _. ⊥) }
        ensures no_overflow { meter.old.bits ≡ 127 → IsSmallDarkShadow self.old
            → IsNoOverflowWith (λ found. IfSome found (λ _. IsSmallDarkShadow self.new)) result }
    {
        if let Some(rows) = self.dark.take() {
            return Ok(Some(rows));
        }
        while let Some(tail) = self.tails.pop() {
            if !tail.last.is_negative() {
                let left = self.split(alloc, tail, column, meter)?;
                if left.is_some() {
                    return Ok(left);
                }
            }
        }
        Ok(None)
    }
}
