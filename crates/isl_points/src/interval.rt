//! Intervals of whole numbers: what bounds say of the number at one column.

ghost use Rattle.std.specs.Prelude.{◌≡◌, ◌≢◌, ◌↔◌, ◌+ℤ◌, ◌*ℤ◌, ◌<ℤ◌, ◌≤ℤ◌, ℤ, pos, None, Some, All, IfSome};
ghost use Rattle.isl_meter.specs.Gauge.{IsWithin};
ghost use Rattle.isl_piece.specs.Row.{coef_at};
ghost use Rattle.isl_omega.specs.Column.{IsProper};
ghost use Rattle.isl_points.specs.Ends.{IsFrom, IsTo};

use crate::division::quotient;
use crate::row::LineRow;
use isl_meter::{Int, Meter};
use isl_piece::RowKind;

/// The whole numbers from a low to a high one; no end where one is not there.
#[derive(Clone, Copy)]
pub(crate) struct Interval {
    pub low: Option<Int>,
    pub high: Option<Int>,
}

// The greater of two low ends.
fn raised(end: Option<Int>, low: Int, meter: &Meter) -> Int
    requires end { IfSome end (IsWithin meter.now) }
    requires low { IsWithin meter.now low }
    ensures exact { (x : ℤ) → result ≤ℤ x ↔ (IsFrom end x × low ≤ℤ x) }
    ensures within { IsWithin meter.now result }
{
    match end {
        Some(end) if end > low => end,
        _ => low,
    }
}

// The lesser of two high ends.
fn lowered(end: Option<Int>, high: Int, meter: &Meter) -> Int
    requires end { IfSome end (IsWithin meter.now) }
    requires high { IsWithin meter.now high }
    ensures exact { (x : ℤ) → x ≤ℤ result ↔ (IsTo end x × x ≤ℤ high) }
    ensures within { IsWithin meter.now result }
{
    match end {
        Some(end) if end < high => end,
        _ => high,
    }
}

impl Interval {
    ghost use Rattle.std.specs.Prelude.{[], ◌∷◌, List};
    ghost use Rattle.isl_tower.specs.Ends.{EndsAbove, EndsBelow};
    ghost use Rattle.isl_points.specs.Interval.{AreEndsWithin, IsBetween, MeetsBound};

    // All whole numbers.
    fn whole() -> Interval
        ensures low { result.low ≡ None }
        ensures high { result.high ≡ None }
    {
        Interval {
            low: None,
            high: None,
        }
    }

    // No number.
    fn nowhere() -> Interval
        ensures low { result.low ≡ Some (pos 1) }
        ensures high { result.high ≡ Some (pos 0) }
    {
        Interval {
            low: Some(Int::ONE),
            high: Some(Int::ZERO),
        }
    }

    // The numbers `x` of the interval where `coef x + rest` is at least 0.
    fn narrowed(&self, coef: Int, rest: Int, meter: &Meter) -> Interval
        requires ends { AreEndsWithin meter.now self.now }
        requires coef { IsWithin meter.now coef }
        requires rest { IsWithin meter.now rest }
        ensures exact { (x : ℤ) → IsBetween result x ↔ (IsBetween self.now x × (pos 0 ≤ℤ (coef *ℤ x +ℤ rest))) }
        ensures low { result.low ≡ None → (self.now.low ≡ None) × (¬ (pos 0 <ℤ coef)) }
        ensures high { result.high ≡ None → (self.now.high ≡ None) × (¬ (coef <ℤ pos 0)) }
        ensures within { AreEndsWithin meter.now result }
    {
        if coef.is_positive() {
            let low = quotient(rest, coef, meter).neg(meter);
            Interval {
                low: Some(raised(self.low, low, meter)),
                high: self.high,
            }
        } else if coef.is_negative() {
            let high = quotient(rest, coef.neg(meter), meter);
            Interval {
                low: self.low,
                high: Some(lowered(self.high, high, meter)),
            }
        } else if rest.is_negative() {
            Interval::nowhere()
        } else {
            Interval {
                low: self.low,
                high: self.high,
            }
        }
    }

    // The numbers of the interval at which the row holds, where it is a bound.
    fn met(&self, row: &LineRow, meter: &Meter) -> Interval
        requires ends { AreEndsWithin meter.now self.now }
        requires row { IsProper meter.now 1 row.now }
        ensures exact { (x : ℤ) → IsBetween result x ↔ (IsBetween self.now x × MeetsBound x row.now) }
        ensures low { result.low ≡ None → (self.now.low ≡ None) × (¬ EndsBelow row.now.kind (coef_at row.now 0)) }
        ensures high { result.high ≡ None → (self.now.high ≡ None) × (¬ EndsAbove row.now.kind (coef_at row.now 0)) }
        ensures within { AreEndsWithin meter.now result }
    {
        let coef = row.coef();
        let rest = row.constant();
        match row.kind() {
            RowKind::Zero => {
                let half = self.narrowed(coef, rest, meter);
                half.narrowed(coef.neg(meter), rest.neg(meter), meter)
            }
            RowKind::AtLeast => self.narrowed(coef, rest, meter),
            RowKind::Divides | RowKind::NotDivides => Interval {
                low: self.low,
                high: self.high,
            },
        }
    }

    /// The numbers at which the bounds among the rows hold.
    pub(crate) fn of(rows: &[LineRow], meter: &Meter) -> Interval
        requires { All (IsProper meter.now 1) rows.now }
        ensures exact { (x : ℤ) → IsBetween result x ↔ All (MeetsBound x) rows.now }
        ensures low { result.low ≡ None → All (λ r. ¬ EndsBelow r.kind (coef_at r 0)) rows.now }
        ensures high { result.high ≡ None → All (λ r. ¬ EndsAbove r.kind (coef_at r 0)) rows.now }
        ensures within { AreEndsWithin meter.now result }
    {
        let mut interval = Interval::whole();
        for row in rows {
            interval = interval.met(row, meter);
        }
        interval
    }
}
