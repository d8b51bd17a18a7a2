//! The number at one column that equalities and bounds tell which have it once: with the coefficient 1 or -1.

ghost use Rattle.std.specs.Prelude.{◌≡◌, ◌⊎◌, ◌+◌, ◌<◌, ◌^◌, ◌+ℤ◌, ◌≤ℤ◌, ℕ, ℤ, pos, negsuc, All, IfSome, MatchOption, MatchResult, length, slice_index_or};
ghost use Rattle.isl_math.specs.Dot.{dot};
ghost use Rattle.isl_meter.specs.Gauge.{IsWithin, overflown};
ghost use Rattle.isl_piece.specs.Row.{IsRowWithin, IsWellFormed};
ghost use Rattle.isl_piece.specs.declared.row.RowKind.TheVariants.{Zero, AtLeast};
ghost use Rattle.isl_elim.specs.Between.{AreSmallAt, IsBest, IsFoundUpTo, IsMetBy, IsUnitBound, SumPassesLimit};

use isl_meter::{Int, Meter, Overflow};
use isl_piece::{Row, RowKind};

/// What an equality and bounds say of a number.
#[derive(Clone, Copy)]
pub(crate) struct Bounds {
    pub exact: Option<Int>,
    pub least: Option<Int>,
    pub greatest: Option<Int>,
}

// The greater one of a bound from below, if there is one, and another.
fn greater(old: Option<Int>, new: Int) -> Int
    ensures new { new ≤ℤ result }
    ensures old { IfSome old (λ bound. bound ≤ℤ result) }
    ensures either { MatchOption old (result ≡ new) (λ bound. (result ≡ bound) ⊎ (result ≡ new)) }
{
    match old {
        Some(bound) if bound > new => bound,
        _ => new,
    }
}

// The lesser one of a bound from above, if there is one, and another.
fn lesser(old: Option<Int>, new: Int) -> Int
    ensures new { result ≤ℤ new }
    ensures old { IfSome old (λ bound. result ≤ℤ bound) }
    ensures either { MatchOption old (result ≡ new) (λ bound. (result ≡ bound) ⊎ (result ≡ new)) }
{
    match old {
        Some(bound) if bound < new => bound,
        _ => new,
    }
}

impl Bounds {
    const NONE: Bounds = Bounds {
        exact: None,
        least: None,
        greatest: None,
    };

    // What is left where `number x + value` has to be 0.
    fn fixed(self, number: Int, value: Int, meter: &Meter) -> Bounds
        requires within { IsWithin meter.now value }
        requires unit { (number ≡ pos 1) ⊎ (number ≡ negsuc 0) }
        ensures { IsMetBy Zero number value self result }
    {
        let exact = if number == Int::ONE {
            value.neg(meter)
        } else {
            value
        };
        Bounds {
            exact: Some(exact),
            ..self
        }
    }

    // What is left where `number x + value` has to be at least 0.
    fn bounded(self, number: Int, value: Int, meter: &Meter) -> Bounds
        requires within { IsWithin meter.now value }
        requires unit { (number ≡ pos 1) ⊎ (number ≡ negsuc 0) }
        ensures { IsMetBy AtLeast number value self result }
    {
        if number == Int::ONE {
            return Bounds {
                least: Some(greater(self.least, value.neg(meter))),
                ..self
            };
        }
        Bounds {
            greatest: Some(lesser(self.greatest, value)),
            ..self
        }
    }

    // What is left where `number x + value` has to meet a row of the kind; none but for 1 and -1, and for equalities and bounds.
    fn narrowed(self, kind: RowKind, number: Int, value: Int, meter: &Meter) -> Option<Bounds>
        requires within { IsWithin meter.now value }
        ensures { MatchOption result (IsUnitBound kind number → ⊥) (IsMetBy kind number value self) }
    {
        if number != Int::ONE && number != Int::new(-1) {
            return None;
        }
        match kind {
            RowKind::Zero => Some(self.fixed(number, value, meter)),
            RowKind::AtLeast => Some(self.bounded(number, value, meter)),
            _ => None,
        }
    }

    // A number that they leave, if they leave one.
    fn number(self) -> Int
        ensures { MatchOption self.exact (MatchOption self.least (MatchOption self.greatest (result ≡ pos 0) (λ u. result ≡ u)) (λ l. result ≡ l)) (λ e. result ≡ e) }
    {
        match (self.exact, self.least, self.greatest) {
            (Some(exact), _, _) => exact,
            (None, Some(least), _) => least,
            (None, None, Some(greatest)) => greatest,
            (None, None, None) => Int::ZERO,
        }
    }
}

// The number that the row's form has at the point.
#[tactic(auto, using(std::proofs::lemmas::Grind::common_steps, crate::proofs::BetweenLaws::value_steps))]
fn value_at(row: &Row, point: &[i128], meter: &mut Meter) -> Result<Int, Overflow>
    requires width { length row.now.coefs ≡ length point.now }
    requires within { IsWithin meter.old row.now.constant }
    ensures { MatchResult result
        (λ value. (value ≡ row.now.constant +ℤ dot row.now.coefs point.now) × IsWithin meter.old value × (meter.new ≡ meter.old))
        (λ _. SumPassesLimit meter.old row.now.constant row.now.coefs point.now × (meter.new ≡ overflown meter.old)) }
{
    let coefs = row.coefs.as_slice();
    let mut sum = row.constant();
    for i in 0..coefs.len() {
        let product = coefs[i].mul(Int::new(point[i]), meter)?;
        sum = sum.add(product, meter)?;
    }
    Ok(sum)
}

/// The number that the rows tell for the column, at which the point has 0: they hold with it wherever they hold with some number. None where
/// a row has the column with another coefficient than 1 and -1, or is a congruence that has it.
pub(crate) fn number_between(
    rows: &[Row],
    point: &[i128],
    col: usize,
    meter: &mut Meter,
) -> Result<Option<Int>, Overflow>
    requires rows { All (IsWellFormed (length point.now)) rows.now }
    requires within { All (IsRowWithin meter.old) rows.now }
    requires inside { col < length point.now }
    requires zero { slice_index_or point.now col (pos 0) ≡ pos 0 }
    ensures exact { MatchResult result
        (λ found. IfSome found (λ x. IsBest rows.now point.now col x × IsWithin meter.old x) × (meter.new ≡ meter.old))
        (λ _. meter.new ≡ overflown meter.old) }
    ensures small { (bits w : ℕ) → AreSmallAt meter.old bits w rows.now point.now → IsFoundUpTo (2 ^ bits + w) result }
{
    let mut bounds = Bounds::NONE;
    for i in 0..rows.len() {
        let number = rows[i].coefs.get(col);
        if number.is_zero() {
            continue;
        }
        let value = value_at(&rows[i], point, meter)?;
        let Some(next) = bounds.narrowed(rows[i].kind, number, value, meter) else {
            return Ok(None);
        };
        bounds = next;
    }
    Ok(Some(bounds.number()))
}
