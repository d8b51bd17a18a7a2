//! Arithmetic progressions: what congruences say of the number at one column.

ghost use Rattle.std.specs.Prelude.{◌≡◌, ◌↔◌, ◌+ℤ◌, ◌*ℤ◌, ◌<ℤ◌, ℤ, pos, [], ◌∷◌, All, MatchOption, MatchResult};
ghost use Rattle.isl_math.specs.Divide as divide;
ghost use Rattle.isl_meter.specs.Gauge.{IsWithin, overflown};
ghost use Rattle.isl_piece.specs.Row.{HoldsRow};
ghost use Rattle.isl_piece.specs.declared.row.RowKind.TheVariants.{Divides};
ghost use Rattle.isl_omega.specs.Column.{IsProper};

use crate::row::LineRow;
use isl_meter::{Int, Meter, Overflow};
use isl_piece::RowKind;

/// The numbers `first`, `first + step`, `first - step`, `first + 2 step`, ..
#[derive(Clone, Copy)]
pub(crate) struct Progression {
    pub first: Int,
    pub step: Int,
}

impl Progression {
    ghost use Rattle.isl_points.specs.Progression.{IsOn, IsProgression, MeetsCongruence};

    // All whole numbers.
    fn whole(meter: &Meter) -> Progression
        ensures is { IsProgression meter.now result }
        ensures exact { (x : ℤ) → IsOn result x }
    {
        // 1 is within any limit
        let _limit = meter.limit();
        Progression {
            first: Int::ZERO,
            step: Int::ONE,
        }
    }

    // The numbers `x` at which `k` divides `coef x + rest`, where there is one.
    fn solving(
        coef: Int,
        rest: Int,
        k: Int,
        meter: &mut Meter,
    ) -> Result<Option<Progression>, Overflow>
        requires coef { IsWithin meter.old coef }
        requires rest { IsWithin meter.old rest }
        requires k { IsWithin meter.old k }
        requires modulus { pos 0 <ℤ k }
        ensures { MatchResult result
            (λ found. MatchOption found ((x : ℤ) → ¬ divide.Divides k (coef *ℤ x +ℤ rest))
            (λ p. IsProgression meter.old p × ((x : ℤ) → IsOn p x ↔ divide.Divides k (coef *ℤ x +ℤ rest)))
            × (meter.new ≡ meter.old))
            (λ _. meter.new ≡ overflown meter.old) }
    {
        let common = coef.gcd(k, meter);
        let step = k.floor_div(common, meter);
        let own = coef.floor_div(common, meter);
        if !rest.modulo(common, meter).is_zero() {
            return Ok(None);
        }
        let beside = rest.floor_div(common, meter).modulo(step, meter);
        let inverse = own.inverse(step, meter);
        let product = beside.mul(inverse, meter)?;
        let first = product.neg(meter).modulo(step, meter);
        Ok(Some(Progression { first, step }))
    }

    // Every so many of the numbers: those whose places are on the other progression.
    fn every(&self, turns: &Progression, meter: &mut Meter) -> Result<Progression, Overflow>
        requires is { IsProgression meter.old self.now }
        requires turns { IsProgression meter.old turns.now }
        ensures { MatchResult result
            (λ p. IsProgression meter.old p × (p.first ≡ self.now.first +ℤ self.now.step *ℤ turns.now.first)
            × (p.step ≡ self.now.step *ℤ turns.now.step) × (meter.new ≡ meter.old))
            (λ _. meter.new ≡ overflown meter.old) }
    {
        let ahead = self.step.mul(turns.first, meter)?;
        let first = self.first.add(ahead, meter)?;
        let step = self.step.mul(turns.step, meter)?;
        Ok(Progression { first, step })
    }

    // The numbers of the progression at which the congruence holds.
    fn congruent(&self, row: &LineRow, meter: &mut Meter) -> Result<Option<Progression>, Overflow>
        requires is { IsProgression meter.old self.now }
        requires row { IsProper meter.old 1 row.now }
        requires kind { row.now.kind ≡ Divides }
        ensures { MatchResult result
            (λ found. MatchOption found ((x : ℤ) → IsOn self.now x → ¬ HoldsRow row.now (x ∷ []))
            (λ p. IsProgression meter.old p × ((x : ℤ) → IsOn p x ↔ (IsOn self.now x × HoldsRow row.now (x ∷ []))))
            × (meter.new ≡ meter.old))
            (λ _. meter.new ≡ overflown meter.old) }
    {
        let coef = row.coef();
        let scaled = coef.mul(self.step, meter)?;
        let moved = coef.mul(self.first, meter)?;
        let rest = moved.add(row.constant(), meter)?;
        match Progression::solving(scaled, rest, row.modulus(), meter)? {
            None => Ok(None),
            Some(turns) => {
                let found = self.every(&turns, meter)?;
                Ok(Some(found))
            }
        }
    }

    // The numbers of the progression at which the row holds, where it is a congruence.
    fn met(&self, row: &LineRow, meter: &mut Meter) -> Result<Option<Progression>, Overflow>
        requires is { IsProgression meter.old self.now }
        requires row { IsProper meter.old 1 row.now }
        ensures { MatchResult result
            (λ found. MatchOption found ((x : ℤ) → IsOn self.now x → ¬ MeetsCongruence x row.now)
            (λ p. IsProgression meter.old p × ((x : ℤ) → IsOn p x ↔ (IsOn self.now x × MeetsCongruence x row.now)))
            × (meter.new ≡ meter.old))
            (λ _. meter.new ≡ overflown meter.old) }
    {
        match row.kind() {
            RowKind::Divides => self.congruent(row, meter),
            RowKind::Zero | RowKind::AtLeast | RowKind::NotDivides => Ok(Some(Progression {
                first: self.first,
                step: self.step,
            })),
        }
    }

    /// The numbers at which the congruences among the rows hold, where there is one.
    ///
    /// # Errors
    ///
    /// `Overflow` where a number passes the limit of the meter.
    pub(crate) fn of(rows: &[LineRow], meter: &mut Meter) -> Result<Option<Progression>, Overflow>
        requires { All (IsProper meter.old 1) rows.now }
        ensures { MatchResult result
            (λ found. MatchOption found ((x : ℤ) → ¬ All (MeetsCongruence x) rows.now)
            (λ p. IsProgression meter.old p × ((x : ℤ) → IsOn p x ↔ All (MeetsCongruence x) rows.now))
            × (meter.new ≡ meter.old))
            (λ _. meter.new ≡ overflown meter.old) }
    {
        let mut found = Progression::whole(meter);
        for row in rows {
            match found.met(row, meter)? {
                None => return Ok(None),
                Some(next) => found = next,
            }
        }
        Ok(Some(found))
    }
}
