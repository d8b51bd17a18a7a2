//! Several rows of one column that divisors must not divide: one residue after another.

ghost use Rattle.std.specs.Prelude.{◌≡◌, ◌<◌, ◌<ℤ◌, ◌≤ℤ◌, ◌+ℤ◌, [], pos, All, length, None, IfSome, MatchOption, MatchResult, IfOk, ◌+◌, ◌*◌};
ghost use Rattle.isl_meter.specs.Gauge.{IsWithin, IsCutUpTo, IsDone, IsDoneWithin};
ghost use Rattle.isl_omega.specs.Congruence.{period};
ghost use Rattle.isl_shadows.specs.Splinters.{splinter_count};
ghost use Rattle.isl_shadows.specs.Residue.{IsCommonMultiple, IsPeriod, IsResidueOf, residue_units};
ghost use Rattle.isl_omega.specs.Sides.{IsNotDivides, AreSided};

use crate::dark_shadow::DarkShadow;
use isl_meter::{Cut, Int, Meter, Overflow};
use isl_omega::column::Column;
use isl_omega::sides::Sides;
use isl_omega::step::Progression;
use isl_piece::Row;
use std::alloc::Global;

// A common multiple, which is at most the product.
fn common_multiple(a: Int, b: Int, meter: &mut Meter) -> Result<Int, Overflow>
    requires a_within { IsWithin meter.old a }
    requires b_within { IsWithin meter.old b }
    requires a_positive { pos 0 <ℤ a }
    requires b_positive { pos 0 <ℤ b }
    ensures { MatchResult result
        (λ m. IsCommonMultiple a b m × IsWithin meter.old m × (meter.new ≡ meter.old))
        (λ _. IsCutUpTo (pos 0) meter.old meter.new Cut.Overflow) }
{
    let rest = b.floor_div(a.gcd(b, meter), meter);
    let multiple = a.mul(rest, meter)?;
    Ok(multiple)
}

/// The period of one row.
pub(crate) fn period_of(row: &Row, column: Column, meter: &Meter) -> Int
    requires not_divides { IsNotDivides meter.now column.columns column.at row.now }
    ensures value { result ≡ period column.at row.now }
    ensures positive { pos 0 <ℤ result }
    ensures within { IsWithin meter.now result }
{
    let k = row.modulus();
    k.floor_div(row.coefs.get(column.at).gcd(k, meter), meter)
}

// A common period of the rows.
fn common_period(rows: &[Row], column: Column, meter: &mut Meter) -> Result<Int, Overflow>
    requires some { 0 < length rows.now }
    requires not_divides { All (IsNotDivides meter.old column.columns column.at) rows.now }
    ensures { MatchResult result
        (λ p. IsPeriod column.at rows.now p × IsWithin meter.old p × (meter.new ≡ meter.old))
        (λ _. IsCutUpTo (pos 0) meter.old meter.new Cut.Overflow) }
{
    let mut period = period_of(&rows[0], column, meter);
    for i in 1..rows.len() {
        let own = period_of(&rows[i], column, meter);
        period = common_multiple(period, own, meter)?;
    }
    Ok(period)
}

/// The residues that are still to come, those below `left`, of sides without congruences.
#[derive(Drop)]
pub(crate) struct Residues {
    pub sides: Sides,
    pub period: Int,
    pub left: Int,
}

impl Residues {
    ghost use Rattle.isl_column.specs.Parts.{AreResidues, IsOpened, IsOpenedFrom, IsNoResidue, residues_most, residues_least};

    /// All residues of the sides by a common period of the rows that moduli must not divide.
    pub(crate) fn of(sides: Sides, column: Column, meter: &mut Meter) -> Result<Self, Cut>
        requires sided { AreSided meter.old column.columns column.at sides }
        requires divides { sides.divides ≡ [] }
        requires some { 0 < length sides.not_divides }
        ensures { IsDone meter.old meter.new
            (λ residues. AreResidues meter.old column.columns column.at residues × (residues.sides ≡ sides)
            × (residues.left ≡ residues.period)) result }
    {
        let period = common_period(sides.not_divides.as_slice(), column, meter)?;
        Ok(Residues {
            sides,
            period,
            left: period,
        })
    }

    // The sides with the numbers that leave `rest` when divided by the period.
    fn residue(
        &self,
        alloc: Global,
        rest: Int,
        column: Column,
        meter: &mut Meter,
    ) -> Result<Sides, Cut>
        requires sided { AreSided meter.old column.columns column.at self.now.sides }
        requires divides { self.now.sides.divides ≡ [] }
        requires period { IsPeriod column.at self.now.sides.not_divides self.now.period }
        requires period_within { IsWithin meter.old self.now.period }
        requires rest_within { IsWithin meter.old rest }
        ensures { IsDone meter.old meter.new
            (λ new. IsResidueOf meter.old column.columns column.at self.now.period rest self.now.sides new) result }
    {
        let progression = Progression::of_residue(alloc, self.period, rest, column, meter)?;
        let new = progression.put(alloc, &self.sides, column, meter)?;
        Ok(new)
    }

    // What the last residue that is still to come leaves, which costs a unit.
    fn shadow(
        &mut self,
        alloc: Global,
        column: Column,
        meter: &mut Meter,
    ) -> Result<DarkShadow, Cut>
        requires residues { AreResidues meter.old column.columns column.at self.old }
        requires some { pos 0 <ℤ self.old.left }
        ensures exact { IsDoneWithin (residue_units column.at self.old.period self.old.sides) meter.old meter.new
            (λ dark_shadow. IsOpened meter.old column.columns column.at self.old dark_shadow self.new) result }
        ensures units { IfOk result (λ dark_shadow. (pos meter.new.units +ℤ splinter_count dark_shadow.tails.items)
            ≤ℤ (pos meter.old.units +ℤ residue_units column.at self.old.period self.old.sides)) }
        ensures used { IfOk result (λ _.
            meter.old.units + length self.old.sides.lowers * length self.old.sides.uppers < meter.new.units) }
    {
        meter.unit()?;
        let rest = self.left.sub(Int::ONE, meter)?;
        let sides = self.residue(alloc, rest, column, meter)?;
        let dark_shadow = DarkShadow::of(alloc, &sides, Int::ZERO, column, meter)?;
        self.left = rest;
        Ok(dark_shadow)
    }

    /// What the next of some residues leaves, if one is still to come.
    pub(crate) fn next(
        alloc: Global,
        residues: &mut Option<Residues>,
        column: Column,
        meter: &mut Meter,
    ) -> Result<Option<DarkShadow>, Cut>
        requires residues { IfSome residues.old (AreResidues meter.old column.columns column.at) }
        ensures exact { MatchResult result
            (λ found. MatchOption found (IsNoResidue column.columns column.at residues.old × (residues_least residues.old ≡ 0)
            × (meter.new ≡ meter.old))
            (λ dark_shadow. IsOpenedFrom meter.old meter.new column.columns column.at residues.old dark_shadow residues.new))
            (IsCutUpTo (residues_most column.at residues.old) meter.old meter.new) }
        ensures none { residues.old ≡ None → MatchResult result (λ found. found ≡ None) (λ _. ⊥) }
    {
        match residues {
            None => Ok(None),
            Some(residues) => {
                if !residues.left.is_positive() {
                    return Ok(None);
                }
                let dark_shadow = residues.shadow(alloc, column, meter)?;
                Ok(Some(dark_shadow))
            }
        }
    }
}
