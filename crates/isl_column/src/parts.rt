//! What is left of rows without one column: one list after another.

ghost use Rattle.std.specs.Prelude.{◌≡◌, ◌<◌, ◌+◌, ◌*◌, ◌^◌, ◌≤◌, ◌↔◌, ◌≤ℤ◌, ◌<ℤ◌, ◌+ℤ◌, pos, ℕ, [], None, Option, List, All, length, IfOk, IfSome, IsTrue, MatchOption, MatchResult};
ghost use Rattle.isl_meter.specs.Gauge.{Gauge, IsCharged, IsCutBy, IsDone};
ghost use Rattle.isl_piece.specs.declared.row.Row.{Row};
ghost use Rattle.isl_omega.specs.Column.{IsProper};
ghost use Rattle.isl_omega.specs.Equality.{HasEquality};
ghost use Rattle.isl_omega.specs.Sides.{AreSided};
ghost use Rattle.isl_omega.specs.Step.{IsStepOf};
ghost use Rattle.isl_omega.specs.Magnitude.{IsNoOverflowWith, AreSidesUpTo, given_magnitude, substituted_magnitude};
ghost use Rattle.isl_shadows.specs.Column.{HoldAtSome};
ghost use Rattle.isl_shadows.specs.Exact.{IsExactColumn, exact_rows, pairs_on};
ghost use Rattle.isl_shadows.specs.Magnitude.{HaveSmallNumbers, HaveOneCongruence};
ghost use Rattle.isl_shadows.specs.Residue.{HasNumber, sides_units};
ghost use Rattle.isl_shadows.specs.Solved.{solved_rows, IsLeastAmong};
ghost use Rattle.isl_shadows.specs.Tame.{IsTameColumn, IsTameWithin};
ghost use Rattle.isl_shadows.specs.Units.{elimination_units};

use crate::dark_shadow::DarkShadow;
use crate::equality::{equality_at, solved_left};
use crate::exact::{exact_left, is_exact};
use crate::neighbours::neighbours_of;
use crate::residue::Residues;
use crate::splinters::are_spent;
use isl_meter::{Cut, Meter};
use isl_omega::column::Column;
use isl_omega::sides::Sides;
use isl_omega::step::congruence_step;
use isl_piece::{Row, Rows};
use std::alloc::Global;

// The sides without congruences on the column.
fn without_congruences(
    alloc: Global,
    sides: Sides,
    column: Column,
    meter: &mut Meter,
) -> Result<Sides, Cut>
    requires sided { AreSided meter.old column.columns column.at sides }
    ensures exact { IsDone meter.old meter.new (λ new. IsStepOf meter.old column.columns column.at sides new) result }
    ensures no_overflow { meter.old.bits ≡ 127 → AreSidesUpTo given_magnitude sides → length sides.divides < 2
        → IsNoOverflowWith (AreSidesUpTo substituted_magnitude) result }
{
    if sides.divides.is_empty() {
        return Ok(sides);
    }
    let new = congruence_step(alloc, &sides, column, meter)?;
    Ok(new)
}

/// What is still to come of rows without one column: lists of normal rows, of which some holds at a point exactly where some whole
/// number put at the column makes the rows hold. The head is built; splinters and residues are built as they are taken.
#[derive(Drop)]
pub struct Parts {
    column: Column,
    dark_shadow: DarkShadow,
    residues: Option<Residues>,
}

impl Parts {
    ghost use Rattle.isl_column.specs.Parts.{ArePartsOf, AreParts, IsFoundIn, IsNextPart, IsHeadAlone, AreSmallParts, AreUnitsUpTo, IsBegun, head_count, most_units, least_units};

    // Nothing but a head.
    fn head(alloc: Global, left: Option<Rows>, column: Column) -> Parts
        ensures column { (result.column.columns ≡ column.columns) × (result.column.at ≡ column.at) }
        ensures rows { result.dark_shadow.rows ≡ [] }
        ensures alone { IsHeadAlone left result }
    {
        Parts {
            column,
            dark_shadow: DarkShadow {
                rows: Rows::new(alloc),
                dark: left,
                tails: Vec::new(alloc),
            },
            residues: None,
        }
    }

    // Where the row at a place is an equality that has the column.
    fn solved(
        alloc: Global,
        rows: &[Row],
        at: usize,
        column: Column,
        meter: &mut Meter,
    ) -> Result<Parts, Cut>
        requires rows { All (IsProper meter.old column.columns) rows.now }
        requires equality { IsLeastAmong column.at rows.now (length rows.now) at }
        ensures exact { IsBegun (pos 0) column.columns (HoldAtSome rows.now column.at) meter.old meter.new result }
        ensures none { IfOk result (λ parts. most_units parts ≡ pos 0) }
        ensures alone { IfOk result (IsHeadAlone (solved_rows rows.now column.at)) }
        ensures no_overflow { meter.old.bits ≡ 127 → HaveSmallNumbers rows.now → IsNoOverflowWith AreSmallParts result }
        ensures tame { IsTameWithin 1 meter.old meter.new rows.now column.at result }
    {
        let left = solved_left(alloc, rows, at, column, meter)?;
        Ok(Parts::head(alloc, left, column))
    }

    // Where the column is exact.
    fn exact(alloc: Global, rows: &[Row], column: Column, meter: &mut Meter) -> Result<Parts, Cut>
        requires rows { All (IsProper meter.old column.columns) rows.now }
        requires none { ¬ HasEquality column.at rows.now }
        requires exact { IsExactColumn column.at rows.now }
        ensures exact { IsBegun (elimination_units rows.now column.at) column.columns (HoldAtSome rows.now column.at) meter.old meter.new result }
        ensures alone { IfOk result (IsHeadAlone (exact_rows rows.now column.at)) }
        ensures pairs { IfOk result (λ parts. meter.old.units + pairs_on column.at rows.now ≤ meter.new.units + least_units parts) }
        ensures no_overflow { meter.old.bits ≡ 127 → HaveSmallNumbers rows.now → IsNoOverflowWith AreSmallParts result }
        ensures tame { IsTameWithin (pairs_on column.at rows.now) meter.old meter.new rows.now column.at result }
    {
        let left = exact_left(alloc, rows, column, meter)?;
        Ok(Parts::head(alloc, left, column))
    }

    // Of sides without congruences.
    fn of_sides(
        alloc: Global,
        sides: Sides,
        column: Column,
        meter: &mut Meter,
    ) -> Result<Parts, Cut>
        requires sided { AreSided meter.old column.columns column.at sides }
        requires divides { sides.divides ≡ [] }
        ensures exact { IsBegun (sides_units column.at sides) column.columns (HasNumber sides column.at) meter.old meter.new result }
        ensures no_overflow { meter.old.bits ≡ 127 → AreSidesUpTo substituted_magnitude sides → length sides.not_divides < 2
            → IsNoOverflowWith AreSmallParts result }
        ensures pairs { IfOk result (λ parts.
            meter.old.units + length sides.lowers * length sides.uppers ≤ meter.new.units + least_units parts) }
    {
        let rows = sides.not_divides.as_slice();
        if let Some(neighbours) = neighbours_of(alloc, rows, column, meter)? {
            let dark_shadow = DarkShadow::of(alloc, &sides, neighbours, column, meter)?;
            return Ok(Parts {
                column,
                dark_shadow,
                residues: None,
            });
        }
        let residues = Residues::of(sides, column, meter)?;
        let mut parts = Parts::head(alloc, None, column);
        parts.residues = Some(residues);
        Ok(parts)
    }

    // Where neither is so.
    fn by_sides(
        alloc: Global,
        rows: &[Row],
        column: Column,
        meter: &mut Meter,
    ) -> Result<Parts, Cut>
        requires rows { All (IsProper meter.old column.columns) rows.now }
        requires none { ¬ HasEquality column.at rows.now }
        ensures exact { IsBegun (elimination_units rows.now column.at) column.columns (HoldAtSome rows.now column.at) meter.old meter.new result }
        ensures no_overflow { meter.old.bits ≡ 127 → HaveSmallNumbers rows.now → HaveOneCongruence rows.now column.at
            → IsNoOverflowWith AreSmallParts result }
        ensures pairs { IfOk result (λ parts. meter.old.units + pairs_on column.at rows.now ≤ meter.new.units + least_units parts) }
    {
        let sides = Sides::of(alloc, rows, column, meter)?;
        let new = without_congruences(alloc, sides, column, meter)?;
        Parts::of_sides(alloc, new, column, meter)
    }

    /// What is left of the rows without the column.
    ///
    /// Where an equality has the column, no unit is used; else, with those that are used for what is still to come, at most
    /// `elimination_units`, and at least one for each pair of a lower and an upper bound. Where one has it, or the column is exact,
    /// there is a head alone, which is a function of the rows.
    ///
    /// # Errors
    ///
    /// `Overflow` where a number passes the limit of the meter, `Budget` where its units are used up, and `NoMemory`. A limit
    /// of 127 bits is not passed where the numbers are at most `2^30` and at most one congruence has the column. Where an equality has
    /// it, or it is exact, `IsTameColumn` tells from which limit and how many units on `NoMemory` alone is left.
    pub fn of(alloc: Global, rows: &[Row], column: Column, meter: &mut Meter) -> Result<Parts, Cut>
        requires rows { All (IsProper meter.old column.columns) rows.now }
        ensures exact { MatchResult result
            (λ parts. ArePartsOf meter.old column.columns column.at rows.now parts × IsCharged meter.old meter.new)
            (IsCutBy meter.old meter.new) }
        ensures units { MatchResult result (AreUnitsUpTo (elimination_units rows.now column.at) meter.old meter.new)
            (λ _. pos meter.new.units ≤ℤ (pos meter.old.units +ℤ elimination_units rows.now column.at)) }
        ensures equality { HasEquality column.at rows.now → (meter.new.units ≡ meter.old.units) × IfOk result
            (λ parts. most_units parts ≡ pos 0) }
        ensures exact_column { IsExactColumn column.at rows.now → ¬ HasEquality column.at rows.now
            → IfOk result (IsHeadAlone (exact_rows rows.now column.at)) }
        ensures solved_column { HasEquality column.at rows.now → IfOk result (IsHeadAlone (solved_rows rows.now column.at)) }
        ensures magnitude { meter.old.bits ≡ 127 → HaveSmallNumbers rows.now → HaveOneCongruence rows.now column.at
            → IsNoOverflowWith AreSmallParts result }
        ensures pairs { ¬ HasEquality column.at rows.now
            → IfOk result (λ parts. meter.old.units + pairs_on column.at rows.now ≤ meter.new.units + least_units parts) }
        ensures tame { IsTameColumn meter.old meter.new rows.now column.at result }
    {
        if let Some(at) = equality_at(rows, column, meter) {
            return Parts::solved(alloc, rows, at, column, meter);
        }
        if is_exact(rows, column, meter) {
            Parts::exact(alloc, rows, column, meter)
        } else {
            Parts::by_sides(alloc, rows, column, meter)
        }
    }

    /// Takes the head out of them, if it is still there. No unit is used.
    pub fn take_head(&mut self) -> Option<Rows>
        ensures head { result ≡ self.old.dark_shadow.dark }
        ensures part { (g : Gauge) (columns : ℕ) → AreParts g columns self.old
            → MatchOption result (self.new ≡ self.old) (λ rows. IsNextPart g columns self.old rows self.new) }
        ensures alone { (head : Option (List Row)) → IsHeadAlone head self.old → IsHeadAlone None self.new }
    {
        self.dark_shadow.dark.take()
    }

    /// Whether more than a head is still to come: splinters or residues.
    pub fn has_more(&self) -> bool
        ensures { (g : Gauge) (columns : ℕ) → AreParts g columns self.now → IsTrue result ↔ (pos 0 <ℤ most_units self.now) }
    {
        if !are_spent(self.dark_shadow.tails.as_slice()) {
            return true;
        }
        match &self.residues {
            None => false,
            Some(residues) => residues.left.is_positive(),
        }
    }

    /// Takes the next list out of them, which is over `columns` columns; none where no point is left. A list that is not the head
    /// costs a unit or more; where nothing but residues is still to come, at least one for each pair of bounds.
    ///
    /// # Errors
    ///
    /// `Overflow` where a number passes the limit of the meter, `Budget` where its units are used up, and `NoMemory`. None where a head
    /// alone is still to come, or nothing.
    pub fn next(
        &mut self,
        alloc: Global,
        columns: usize,
        meter: &mut Meter,
    ) -> Result<Option<Rows>, Cut>
        requires parts { AreParts meter.old columns self.old }
        ensures exact { MatchResult result (λ found. IsFoundIn meter.old columns self.old found self.new × IsCharged meter.old meter.new)
            (IsCutBy meter.old meter.new) }
        ensures units { pos meter.new.units ≤ℤ (pos meter.old.units +ℤ most_units self.old) }
        ensures rest { IfOk result (λ found. IfSome found (λ _. AreUnitsUpTo (most_units self.old) meter.old meter.new self.new)) }
        ensures counted { IfOk result (λ found. IfSome found
            (λ _. meter.old.units + 1 + head_count self.new ≤ meter.new.units + head_count self.old)) }
        ensures pairs { IfOk result (λ _. meter.old.units + least_units self.old ≤ meter.new.units) }
        ensures alone { (head : Option (List Row)) → IsHeadAlone head self.old
            → MatchResult result (λ found. (found ≡ head) × IfSome found (λ _. IsHeadAlone None self.new) × (meter.new ≡ meter.old)) (λ _. ⊥) }
        ensures magnitude { meter.old.bits ≡ 127 → AreSmallParts self.old
            → IsNoOverflowWith (λ found. IfSome found (λ _. AreSmallParts self.new)) result }
    {
        let _ = columns;
        loop {
            let found = self.dark_shadow.next(alloc, self.column, meter)?;
            if found.is_some() {
                return Ok(found);
            }
            match Residues::next(alloc, &mut self.residues, self.column, meter)? {
                None => return Ok(None),
                Some(dark_shadow) => self.dark_shadow = dark_shadow,
            }
        }
    }
}
