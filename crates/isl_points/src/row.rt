//! Rows over one column: what rows say of the number behind a prefix.

ghost use Rattle.std.specs.Prelude.{◌≡◌, ◌↔◌, ◌+◌, ◌+ℤ◌, ◌*ℤ◌, [], ◌∷◌, ◌++◌, ℤ, pos, slice_index_or, All, IfOk, IfSome, IsTrue, MatchResult, length, map};
ghost use Rattle.isl_meter.specs.Gauge.{IsCutBy, IsWithin, overflown};
ghost use Rattle.isl_piece.specs.Row.{HoldsRow, coef_at};
ghost use Rattle.isl_piece.specs.System.{HoldRows, IsSystemWithin};
ghost use Rattle.isl_piece.specs.declared.row.RowKind.TheVariants.{NotDivides};
ghost use Rattle.isl_omega.specs.Column.{IsProper};
ghost use Rattle.isl_tower.specs.Numbers.{row_at};
ghost use Rattle.isl_points.specs.Shorn.{rows_on};

use isl_meter::{Cut, Int, Meter, Overflow};
use isl_piece::{Row, RowKind};
use std::marker::Model;

/// A row over one column. It lies in one place, so that many are kept in memory that is used again.
#[derive(Clone, Copy)]
pub(crate) struct LineRow {
    kind: RowKind,
    coef: Int,
    constant: Int,
    modulus: Int,
}

impl Model for LineRow {
    ghost use Rattle.std.specs.Prelude.{[], ◌∷◌, pos, slice_index_or};
    ghost use Rattle.isl_piece.specs.declared.row.Row.{Row};

    ghost Value = { Row };

    ghost view = { λ r. record { kind = r.kind; coefs = r.coef ∷ []; constant = r.constant; k = r.modulus } };

    ghost inverse = { λ r. record { kind = r.kind; coef = slice_index_or r.coefs 0 (pos 0); constant = r.constant; modulus = r.k } };
}

// The sum and the product of two numbers. Many coefficients are 0.
fn plus_product(sum: Int, coef: Int, number: i128, meter: &mut Meter) -> Result<Int, Overflow>
    requires { IsWithin meter.old sum }
    ensures { MatchResult result
        (λ more. (more ≡ sum +ℤ coef *ℤ number) × IsWithin meter.old more × (meter.new ≡ meter.old))
        (λ _. meter.new ≡ overflown meter.old) }
{
    if coef.is_zero() {
        return Ok(sum);
    }
    let product = coef.mul(Int::new(number), meter)?;
    sum.add(product, meter)
}

impl LineRow {
    /// What is left of the row where the numbers stand for all its columns but the last.
    ///
    /// # Errors
    ///
    /// `Overflow` where a number passes the limit of the meter.
    #[tactic(auto, using(std::proofs::lemmas::Grind::common_steps, isl_tower::proofs::NumberLaws::number_steps))]
    pub(crate) fn behind(
        row: &Row,
        numbers: &[i128],
        meter: &mut Meter,
    ) -> Result<LineRow, Overflow>
        requires { length row.now.coefs ≡ length numbers.now + 1 }
        ensures exact { MatchResult result
            (λ left. (left ≡ row_at numbers.now row.now) × IsWithin meter.old left.constant × (meter.new ≡ meter.old))
            (λ _. meter.new ≡ overflown meter.old) }
    {
        let coefs = row.coefs.as_slice();
        let mut sum = Int::ZERO;
        for i in 0..numbers.len() {
            sum = plus_product(sum, coefs[i], numbers[i], meter)?;
        }
        let constant = sum.add(row.constant(), meter)?;
        Ok(LineRow {
            kind: row.kind,
            coef: coefs[numbers.len()],
            constant,
            modulus: row.modulus(),
        })
    }

    pub(crate) fn kind(&self) -> RowKind
        ensures { result ≡ self.now.kind }
    {
        self.kind
    }

    /// The coefficient at the column.
    pub(crate) fn coef(&self) -> Int
        ensures { result ≡ coef_at self.now 0 }
    {
        self.coef
    }

    pub(crate) fn constant(&self) -> Int
        ensures { result ≡ self.now.constant }
    {
        self.constant
    }

    pub(crate) fn modulus(&self) -> Int
        ensures { result ≡ self.now.k }
    {
        self.modulus
    }

    /// Whether the row, which is one that its modulus must not divide, holds at the number.
    ///
    /// # Errors
    ///
    /// `Overflow` where a number passes the limit of the meter.
    pub(crate) fn spares(&self, x: Int, meter: &mut Meter) -> Result<bool, Overflow>
        requires row { IsProper meter.old 1 self.now }
        requires kind { self.now.kind ≡ NotDivides }
        ensures { MatchResult result
            (λ spared. (IsTrue spared ↔ HoldsRow self.now (x ∷ [])) × (meter.new ≡ meter.old))
            (λ _. meter.new ≡ overflown meter.old) }
    {
        let product = self.coef.mul(x, meter)?;
        let value = product.add(self.constant, meter)?;
        Ok(!value.modulo(self.modulus, meter).is_zero())
    }

    // The number at which alone the row holds, where it is an equation with the coefficient 1 or -1.
    fn solution(&self, meter: &Meter) -> Option<Int>
        requires { IsProper meter.now 1 self.now }
        ensures { IfSome result (λ y. IsWithin meter.now y × ((x : ℤ) → HoldsRow self.now (x ∷ []) ↔ (x ≡ y))) }
    {
        match (self.kind, self.coef.get()) {
            (RowKind::Zero, 1) => Some(self.constant.neg(meter)),
            (RowKind::Zero, -1) => Some(self.constant),
            _ => None,
        }
    }
}

/// The number at which alone the rows hold, where they are one equation with the coefficient 1 or -1.
pub(crate) fn solution(rows: &[LineRow], meter: &Meter) -> Option<Int>
    requires { All (IsProper meter.now 1) rows.now }
    ensures { IfSome result (λ y. IsWithin meter.now y × ((x : ℤ) → HoldRows rows.now (x ∷ []) ↔ (x ≡ y))) }
{
    match rows {
        [row] => row.solution(meter),
        _ => None,
    }
}

/// What is left of the rows where the numbers stand for all their columns but the last, in the place of what was kept.
///
/// # Errors
///
/// `Overflow` where a number passes the limit of the meter, and `NoMemory`.
pub(crate) fn rows_behind(
    rows: &[Row],
    numbers: &[i128],
    mut kept: Vec<LineRow>,
    meter: &mut Meter,
) -> Result<Vec<LineRow>, Cut>
    requires { All (λ r. length r.coefs ≡ length numbers.now + 1) rows.now }
    ensures { MatchResult result
        (λ left. (left.items ≡ map (row_at numbers.now) rows.now) × All (λ r. IsWithin meter.old r.constant) left.items × (meter.new ≡ meter.old))
        (IsCutBy meter.old meter.new) }
{
    kept.clear();
    for row in rows {
        let left = LineRow::behind(row, numbers, meter)?;
        kept.push(left)?;
    }
    Ok(kept)
}

// Puts what is left of the row behind the others, where it has a coefficient at its last column.
fn push_on(
    kept: &mut Vec<LineRow>,
    row: &Row,
    numbers: &[i128],
    meter: &mut Meter,
) -> Result<(), Cut>
    requires width { length row.now.coefs ≡ length numbers.now + 1 }
    requires kept { All (λ r. IsWithin meter.old r.constant) kept.old.items }
    ensures { MatchResult result
        (λ _. (kept.new.items ≡ kept.old.items ++ map (row_at numbers.now) (rows_on (length numbers.now) (row.now ∷ [])))
        × All (λ r. IsWithin meter.old r.constant) kept.new.items × (meter.new ≡ meter.old))
        (IsCutBy meter.old meter.new) }
{
    if row.coefs.get(numbers.len()).is_zero() {
        return Ok(());
    }
    let left = LineRow::behind(row, numbers, meter)?;
    kept.push(left)?;
    Ok(())
}

/// The same of those rows alone that have a coefficient at their last column.
///
/// # Errors
///
/// `Overflow` where a number passes the limit of the meter, and `NoMemory`.
pub(crate) fn rows_behind_on(
    rows: &[Row],
    numbers: &[i128],
    mut kept: Vec<LineRow>,
    meter: &mut Meter,
) -> Result<Vec<LineRow>, Cut>
    requires { All (λ r. length r.coefs ≡ length numbers.now + 1) rows.now }
    ensures { MatchResult result
        (λ left. (left.items ≡ map (row_at numbers.now) (rows_on (length numbers.now) rows.now))
        × All (λ r. IsWithin meter.old r.constant) left.items × (meter.new ≡ meter.old))
        (IsCutBy meter.old meter.new) }
{
    kept.clear();
    for row in rows {
        push_on(&mut kept, row, numbers, meter)?;
    }
    Ok(kept)
}
