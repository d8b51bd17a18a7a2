//! The negation of a row.

ghost use Rattle.std.specs.Prelude.{◌⊎◌, length, ◌≡◌, ◌↔◌, ◌-ℤ◌, pos, neg_ℤ, ℕ, ℤ, List, [], ◌∷◌, All, Any, IfOk, IfErr, MatchResult};
ghost use Rattle.isl_meter.specs.Gauge.{IsWithin, IsCutBy};
ghost use Rattle.isl_piece.specs.Cut.{IsCutFor};
ghost use Rattle.isl_piece.specs.Negation.{above, below, negation_of, ConstantPassesLimit};
ghost use Rattle.isl_piece.specs.Row.{HasModulus, HoldsRow, IsRowWithin, IsWellFormed};

use crate::{Row, RowKind, Rows};
use isl_meter::{Cut, Int, Meter};
use std::alloc::{AllocError, Global};

// The row's form is above 0: f - 1 >= 0.
#[tactic(auto, using(std::proofs::lemmas::Grind::common_steps, crate::proofs::NegationLaws::passes))]
fn above(alloc: Global, row: &Row, meter: &mut Meter) -> Result<Row, Cut>
    requires kind { row.now.kind ≡ RowKind.Zero }
    ensures { MatchResult result
        (λ made. (made ≡ above row.now.coefs row.now.constant) × IsWithin meter.old made.constant × (meter.new ≡ meter.old))
        (λ cut. IsCutFor (ConstantPassesLimit meter.old (negation_of row.now)) meter.old meter.new cut) }
{
    let constant = row.constant().sub(Int::ONE, meter)?;
    let coefs = row.coefs.copy(alloc)?;
    Ok(Row::new(RowKind::AtLeast, coefs, constant, Int::ONE))
}

// The row's form is below 0: -f - 1 >= 0.
#[tactic(auto, using(std::proofs::lemmas::Grind::common_steps, crate::proofs::NegationLaws::passes))]
fn below(alloc: Global, row: &Row, meter: &mut Meter) -> Result<Row, Cut>
    requires kind { (row.now.kind ≡ RowKind.Zero) ⊎ (row.now.kind ≡ RowKind.AtLeast) }
    requires within { IsRowWithin meter.old row.now }
    ensures { MatchResult result
        (λ made. (made ≡ below row.now.coefs row.now.constant) × IsWithin meter.old made.constant × (meter.new ≡ meter.old))
        (λ cut. IsCutFor (ConstantPassesLimit meter.old (negation_of row.now)) meter.old meter.new cut) }
{
    let constant = row.constant().neg(meter).sub(Int::ONE, meter)?;
    let mut coefs = row.coefs.copy(alloc)?;
    coefs.negate(meter);
    Ok(Row::new(RowKind::AtLeast, coefs, constant, Int::ONE))
}

// The row's form and modulus, of another kind.
fn of_kind(alloc: Global, kind: RowKind, row: &Row) -> Result<Row, AllocError>
    ensures { IfOk result (λ made. made ≡ record row.now { kind = kind }) }
{
    let mut made = row.copy(alloc)?;
    made.kind = kind;
    Ok(made)
}

// A list of one row.
fn only(alloc: Global, row: Row) -> Result<Rows, Cut>
    ensures { MatchResult result (λ rows. rows ≡ row ∷ []) (λ cut. cut ≡ Cut.NoMemory) }
{
    let mut rows = Rows::new(alloc);
    rows.push(row)?;
    Ok(rows)
}

// The two sides of a form that is not 0.
fn sides(alloc: Global, row: &Row, meter: &mut Meter) -> Result<Rows, Cut>
    requires kind { row.now.kind ≡ RowKind.Zero }
    requires within { IsRowWithin meter.old row.now }
    ensures { MatchResult result
        (λ rows. (rows ≡ negation_of row.now) × All (λ r. IsWithin meter.old r.constant) rows × (meter.new ≡ meter.old))
        (λ cut. IsCutFor (ConstantPassesLimit meter.old (negation_of row.now)) meter.old meter.new cut) }
{
    let mut rows = only(alloc, above(alloc, row, meter)?)?;
    rows.push(below(alloc, row, meter)?)?;
    Ok(rows)
}

// The rows of the negation, with constants within the limit.
fn negated(alloc: Global, row: &Row, meter: &mut Meter) -> Result<Rows, Cut>
    requires { IsRowWithin meter.old row.now }
    ensures { MatchResult result
        (λ rows. (rows ≡ negation_of row.now) × All (λ r. IsWithin meter.old r.constant) rows × (meter.new ≡ meter.old))
        (λ cut. IsCutFor (ConstantPassesLimit meter.old (negation_of row.now)) meter.old meter.new cut) }
{
    match row.kind {
        RowKind::Zero => sides(alloc, row, meter),
        RowKind::AtLeast => only(alloc, below(alloc, row, meter)?),
        RowKind::Divides => only(alloc, of_kind(alloc, RowKind::NotDivides, row)?),
        RowKind::NotDivides => only(alloc, of_kind(alloc, RowKind::Divides, row)?),
    }
}

/// Rows of which one holds exactly where `row` does not: two for `Zero`, else one. Uses no unit.
pub fn negate(alloc: Global, row: &Row, meter: &mut Meter) -> Result<Rows, Cut>
    requires modulus { HasModulus row.now.kind row.now.k }
    requires within { IsRowWithin meter.old row.now }
    ensures exact { MatchResult result
        (λ rows. (rows ≡ negation_of row.now) × (meter.new ≡ meter.old))
        (λ cut. IsCutFor (ConstantPassesLimit meter.old (negation_of row.now)) meter.old meter.new cut) }
    ensures points { IfOk result (λ rows. (point : List ℤ) → Any (λ r. HoldsRow r point) rows ↔ (¬ HoldsRow row.now point)) }
    ensures shape { (columns : ℕ) → length row.now.coefs ≡ columns → IfOk result (All (IsWellFormed columns)) }
    ensures within { IfOk result (All (IsRowWithin meter.old)) }
    ensures cut { IfErr result (IsCutBy meter.old meter.new) }
{
    negated(alloc, row, meter)
}
