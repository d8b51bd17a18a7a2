//! Values of one element.

ghost use Rattle.std.specs.Prelude.{◌≡◌, ◌<◌, ◌≤◌, ◌+◌, ◌*◌, ℕ, ℤ, ⊤, List, All, IfOk, MatchResult, length};
ghost use Rattle.isl_meter.specs.Gauge.{IsCharged, IsMetered, IsWithin};
ghost use Rattle.isl_space.specs.Space.{space_form_of};
ghost use Rattle.isl_piece.specs.System.{HoldsSystem, IsSystemWithin, free_columns};
ghost use Rattle.isl_ledger.specs.Answered.{IsTame};
ghost use Rattle.isl_ledger.specs.Difference.{IsDifferenceSystem};
ghost use Rattle.isl_ledger.specs.Work.{Size, allowance};
ghost use Rattle.isl_elim.specs.Sample.{IsNowhere, IsSample};
ghost use Rattle.isl_union.specs.Fault.{IsCutFault};
ghost use Rattle.isl_union.specs.KeptValue.{HasNoDefinitions, IsKeptValue};
ghost use Rattle.isl_union.specs.Numbers.{IsWithinLimit};
ghost use Rattle.isl_union.specs.Sample.{number_row, number_rows, point_system, IsSampleOf};
ghost use Rattle.isl_union.specs.Tame.{IsOfSize, IsTameAnswer};

use crate::{OpFault, Value};
use isl_elim::sample_point;
use isl_meter::{Cut, Int, Meter};
use isl_piece::{Coefs, Piece, Row, RowKind, System};
use isl_space::Space;
use std::alloc::{AllocError, Global};

// The row over so many columns that says that one of them is this number.
fn number_row(
    alloc: Global,
    columns: usize,
    column: usize,
    number: i128,
    meter: &Meter,
) -> Result<Row, AllocError>
    requires column_in { column < columns }
    requires within { IsWithin meter.now number }
    ensures { IfOk result (λ row. row ≡ number_row columns column number) }
{
    let mut coefs = Coefs::zeros(alloc, columns)?;
    coefs.set(column, Int::ONE);
    let constant = Int::new(number).neg(meter);
    Ok(Row::new(RowKind::Zero, coefs, constant, Int::ONE))
}

// The piece of the space with the system of this point alone.
fn only_piece(
    alloc: Global,
    space: &Space,
    point: &[i128],
    meter: &Meter,
) -> Result<Piece, AllocError>
    requires { All (IsWithin meter.now) point.now }
    ensures { IfOk result (λ only. only ≡ record { space = space_form_of space.now; system = point_system point.now }) }
{
    let columns = point.len();
    let mut only = Piece::new(alloc, space.copy()?, System::new(alloc, columns))?;
    for column in 0..columns {
        only.push_row(number_row(alloc, columns, column, point[column], meter)?)?;
    }
    Ok(only)
}

// The piece of one point of this one alone.
#[tactic(auto, using(std::proofs::lemmas::Grind::common_steps, isl_meter::proofs::CutLemmas::charges))]
fn point_piece(alloc: Global, piece: &Piece, meter: &mut Meter) -> Result<Piece, Cut>
    requires within { IsSystemWithin meter.old piece.now.system }
    requires live { ¬ IsNowhere (free_columns piece.now.system) (HoldsSystem piece.now.system) }
    ensures exact { IfOk result (λ only. (point : List ℤ)
        × IsSample meter.old (free_columns piece.now.system) (HoldsSystem piece.now.system) point
        × (only ≡ record { space = piece.now.space; system = point_system point })) }
    ensures meter { IsMetered meter.old meter.new result }
    ensures tame { (columns bits : ℕ) → meter.old.bits ≡ 127 → bits + columns ≤ 119 → IsDifferenceSystem columns bits piece.now.system
        → IsTame (8 * ((columns + 1) * allowance 1 columns)) meter.old meter.new (λ _. ⊤) result }
{
    match sample_point(alloc, piece.system(), meter)? {
        None => unreachable!(),
        Some(point) => Ok(only_piece(alloc, piece.space(), point.as_slice(), meter)?),
    }
}

impl Value {
    /// A value of one element of this one, at one valuation: a piece with a row for each parameter and each coordinate, which
    /// says what number it is; no piece exactly where this value has no element at any valuation. (isl manual, on samples)
    ///
    /// # Errors
    ///
    /// `Overflow` where a number passes the limit of the meter, `Budget` where its units are used up, and `NoMemory`; never
    /// `TooWide`.
    #[tactic(auto, using(std::proofs::lemmas::Grind::common_steps, isl_meter::proofs::CutLemmas::charges))]
    pub fn sample(&self, alloc: Global, meter: &mut Meter) -> Result<Value, OpFault>
        requires { IsWithinLimit meter.old self.now }
        ensures exact { IfOk result (IsSampleOf self.now) }
        ensures kept { IfOk result IsKeptValue }
        ensures definitions { IfOk result HasNoDefinitions }
        ensures within { IfOk result (IsWithinLimit meter.old) }
        ensures meter { MatchResult result (λ _. IsCharged meter.old meter.new) (IsCutFault meter.old meter.new) }
        ensures tame { (size : Size) → meter.old.bits ≡ 127 → size.bits + size.columns ≤ 119 → IsOfSize self.now.params size self.now
            → IsTameAnswer (8 * ((size.columns + 1) * allowance size.pieces size.columns)) meter.old meter.new (λ _. ⊤) result }
    {
        let params = self.params().copy(alloc)?;
        let Some(first) = self.pieces().first() else {
            return Ok(Value::empty(alloc, params));
        };
        let _limit = meter.limit();
        let mut pieces = Vec::new(alloc);
        pieces.push(point_piece(alloc, first, meter)?)?;
        Ok(Value::from_normal(params, pieces))
    }
}
