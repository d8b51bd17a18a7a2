//! Columns that an equality determines.

ghost use Rattle.std.specs.Prelude.{◌≡◌, ◌≢◌, ◌+◌, ℤ, pos, List, All, IfOk, length};
ghost use Rattle.isl_math.specs.Divide as divide;
ghost use Rattle.isl_math.specs.Dot.{scaled};
ghost use Rattle.isl_math.specs.Order.{sign_of};
ghost use Rattle.isl_meter.specs.Gauge.{IsWithin};
ghost use Rattle.isl_piece.specs.declared.row.RowKind.TheVariants.{Zero};
ghost use Rattle.isl_piece.specs.Row.{coef_at, HoldsRow, IsRowWithin, IsWellFormed};
ghost use Rattle.isl_frame.specs.Frame.{isolated, IsLowest, IsSolved};

use isl_meter::{Int, Meter};
use isl_piece::{Coefs, Outcome, Row, RowKind, settle};
use std::alloc::{AllocError, Global};

/// Each number times the sign of another one.
///
/// # Errors
///
/// `AllocError` where memory ends.
pub fn signed(alloc: Global, numbers: &[Int], by: Int, meter: &Meter) -> Result<Coefs, AllocError>
    requires { All (IsWithin meter.now) numbers.now }
    ensures exact { IfOk result (λ coefs. coefs ≡ scaled (sign_of by) numbers.now) }
    ensures within { IfOk result (All (IsWithin meter.now)) }
{
    let mut coefs = Coefs::new(alloc);
    for i in 0..numbers.len() {
        coefs.push(numbers[i].times_sign_of(by, meter))?;
    }
    Ok(coefs)
}

/// The row's form but for the last of its columns, with the sign at which the last one is taken away, as a congruence modulo the magnitude
/// of the last one's coefficient. Of an equality it says which number the last column has, and where it has one.
///
/// # Errors
///
/// `AllocError` where memory ends.
pub fn isolated(
    alloc: Global,
    row: &Row,
    variables: usize,
    meter: &Meter,
) -> Result<Row, AllocError>
    requires row { IsWellFormed (variables + 1) row.now }
    requires within { IsRowWithin meter.now row.now }
    ensures exact { IfOk result (λ entry. entry ≡ isolated variables row.now) }
    ensures solved { row.now.kind ≡ Zero → coef_at row.now variables ≢ pos 0 → IfOk result (IsSolved variables row.now) }
    ensures within { IfOk result (IsRowWithin meter.now) }
{
    let mut coefs = row.coefs.copy(alloc)?;
    let last = coefs.remove(variables);
    let sign = last.neg(meter);
    Ok(Row::new(
        RowKind::Divides,
        signed(alloc, coefs.as_slice(), sign, meter)?,
        row.constant().times_sign_of(sign, meter),
        last.abs(meter),
    ))
}

/// The congruence in lowest terms that says of an equality which number the last of its columns has, and where it has one.
///
/// # Errors
///
/// `AllocError` where memory ends.
pub fn solution(
    alloc: Global,
    row: &Row,
    variables: usize,
    meter: &Meter,
) -> Result<Row, AllocError>
    requires row { IsWellFormed (variables + 1) row.now }
    requires within { IsRowWithin meter.now row.now }
    ensures solved { row.now.kind ≡ Zero → coef_at row.now variables ≢ pos 0 → IfOk result (IsSolved variables row.now) }
    ensures divides { row.now.kind ≡ Zero → coef_at row.now variables ≢ pos 0
        → IfOk result (λ entry. divide.Divides entry.k (coef_at row.now variables)) }
    ensures lowest { (point : List ℤ) → row.now.kind ≡ Zero → coef_at row.now variables ≢ pos 0 → HoldsRow row.now point
        → IfOk result IsLowest }
    ensures within { IfOk result (IsRowWithin meter.now) }
{
    let mut normal = row.copy(alloc)?;
    match settle(&mut normal, meter) {
        Outcome::Stays => isolated(alloc, &normal, variables, meter),
        Outcome::Holds | Outcome::Fails => isolated(alloc, row, variables, meter),
    }
}
