//! Systems in which equations tell the defined columns.

ghost use Rattle.std.specs.Prelude.{◌≡◌, ◌≢◌, ◌<◌, [], All, AllPairs, IfOk, IfSome, IsNone, IsTrue};
ghost use Rattle.isl_meter.specs.Gauge.{IsMetered, IsWithin};
ghost use Rattle.isl_piece.specs.Row.{IsRowWithin};
ghost use Rattle.isl_piece.specs.System.{IsSystemWithin, free_columns};
ghost use Rattle.isl_quotient.specs.Told.{IsPlainLeft, IsPlainOf};

use crate::opened::{opened, with_defined};
use crate::projection::others;
use crate::solved::{given_column, solved};
use isl_meter::{Cut, Int, Meter};
use isl_piece::{Row, System, normalise};
use std::alloc::{AllocError, Global};

fn is_within(number: Int, meter: &Meter) -> bool
    ensures { IsTrue result → IsWithin meter.now number }
{
    number.get().unsigned_abs() <= meter.limit().unsigned_abs()
}

fn are_within(numbers: &[Int], meter: &Meter) -> bool
    ensures { IsTrue result → All (IsWithin meter.now) numbers.now }
{
    for number in numbers {
        if !is_within(*number, meter) {
            return false;
        }
    }
    true
}

fn is_row_within(row: &Row, meter: &Meter) -> bool
    ensures { IsTrue result → IsRowWithin meter.now row.now }
{
    is_within(row.constant(), meter)
        && is_within(row.modulus(), meter)
        && are_within(row.coefs.as_slice(), meter)
}

fn are_rows_within(rows: &[Row], meter: &Meter) -> bool
    ensures { IsTrue result → All (IsRowWithin meter.now) rows.now }
{
    for row in rows {
        if !is_row_within(row, meter) {
            return false;
        }
    }
    true
}

// What is left of the system, which defines no column, without the columns, in normal form; nothing where an equation gives none of them,
// or nothing holds.
#[tactic(auto, using(std::proofs::lemmas::Grind::common_steps, isl_meter::proofs::CutLemmas::charges))]
fn without_given(
    alloc: Global,
    system: System,
    cols: &[usize],
    meter: &mut Meter,
) -> Result<Option<System>, Cut>
    requires well_formed { IsSystemWithin meter.old system }
    requires distinct { AllPairs (λ a b. a ≢ b) cols.now }
    requires cols_in { All (λ col. col < free_columns system) cols.now }
    requires plain { system.definitions ≡ [] }
    ensures left { IfOk result (λ found. IfSome found (IsPlainLeft meter.old system cols.now)) }
    ensures meter { IsMetered meter.old meter.new result }
{
    if cols.is_empty() {
        return Ok(normalise(alloc, system, meter)?);
    }
    let Some(given) = given_column(system.rows.as_slice(), cols) else {
        return Ok(None);
    };
    let left = others(alloc, cols, given.col)?;
    let Some(short) = solved(alloc, &system, cols, given, meter)? else {
        return Ok(None);
    };
    without_given(alloc, short, left.as_slice(), meter)
}

// The same of its defined columns, which are free then.
#[tactic(auto, using(std::proofs::lemmas::Grind::common_steps, isl_meter::proofs::CutLemmas::charges))]
fn without_defined(alloc: Global, system: &System, meter: &mut Meter) -> Result<Option<System>, Cut>
    requires well_formed { IsSystemWithin meter.old system.now }
    ensures left { IfOk result (λ found. IfSome found (IsPlainOf meter.old system.now)) }
    ensures meter { IsMetered meter.old meter.new result }
{
    let whole = opened(alloc, system, meter)?;
    let all = with_defined(alloc, system, &[])?;
    without_given(alloc, whole, all.as_slice(), meter)
}

/// The system over its free columns alone, where equations tell its defined columns, one after another: it holds at the same points.
/// Nothing where it defines no column; else nothing may be found, as where what is left of it holds nowhere, or has a number past the
/// limit. No unit is used.
///
/// # Errors
///
/// `AllocError` where memory ends.
pub fn without_definitions(
    alloc: Global,
    system: &System,
    meter: &Meter,
) -> Result<Option<System>, AllocError>
    requires well_formed { IsSystemWithin meter.now system.now }
    ensures plain { IfOk result (λ found. IfSome found (IsPlainOf meter.now system.now)) }
    ensures none { system.now.definitions ≡ [] → IfOk result IsNone }
{
    if system.definitions.is_empty() {
        return Ok(None);
    }
    // For the proof: the limit has at most 127 bits.
    let _bits = meter.limit();
    let mut calculator = Meter::new(127, 1);
    match without_defined(alloc, system, &mut calculator) {
        Ok(Some(plain)) => {
            if are_rows_within(plain.rows.as_slice(), meter) {
                return Ok(Some(plain));
            }
            Ok(None)
        }
        Ok(None) | Err(Cut::Overflow | Cut::Budget) => Ok(None),
        Err(Cut::NoMemory) => Err(AllocError),
    }
}
