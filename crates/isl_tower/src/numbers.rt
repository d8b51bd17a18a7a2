//! Systems with numbers in the place of their first columns.

ghost use Rattle.std.specs.Prelude.{◌≡◌, ◌≤◌, length, All, IfOk, MatchResult};
ghost use Rattle.isl_meter.specs.Gauge.{IsCharged, IsCutBy, IsWithin};
ghost use Rattle.isl_piece.specs.System.{IsSystemWithin};
ghost use Rattle.isl_tower.specs.Numbers.{row_at, system_at};

use isl_meter::{Cut, Int, Meter};
use isl_piece::{Coefs, Row, Rows, System};
use std::alloc::Global;

// The row over the other columns.
#[tactic(auto, using(std::proofs::lemmas::Grind::common_steps, crate::proofs::NumberLaws::number_steps))]
fn row_at(alloc: Global, row: &Row, numbers: &[i128], meter: &mut Meter) -> Result<Row, Cut>
    requires width { length numbers.now ≤ length row.now.coefs }
    ensures exact { MatchResult result
        (λ left. (left ≡ row_at numbers.now row.now) × IsWithin meter.old left.constant × (meter.new ≡ meter.old))
        (IsCutBy meter.old meter.new) }
{
    let coefs = row.coefs.as_slice();
    let mut sum = Int::ZERO;
    for i in 0..numbers.len() {
        let product = coefs[i].mul(Int::new(numbers[i]), meter)?;
        sum = sum.add(product, meter)?;
    }
    let constant = sum.add(row.constant(), meter)?;
    let left = Coefs::from_slice(alloc, &coefs[numbers.len()..])?;
    Ok(Row::new(row.kind, left, constant, row.modulus()))
}

/// The system over the other columns, in which these numbers stand for the first ones; no column of it is defined.
///
/// # Errors
///
/// `Overflow` where a number passes the limit of the meter, and `NoMemory`.
#[tactic(auto, using(crate::proofs::NumberLaws::number_steps))]
pub fn system_at(
    alloc: Global,
    system: &System,
    numbers: &[i128],
    meter: &mut Meter,
) -> Result<System, Cut>
    requires well_formed { IsSystemWithin meter.old system.now }
    requires count { length numbers.now ≤ system.now.columns }
    ensures exact { MatchResult result
        (λ left. (left ≡ system_at numbers.now system.now) × IsSystemWithin meter.old left × (meter.new ≡ meter.old))
        (IsCutBy meter.old meter.new) }
{
    let mut rows = Rows::with_capacity(alloc, system.rows.len())?;
    for row in system.rows.as_slice() {
        let left = row_at(alloc, row, numbers, meter)?;
        rows.push(left)?;
    }
    Ok(System::from_rows(alloc, system.columns - numbers.len(), rows))
}
