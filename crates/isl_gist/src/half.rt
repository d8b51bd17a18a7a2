//! The halves of equations.

ghost use Rattle.std.specs.Prelude.{◌≡◌, negsuc, All, IfOk};
ghost use Rattle.isl_math.specs.Dot.{scaled};
ghost use Rattle.isl_meter.specs.Gauge.{IsWithin};
ghost use Rattle.isl_piece.specs.Row.{IsRowWithin};
ghost use Rattle.isl_gist.specs.Halves.{lower_half, upper_half};

use isl_meter::{Int, Meter};
use isl_piece::{Coefs, Row, RowKind};
use std::alloc::{AllocError, Global};

// The negative of each number.
fn negative(alloc: Global, coefs: &Coefs, meter: &Meter) -> Result<Coefs, AllocError>
    requires { All (IsWithin meter.now) coefs.now }
    ensures { IfOk result (λ made. made ≡ scaled (negsuc 0) coefs.now) }
{
    let mut made = Coefs::new(alloc);
    for coef in coefs.as_slice() {
        made.push(coef.neg(meter))?;
    }
    Ok(made)
}

/// The half of an equation that says that its form is at least 0.
///
/// # Errors
///
/// Where memory ends.
pub(crate) fn upper_half(alloc: Global, row: &Row) -> Result<Row, AllocError>
    ensures { IfOk result (λ half. half ≡ upper_half row.now) }
{
    let coefs = row.coefs.copy(alloc)?;
    Ok(Row::new(RowKind::AtLeast, coefs, row.constant(), Int::ONE))
}

/// The half of an equation that says that its form is at most 0.
///
/// # Errors
///
/// Where memory ends.
pub(crate) fn lower_half(alloc: Global, row: &Row, meter: &Meter) -> Result<Row, AllocError>
    requires { IsRowWithin meter.now row.now }
    ensures { IfOk result (λ half. half ≡ lower_half row.now) }
{
    let coefs = negative(alloc, &row.coefs, meter)?;
    let constant = row.constant().neg(meter);
    Ok(Row::new(RowKind::AtLeast, coefs, constant, Int::ONE))
}
