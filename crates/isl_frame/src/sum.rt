//! Sums of columns, over the variables.

ghost use Rattle.std.specs.Prelude.{◌≡◌, length, IfOk};
ghost use Rattle.isl_meter.specs.Gauge.{IsDone, IsWithin};
ghost use Rattle.isl_piece.specs.declared.row.RowKind.TheVariants.{Divides};
ghost use Rattle.isl_piece.specs.Row.{HasModulus, IsRowWithin};

use isl_meter::{Cut, Int, Meter};
use isl_piece::{Coefs, Row, combination};
use std::alloc::{AllocError, Global};

/// A sum over the variables, times a number above 0.
#[derive(Drop)]
pub struct Sum {
    pub row: Row,
    pub scale: Int,
}

impl Sum {
    ghost use Rattle.std.specs.Prelude.{List};
    ghost use Rattle.isl_piece.specs.declared.row.Row.{Row};
    ghost use Rattle.isl_frame.specs.Sum.{IsSum, IsSumOf, IsSumWith};

    /// The constant of the row.
    pub(crate) fn of_constant(
        alloc: Global,
        row: &Row,
        variables: usize,
        meter: &Meter,
    ) -> Result<Sum, AllocError>
        requires modulus { HasModulus row.now.kind row.now.k }
        requires within { IsRowWithin meter.now row.now }
        ensures sum { IfOk result (IsSum meter.now) }
        ensures exact { (frame : List Row) → IfOk result (IsSumOf variables row.now frame 0) }
    {
        let zeros = Coefs::zeros(alloc, variables)?;
        Ok(Sum {
            row: Row::new(row.kind, zeros, row.constant(), row.modulus()),
            scale: Int::ONE,
        })
    }

    /// So many times the column more. Both are multiplied, so that the column's divisor goes.
    pub(crate) fn with(
        self,
        alloc: Global,
        coef: Int,
        entry: &Row,
        meter: &mut Meter,
    ) -> Result<Sum, Cut>
        requires sum { IsSum meter.old self }
        requires coef { IsWithin meter.old coef }
        requires width { length entry.now.coefs ≡ length self.row.coefs }
        requires divides { (entry.now.kind ≡ Divides) × HasModulus Divides entry.now.k }
        requires entry { IsRowWithin meter.old entry.now }
        ensures { IsDone meter.old meter.new (λ new. IsSum meter.old new × IsSumWith self coef entry.now new) result }
    {
        if coef.is_zero() {
            return Ok(self);
        }
        let common = self.scale.gcd(entry.modulus(), meter);
        let by = entry.modulus().floor_div(common, meter);
        let times = coef.mul(self.scale.floor_div(common, meter), meter)?;
        let scale = by.mul(self.scale, meter)?;
        let row = combination(alloc, by, &self.row, times, entry, meter)?;
        Ok(Sum { row, scale })
    }
}
