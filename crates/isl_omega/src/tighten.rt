//! Bounds divided as far as they go.

ghost use Rattle.std.specs.Prelude.{◌≡◌, IfOk};
ghost use Rattle.isl_piece.specs.declared.row.RowKind.TheVariants.{AtLeast};
ghost use Rattle.isl_piece.specs.Row.{IsRowWithin, IsWellFormed};
ghost use Rattle.isl_omega.specs.Tighten.{IsTightened};

use isl_meter::Meter;
use isl_piece::{Outcome, Row, settle};
use std::alloc::{AllocError, Global};

/// The bound in normal form; as it is where no column occurs.
pub(crate) fn tightened(
    alloc: Global,
    row: Row,
    columns: usize,
    meter: &Meter,
) -> Result<Row, AllocError>
    requires kind { row.kind ≡ AtLeast }
    requires well_formed { IsWellFormed columns row }
    requires within { IsRowWithin meter.now row }
    ensures { IfOk result (λ tight. IsTightened columns row tight × IsRowWithin meter.now tight) }
{
    let mut tight = row.copy(alloc)?;
    match settle(&mut tight, meter) {
        Outcome::Stays => Ok(tight),
        Outcome::Holds | Outcome::Fails => Ok(row),
    }
}
