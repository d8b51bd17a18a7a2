//! Calls as items.

ghost use Rattle.std.specs.Prelude.{◌≡◌, IfOk};
ghost use Rattle.isl_meter.specs.Gauge.{IsMetered};
ghost use Rattle.isl_space.specs.Shape.{form_of};
ghost use Rattle.isl_calls.specs.Calls.{AreCalls};
ghost use Rattle.isl_schedule.specs.Due.{name_of};
ghost use Rattle.isl_calls.specs.Items.{IsItemOf};

use crate::cover_rows::covers_of;
use crate::{Calls, Covers};
use isl_elim::columns_between;
use isl_meter::{Cut, Meter};
use isl_nest::Item;
use isl_space::{Name, Shape};
use std::alloc::{AllocError, Global};

// The name of what is called; a pair has none.
fn name_of(shape: &Shape) -> Result<Option<Name>, AllocError>
    ensures { IfOk result (λ name. name ≡ name_of (form_of shape.now)) }
{
    match shape {
        Shape::Leaf {
            name: Some(name),
            ..
        } => Ok(Some(name.copy()?)),
        Shape::Leaf { .. } | Shape::Pair(..) => Ok(None),
    }
}

/// The item of calls over so many parameters: its columns are those of the calls, and its arguments the last of them, or the times
/// themselves.
///
/// # Errors
///
/// As every call under a meter.
pub(crate) fn item_of(
    alloc: Global,
    params: usize,
    calls: &Calls,
    meter: &mut Meter,
) -> Result<Item, Cut>
    requires { AreCalls meter.old params calls.now }
    ensures item { IfOk result (IsItemOf meter.old params calls.now) }
    ensures meter { IsMetered meter.old meter.new result }
{
    let covers = Covers::of(alloc, &calls.system, params, meter)?;
    let end = calls.system.free();
    Ok(Item {
        name: name_of(&calls.domain)?,
        params,
        levels: end - params,
        times: calls.time.width() as usize,
        arguments: columns_between(alloc, end - calls.domain.width() as usize, end)?,
        rows: calls.system.rows.copy(alloc)?,
        covers: covers_of(alloc, &covers)?,
    })
}
