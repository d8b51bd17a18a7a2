//! What an order makes of two values.

ghost use Rattle.std.specs.Prelude.{◌≡◌, ◌↔◌, IfOk};
ghost use Rattle.isl_space.specs.Element.{Element};
ghost use Rattle.isl_space.specs.Names.{joined};
ghost use Rattle.isl_space.specs.Valuation.{Valuation};
ghost use Rattle.isl_relation.specs.Together.{IsFormedFrom};
ghost use Rattle.isl_relation.specs.Wide.{PairsTooWide};
ghost use Rattle.isl_union.specs.KeptValue.{Has, IsKeptValue};
ghost use Rattle.isl_union.specs.Numbers.{IsWithinLimit};
ghost use Rattle.isl_orders.specs.Comparison.{Forms, OrderedHas};

use crate::compare::all_compared;
use crate::order::{Comparison, Operands, Order};
use crate::wide::have_wide;
use isl_meter::Meter;
use isl_union::{OpFault, Value, aligned_pair};
use std::alloc::Global;

/// From what the one value has to what the other has of one shape, so ordered, over the joined parameters: elements of sets, or images of
/// maps.
///
/// # Errors
///
/// As every call under a meter; and `TooWide` exactly where the two together declare more than 16 parameters, or a space that is
/// formed is too wide, unless memory ends: no unit is used then.
pub(crate) fn ordered(
    alloc: Global,
    operands: Operands,
    order: Order,
    a: &Value,
    b: &Value,
    meter: &mut Meter,
) -> Result<Value, OpFault>
    requires own { IsWithinLimit meter.old a.now }
    requires other { IsWithinLimit meter.old b.now }

    // The value, and what it has.
    ensures kept { IfOk result IsKeptValue }
    ensures params { IfOk result (λ value. value.params ≡ joined a.now.params b.now.params) }
    ensures elements { (valuation : Valuation) (element : Element)
        → IfOk result (λ value. Has value valuation element
        ↔ OrderedHas operands order (Has a.now valuation) (Has b.now valuation) element) }

    // How it is written, and what that cost.
    ensures numbers { IfOk result (IsWithinLimit meter.old) }
    ensures units { IsFormedFrom (joined a.now.params b.now.params) (PairsTooWide (Forms operands) a.now b.now) 0
        meter.old meter.new result }
{
    let pair = aligned_pair(alloc, a, b, meter)?;
    if have_wide(operands, a.pieces(), b.pieces())? {
        return Err(OpFault::TooWide);
    }
    let comparison = Comparison { operands, order };
    let made = all_compared(
        alloc,
        &pair.params,
        comparison,
        pair.own.as_slice(),
        pair.others.as_slice(),
        meter,
    )?;
    Ok(Value::from_normal(pair.params, made))
}
