//! Sets in lexicographic order.

ghost use Rattle.std.specs.Prelude.{◌≡◌, ◌↔◌, IfOk};
ghost use Rattle.isl_space.specs.Element.{Element};
ghost use Rattle.isl_space.specs.Names.{joined};
ghost use Rattle.isl_space.specs.Valuation.{Valuation};
ghost use Rattle.isl_relation.specs.Together.{IsFormedFrom};
ghost use Rattle.isl_relation.specs.Wide.{PairsTooWide};
ghost use Rattle.isl_union.specs.KeptValue.{Has, IsKeptValue};
ghost use Rattle.isl_union.specs.Numbers.{IsWithinLimit};
ghost use Rattle.isl_relation.specs.Formed.{FormsSame};
ghost use Rattle.isl_relation.specs.Orders.{ComesAfter, ComesBefore, IsDownTo, IsUpTo, OrderedSetsHas};

use crate::order::{Operands, Order};
use crate::values::ordered;
use isl_meter::Meter;
use isl_union::{OpFault, Value};
use std::alloc::Global;

/// From each element of the first set to those of the second of its shape that it is less than, over the joined parameters. Pieces that are
/// maps give nothing. (isl manual, lexicographic order)
///
/// # Errors
///
/// As every call under a meter; and `TooWide` exactly where the two together declare more than 16 parameters, or a space that is
/// formed is too wide, unless memory ends: no unit is used then.
pub fn less_sets(alloc: Global, a: &Value, b: &Value, meter: &mut Meter) -> Result<Value, OpFault>
    requires own { IsWithinLimit meter.old a.now }
    requires other { IsWithinLimit meter.old b.now }

    // The value, and what it has.
    ensures kept { IfOk result IsKeptValue }
    ensures params { IfOk result (λ value. value.params ≡ joined a.now.params b.now.params) }
    ensures elements { (valuation : Valuation) (element : Element)
        → IfOk result (λ value. Has value valuation element
        ↔ OrderedSetsHas ComesBefore (Has a.now valuation) (Has b.now valuation) element) }

    // How it is written, and what that cost.
    ensures numbers { IfOk result (IsWithinLimit meter.old) }
    ensures units { IsFormedFrom (joined a.now.params b.now.params) (PairsTooWide FormsSame a.now b.now) 0
        meter.old meter.new result }
{
    ordered(alloc, Operands::Sets, Order::Less, a, b, meter)
}

/// From each element of the first set to those of the second of its shape that it is not greater than. (isl manual, lexicographic
/// order)
///
/// # Errors
///
/// As every call under a meter; and `TooWide` exactly where the two together declare more than 16 parameters, or a space that is
/// formed is too wide, unless memory ends: no unit is used then.
pub fn less_eq_sets(
    alloc: Global,
    a: &Value,
    b: &Value,
    meter: &mut Meter,
) -> Result<Value, OpFault>
    requires own { IsWithinLimit meter.old a.now }
    requires other { IsWithinLimit meter.old b.now }

    // The value, and what it has.
    ensures kept { IfOk result IsKeptValue }
    ensures params { IfOk result (λ value. value.params ≡ joined a.now.params b.now.params) }
    ensures elements { (valuation : Valuation) (element : Element)
        → IfOk result (λ value. Has value valuation element
        ↔ OrderedSetsHas IsUpTo (Has a.now valuation) (Has b.now valuation) element) }

    // How it is written, and what that cost.
    ensures numbers { IfOk result (IsWithinLimit meter.old) }
    ensures units { IsFormedFrom (joined a.now.params b.now.params) (PairsTooWide FormsSame a.now b.now) 0
        meter.old meter.new result }
{
    ordered(alloc, Operands::Sets, Order::UpTo, a, b, meter)
}

/// From each element of the first set to those of the second of its shape that it is greater than. (isl manual, lexicographic order)
///
/// # Errors
///
/// As every call under a meter; and `TooWide` exactly where the two together declare more than 16 parameters, or a space that is
/// formed is too wide, unless memory ends: no unit is used then.
pub fn greater_sets(
    alloc: Global,
    a: &Value,
    b: &Value,
    meter: &mut Meter,
) -> Result<Value, OpFault>
    requires own { IsWithinLimit meter.old a.now }
    requires other { IsWithinLimit meter.old b.now }

    // The value, and what it has.
    ensures kept { IfOk result IsKeptValue }
    ensures params { IfOk result (λ value. value.params ≡ joined a.now.params b.now.params) }
    ensures elements { (valuation : Valuation) (element : Element)
        → IfOk result (λ value. Has value valuation element
        ↔ OrderedSetsHas ComesAfter (Has a.now valuation) (Has b.now valuation) element) }

    // How it is written, and what that cost.
    ensures numbers { IfOk result (IsWithinLimit meter.old) }
    ensures units { IsFormedFrom (joined a.now.params b.now.params) (PairsTooWide FormsSame a.now b.now) 0
        meter.old meter.new result }
{
    ordered(alloc, Operands::Sets, Order::Greater, a, b, meter)
}

/// From each element of the first set to those of the second of its shape that it is not less than. (isl manual, lexicographic order)
///
/// # Errors
///
/// As every call under a meter; and `TooWide` exactly where the two together declare more than 16 parameters, or a space that is
/// formed is too wide, unless memory ends: no unit is used then.
pub fn greater_eq_sets(
    alloc: Global,
    a: &Value,
    b: &Value,
    meter: &mut Meter,
) -> Result<Value, OpFault>
    requires own { IsWithinLimit meter.old a.now }
    requires other { IsWithinLimit meter.old b.now }

    // The value, and what it has.
    ensures kept { IfOk result IsKeptValue }
    ensures params { IfOk result (λ value. value.params ≡ joined a.now.params b.now.params) }
    ensures elements { (valuation : Valuation) (element : Element)
        → IfOk result (λ value. Has value valuation element
        ↔ OrderedSetsHas IsDownTo (Has a.now valuation) (Has b.now valuation) element) }

    // How it is written, and what that cost.
    ensures numbers { IfOk result (IsWithinLimit meter.old) }
    ensures units { IsFormedFrom (joined a.now.params b.now.params) (PairsTooWide FormsSame a.now b.now) 0
        meter.old meter.new result }
{
    ordered(alloc, Operands::Sets, Order::DownTo, a, b, meter)
}
