//! Maps restricted by sets.

ghost use Rattle.std.specs.Prelude.{◌≡◌, ◌↔◌, IfOk};
ghost use Rattle.isl_space.specs.Element.{Element};
ghost use Rattle.isl_space.specs.Names.{joined};
ghost use Rattle.isl_space.specs.Valuation.{Valuation};
ghost use Rattle.isl_relation.specs.Maps.{RestrictDomainHas, RestrictRangeHas};
ghost use Rattle.isl_relation.specs.Together.{IsWorkedFrom, is_domain, is_range, pairs_together};
ghost use Rattle.isl_union.specs.KeptValue.{Has, HasNoDefinitions, IsKeptValue};
ghost use Rattle.isl_union.specs.Numbers.{IsWithinLimit};

use crate::layout::{Place, Product};
use crate::product::product_of;
use isl_meter::Meter;
use isl_union::{OpFault, Value};
use std::alloc::Global;

/// Those x → y of the map whose x is in the set, over the joined parameters. Each pair of a piece of the map and one of the set
/// in the form of its x uses a unit, and so does the question whether it has an element. (isl manual, on relation operations)
///
/// # Errors
///
/// As every call under a meter; and `TooWide` exactly where the two together declare more than 16 parameters, unless memory ends:
/// no unit is used then.
pub fn restrict_domain(
    alloc: Global,
    map: &Value,
    set: &Value,
    meter: &mut Meter,
) -> Result<Value, OpFault>
    requires own { IsWithinLimit meter.old map.now }
    requires other { IsWithinLimit meter.old set.now }

    // The value, and what it has.
    ensures kept { IfOk result IsKeptValue }
    ensures params { IfOk result (λ value. value.params ≡ joined map.now.params set.now.params) }
    ensures elements { (valuation : Valuation) (element : Element)
        → IfOk result (λ value. Has value valuation element ↔ RestrictDomainHas (Has map.now valuation) (Has set.now valuation) element) }

    // How it is written, and what that cost.
    ensures definitions { HasNoDefinitions map.now → HasNoDefinitions set.now → IfOk result HasNoDefinitions }
    ensures numbers { IfOk result (IsWithinLimit meter.old) }
    ensures units { IsWorkedFrom (joined map.now.params set.now.params) (pairs_together is_domain map.now set.now)
        meter.old meter.new result }
{
    product_of(alloc, Product::Restrict(Place::Domain), map, set, meter)
}

/// Those x → y of the map whose y is in the set, over the joined parameters. Units as of `restrict_domain`. (isl manual, on
/// relation operations)
///
/// # Errors
///
/// As every call under a meter; and `TooWide` exactly where the two together declare more than 16 parameters, unless memory ends:
/// no unit is used then.
pub fn restrict_range(
    alloc: Global,
    map: &Value,
    set: &Value,
    meter: &mut Meter,
) -> Result<Value, OpFault>
    requires own { IsWithinLimit meter.old map.now }
    requires other { IsWithinLimit meter.old set.now }

    // The value, and what it has.
    ensures kept { IfOk result IsKeptValue }
    ensures params { IfOk result (λ value. value.params ≡ joined map.now.params set.now.params) }
    ensures elements { (valuation : Valuation) (element : Element)
        → IfOk result (λ value. Has value valuation element ↔ RestrictRangeHas (Has map.now valuation) (Has set.now valuation) element) }

    // How it is written, and what that cost.
    ensures definitions { HasNoDefinitions map.now → HasNoDefinitions set.now → IfOk result HasNoDefinitions }
    ensures numbers { IfOk result (IsWithinLimit meter.old) }
    ensures units { IsWorkedFrom (joined map.now.params set.now.params) (pairs_together is_range map.now set.now)
        meter.old meter.new result }
{
    product_of(alloc, Product::Restrict(Place::Range), map, set, meter)
}
