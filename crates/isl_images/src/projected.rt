//! The domains and the ranges of maps.

ghost use Rattle.std.specs.Prelude.{◌≡◌, ◌↔◌, IfOk};
ghost use Rattle.isl_space.specs.Element.{Element};
ghost use Rattle.isl_space.specs.Valuation.{Valuation};
ghost use Rattle.isl_union.specs.Fault.{IsMeteredAnswer};
ghost use Rattle.isl_union.specs.KeptValue.{Has, IsKeptValue};
ghost use Rattle.isl_union.specs.Numbers.{IsWithinLimit};
ghost use Rattle.isl_relation.specs.Maps.{DomainHas, RangeHas};

use crate::image::{Image, image_of};
use isl_meter::Meter;
use isl_union::{OpFault, Value};
use std::alloc::Global;

/// The x that a value of maps maps to some y, over the same parameters. Pieces that are sets give none. (isl manual, relation
/// operations)
///
/// # Errors
///
/// As every call under a meter; never `TooWide`.
pub fn domain(alloc: Global, a: &Value, meter: &mut Meter) -> Result<Value, OpFault>
    requires { IsWithinLimit meter.old a.now }

    // The value, and what it has.
    ensures kept { IfOk result IsKeptValue }
    ensures params { IfOk result (λ value. value.params ≡ a.now.params) }
    ensures elements { (valuation : Valuation) (element : Element)
        → IfOk result (λ value. Has value valuation element ↔ DomainHas (Has a.now valuation) element) }

    // How it is written, and what that cost.
    ensures numbers { IfOk result (IsWithinLimit meter.old) }
    ensures meter { IsMeteredAnswer meter.old meter.new result }
{
    image_of(alloc, Image::Domain, a, meter)
}

/// The y that a value of maps maps some x to, over the same parameters. Pieces that are sets give none. (isl manual, relation
/// operations)
///
/// # Errors
///
/// As every call under a meter; never `TooWide`.
pub fn range(alloc: Global, a: &Value, meter: &mut Meter) -> Result<Value, OpFault>
    requires { IsWithinLimit meter.old a.now }

    // The value, and what it has.
    ensures kept { IfOk result IsKeptValue }
    ensures params { IfOk result (λ value. value.params ≡ a.now.params) }
    ensures elements { (valuation : Valuation) (element : Element)
        → IfOk result (λ value. Has value valuation element ↔ RangeHas (Has a.now valuation) element) }

    // How it is written, and what that cost.
    ensures numbers { IfOk result (IsWithinLimit meter.old) }
    ensures meter { IsMeteredAnswer meter.old meter.new result }
{
    image_of(alloc, Image::Range, a, meter)
}
