//! What a map makes of what it is applied to.

ghost use Rattle.std.specs.Prelude.{◌≡◌, ◌↔◌, true, IfOk, MatchResult};
ghost use Rattle.isl_space.specs.Element.{Element};
ghost use Rattle.isl_space.specs.Names.{joined};
ghost use Rattle.isl_space.specs.Valuation.{Valuation};
ghost use Rattle.isl_union.specs.KeptValue.{Has, IsKeptValue};
ghost use Rattle.isl_union.specs.Numbers.{IsWithinLimit};
ghost use Rattle.isl_operators.specs.Operations.{ApplicationHas};
ghost use Rattle.isl_operators.specs.Formed.{ApplicationForms, PairsWide};
ghost use Rattle.isl_operators.specs.Made.{IsApplicationOf, IsPaid, IsWhyNone};

use crate::spaces::has_maps;
use isl_maps::{apply, join};
use isl_meter::Meter;
use isl_union::{OpFault, Value};
use std::alloc::Global;

/// A map applied to a set, or to a map: what it maps the elements of the one to, or the pairs of the other followed by its own. The
/// parameters of the map come first, and then the new ones of the argument. Pairs are looked for only where the argument has maps. (the
/// iscc chapter of the barvinok manual)
///
/// # Errors
///
/// As every call under a meter; and `TooWide` exactly where the two together declare more than 16 parameters, or a space from the domain
/// of a map that it is applied to, to the range of one that is applied, is too wide and the two meet, unless memory ends: no unit is
/// used then.
pub fn applied(
    alloc: Global,
    map: &Value,
    argument: &Value,
    meter: &mut Meter,
) -> Result<Value, OpFault>
    requires map { IsWithinLimit meter.old map.now }
    requires argument { IsWithinLimit meter.old argument.now }
    ensures written { IfOk result (IsApplicationOf map.now argument.now) }
    ensures kept { IfOk result IsKeptValue }
    ensures params { IfOk result (λ value. value.params ≡ joined map.now.params argument.now.params) }
    ensures elements { (valuation : Valuation) (element : Element)
        → IfOk result (λ value. Has value valuation element
        ↔ ApplicationHas (Has map.now valuation) (Has argument.now valuation) element) }
    ensures numbers { IfOk result (IsWithinLimit meter.old) }
    ensures narrow { IfOk result (λ _. ¬ PairsWide ApplicationForms (Has map.now) (Has argument.now)) }
    ensures units { MatchResult result (λ _. IsPaid true meter.old meter.new)
        (IsWhyNone (joined map.now.params argument.now.params) (PairsWide ApplicationForms (Has map.now) (Has argument.now)) true
        meter.old meter.new) }
{
    // For what values keep.
    let _map = map.pieces();
    let _argument = argument.pieces();
    if !has_maps(argument) {
        return apply(alloc, map, argument, meter);
    }
    let followed = join(alloc, argument, map, meter)?;
    let images = apply(alloc, map, argument, meter)?;
    images.union(alloc, &followed, meter)
}
