//! Products of two values.

ghost use Rattle.std.specs.Prelude.{◌≡◌, ◌↔◌, IfOk};
ghost use Rattle.isl_space.specs.Element.{Element};
ghost use Rattle.isl_space.specs.Names.{joined};
ghost use Rattle.isl_space.specs.Valuation.{Valuation};
ghost use Rattle.isl_relation.specs.Formed.{FormsCrossMaps, FormsCrossSets, FormsUniversal};
ghost use Rattle.isl_relation.specs.Pairs.{CrossMapsHas};
ghost use Rattle.isl_relation.specs.Sets.{CrossSetsHas, UniversalHas};
ghost use Rattle.isl_relation.specs.Together.{IsFormedFrom, are_maps, are_sets, pairs_together};
ghost use Rattle.isl_relation.specs.Wide.{PairsTooWide};
ghost use Rattle.isl_union.specs.KeptValue.{Has, HasNoDefinitions, IsKeptValue};
ghost use Rattle.isl_union.specs.Numbers.{IsWithinLimit};

use crate::layout::Product;
use crate::product::product_of;
use isl_meter::Meter;
use isl_union::{OpFault, Value};
use std::alloc::Global;

/// The map from each element of the first set to each of the second, over the joined parameters. Each pair of a piece of the one
/// and a piece of the other uses a unit, and so does the question whether it has an element. Pieces that are maps give nothing.
/// (isl manual, on relation operations)
///
/// # Errors
///
/// As every call under a meter; and `TooWide` exactly where the two together declare more than 16 parameters, or a space that is
/// formed is too wide, unless memory ends: no unit is used then.
pub fn universal(alloc: Global, a: &Value, b: &Value, meter: &mut Meter) -> Result<Value, OpFault>
    requires own { IsWithinLimit meter.old a.now }
    requires other { IsWithinLimit meter.old b.now }

    // The value, and what it has.
    ensures kept { IfOk result IsKeptValue }
    ensures params { IfOk result (λ value. value.params ≡ joined a.now.params b.now.params) }
    ensures elements { (valuation : Valuation) (element : Element)
        → IfOk result (λ value. Has value valuation element ↔ UniversalHas (Has a.now valuation) (Has b.now valuation) element) }

    // How it is written, and what that cost.
    ensures definitions { HasNoDefinitions a.now → HasNoDefinitions b.now → IfOk result HasNoDefinitions }
    ensures numbers { IfOk result (IsWithinLimit meter.old) }
    ensures units { IsFormedFrom (joined a.now.params b.now.params) (PairsTooWide FormsUniversal a.now b.now)
        (pairs_together are_sets a.now b.now) meter.old meter.new result }
{
    product_of(alloc, Product::Universal, a, b, meter)
}

/// The pairs `[x -> y]` of an element of the first set and one of the second, over the joined parameters. Units as of `universal`.
/// (isl manual, on cross products)
///
/// # Errors
///
/// As every call under a meter; and `TooWide` exactly where the two together declare more than 16 parameters, or a space that is
/// formed is too wide, unless memory ends: no unit is used then.
pub fn cross_sets(alloc: Global, a: &Value, b: &Value, meter: &mut Meter) -> Result<Value, OpFault>
    requires own { IsWithinLimit meter.old a.now }
    requires other { IsWithinLimit meter.old b.now }

    // The value, and what it has.
    ensures kept { IfOk result IsKeptValue }
    ensures params { IfOk result (λ value. value.params ≡ joined a.now.params b.now.params) }
    ensures elements { (valuation : Valuation) (element : Element)
        → IfOk result (λ value. Has value valuation element ↔ CrossSetsHas (Has a.now valuation) (Has b.now valuation) element) }

    // How it is written, and what that cost.
    ensures definitions { HasNoDefinitions a.now → HasNoDefinitions b.now → IfOk result HasNoDefinitions }
    ensures numbers { IfOk result (IsWithinLimit meter.old) }
    ensures units { IsFormedFrom (joined a.now.params b.now.params) (PairsTooWide FormsCrossSets a.now b.now)
        (pairs_together are_sets a.now b.now) meter.old meter.new result }
{
    product_of(alloc, Product::CrossSets, a, b, meter)
}

/// From `[x -> u]` to `[y -> w]`, where the first map has x → y and the second u → w, over the joined parameters. Units as of
/// `universal`; pieces that are sets give nothing. (isl manual, on cross products)
///
/// # Errors
///
/// As every call under a meter; and `TooWide` exactly where the two together declare more than 16 parameters, or a space that is
/// formed is too wide, unless memory ends: no unit is used then.
pub fn cross_maps(alloc: Global, a: &Value, b: &Value, meter: &mut Meter) -> Result<Value, OpFault>
    requires own { IsWithinLimit meter.old a.now }
    requires other { IsWithinLimit meter.old b.now }

    // The value, and what it has.
    ensures kept { IfOk result IsKeptValue }
    ensures params { IfOk result (λ value. value.params ≡ joined a.now.params b.now.params) }
    ensures elements { (valuation : Valuation) (element : Element)
        → IfOk result (λ value. Has value valuation element ↔ CrossMapsHas (Has a.now valuation) (Has b.now valuation) element) }

    // How it is written, and what that cost.
    ensures definitions { HasNoDefinitions a.now → HasNoDefinitions b.now → IfOk result HasNoDefinitions }
    ensures numbers { IfOk result (IsWithinLimit meter.old) }
    ensures units { IsFormedFrom (joined a.now.params b.now.params) (PairsTooWide FormsCrossMaps a.now b.now)
        (pairs_together are_maps a.now b.now) meter.old meter.new result }
{
    product_of(alloc, Product::CrossMaps, a, b, meter)
}
