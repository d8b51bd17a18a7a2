//! What operators make of two values.

ghost use Rattle.std.specs.Prelude.{◌≡◌, ◌↔◌, false, true, IfOk, MatchResult};
ghost use Rattle.isl_space.specs.Element.{Element};
ghost use Rattle.isl_space.specs.Names.{joined};
ghost use Rattle.isl_space.specs.Valuation.{Valuation};
ghost use Rattle.isl_relation.specs.Together.{IsWorkedFrom};
ghost use Rattle.isl_union.specs.KeptValue.{Has, HasNoDefinitions, IsKeptValue};
ghost use Rattle.isl_union.specs.Meet.{IsMeetOf};
ghost use Rattle.isl_union.specs.Numbers.{IsWithinLimit};
ghost use Rattle.isl_operators.specs.Operations.{OperatorHas, is_operation};
ghost use Rattle.isl_operators.specs.Formed.{OperatorForms, PairsWide};
ghost use Rattle.isl_operators.specs.Made.{HasMaps, HasSets, IsOperatorOf, IsPaid, IsWhyNone, operator_works};

use crate::pairing::{Pairing, paired};
use crate::spaces::{has_sets, may_begin};
use isl_maps::{join, remove_domain, remove_range, restrict_domain, restrict_range, universal};
use isl_meter::Meter;
use isl_tree::statement::Binary;
use isl_union::{OpFault, Value};
use std::alloc::Global;

// The elements of both, and the pairs of the left one that begin in the right one.
fn intersected(
    alloc: Global,
    left: &Value,
    right: &Value,
    meter: &mut Meter,
) -> Result<Value, OpFault>
    requires left { IsWithinLimit meter.old left.now }
    requires right { IsWithinLimit meter.old right.now }
    ensures kept { IfOk result IsKeptValue }
    ensures params { IfOk result (λ value. value.params ≡ joined left.now.params right.now.params) }
    ensures elements { (valuation : Valuation) (element : Element)
        → IfOk result (λ value. Has value valuation element
        ↔ OperatorHas Binary.Intersection (Has left.now valuation) (Has right.now valuation) element) }
    ensures definitions { HasNoDefinitions left.now → HasNoDefinitions right.now → IfOk result HasNoDefinitions }
    ensures numbers { IfOk result (IsWithinLimit meter.old) }
    ensures pieces { ¬ (HasMaps left.now × HasSets right.now) → IfOk result (IsMeetOf left.now right.now) }
    ensures units { IsWorkedFrom (joined left.now.params right.now.params) 0 meter.old meter.new result }
{
    let met = left.meet(alloc, right, meter)?;
    if !may_begin(left, right) {
        return Ok(met);
    }
    let begun = restrict_domain(alloc, left, right, meter)?;
    begun.union(alloc, &met, meter)
}

// The elements of the left one alone, without the pairs that begin in the right one. Where the left one has sets beside its maps,
// what is in both is worked out first.
fn subtracted(
    alloc: Global,
    left: &Value,
    right: &Value,
    meter: &mut Meter,
) -> Result<Value, OpFault>
    requires left { IsWithinLimit meter.old left.now }
    requires right { IsWithinLimit meter.old right.now }
    ensures kept { IfOk result IsKeptValue }
    ensures params { IfOk result (λ value. value.params ≡ joined left.now.params right.now.params) }
    ensures elements { (valuation : Valuation) (element : Element)
        → IfOk result (λ value. Has value valuation element
        ↔ OperatorHas Binary.Difference (Has left.now valuation) (Has right.now valuation) element) }
    ensures definitions { HasNoDefinitions left.now → HasNoDefinitions right.now → IfOk result HasNoDefinitions }
    ensures numbers { IfOk result (IsWithinLimit meter.old) }
    ensures units { IsWorkedFrom (joined left.now.params right.now.params) 0 meter.old meter.new result }
{
    if !may_begin(left, right) {
        return left.minus(alloc, right, meter);
    }
    if has_sets(left) {
        let both = intersected(alloc, left, right, meter)?;
        return left.minus(alloc, &both, meter);
    }
    let rest = left.minus(alloc, right, meter)?;
    remove_domain(alloc, &rest, right, meter)
}

/// What an operator makes of two values, over the joined parameters. Only `+` uses no unit. (the iscc chapter of the barvinok manual)
///
/// # Errors
///
/// As every call under a meter; and `TooWide` exactly where the two together declare more than 16 parameters, or a space that is formed
/// of one in which the left value has elements, and one in which the right one has, is too wide, unless memory ends: no unit is used
/// then.
pub fn combined(
    alloc: Global,
    operator: Binary,
    left: &Value,
    right: &Value,
    meter: &mut Meter,
) -> Result<Value, OpFault>
    requires operation { is_operation operator ≡ true }
    requires left { IsWithinLimit meter.old left.now }
    requires right { IsWithinLimit meter.old right.now }
    ensures written { IfOk result (IsOperatorOf operator left.now right.now) }
    ensures kept { IfOk result IsKeptValue }
    ensures params { IfOk result (λ value. value.params ≡ joined left.now.params right.now.params) }
    ensures elements { (valuation : Valuation) (element : Element)
        → IfOk result (λ value. Has value valuation element
        ↔ OperatorHas operator (Has left.now valuation) (Has right.now valuation) element) }
    ensures definitions { operator_works operator ≡ false → HasNoDefinitions left.now → HasNoDefinitions right.now → IfOk result HasNoDefinitions }
    ensures numbers { IfOk result (IsWithinLimit meter.old) }
    ensures narrow { IfOk result (λ _. ¬ PairsWide (OperatorForms operator) (Has left.now) (Has right.now)) }
    ensures units { MatchResult result (λ _. IsPaid (operator_works operator) meter.old meter.new)
        (IsWhyNone (joined left.now.params right.now.params) (PairsWide (OperatorForms operator) (Has left.now) (Has right.now))
        (operator_works operator) meter.old meter.new) }
{
    // For what values keep.
    let _left = left.pieces();
    let _right = right.pieces();
    match operator {
        Binary::Union => left.union(alloc, right, meter),
        Binary::Intersection => intersected(alloc, left, right, meter),
        Binary::Difference => subtracted(alloc, left, right, meter),
        Binary::RangeIntersection => restrict_range(alloc, left, right, meter),
        Binary::RangeDifference => remove_range(alloc, left, right, meter),
        Binary::Cross => paired(alloc, Pairing::Cross, left, right, meter),
        Binary::Join => join(alloc, left, right, meter),
        Binary::Universal => universal(alloc, left, right, meter),
        Binary::LexLess => paired(alloc, Pairing::Less, left, right, meter),
        Binary::LexLessEqual => paired(alloc, Pairing::LessEqual, left, right, meter),
        Binary::LexGreater => paired(alloc, Pairing::Greater, left, right, meter),
        Binary::LexGreaterEqual => paired(alloc, Pairing::GreaterEqual, left, right, meter),
        _ => unreachable!(),
    }
}
