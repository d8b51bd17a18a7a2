//! The gist of a value in a context.

ghost use Rattle.std.specs.Prelude.{◌≡◌, ◌↔◌, ◌≤◌, ℕ, IfOk, MatchResult, length};
ghost use Rattle.isl_meter.specs.Gauge.{IsCharged};
ghost use Rattle.isl_space.specs.Element.{Element};
ghost use Rattle.isl_space.specs.Limits.{most_parameters};
ghost use Rattle.isl_space.specs.Names.{joined};
ghost use Rattle.isl_space.specs.Valuation.{Valuation};
ghost use Rattle.isl_union.specs.Fault.{IsFaultBy};
ghost use Rattle.isl_union.specs.KeptValue.{Has, HasNoDefinitions, IsKeptValue};
ghost use Rattle.isl_union.specs.Numbers.{HasNumbersUpTo, IsWithinLimit};
ghost use Rattle.isl_gist.specs.Gist.{value_over, IsGistOf};

use crate::pieces::left_over;
use isl_meter::Meter;
use isl_union::{OpFault, Value, aligned_pieces};
use std::alloc::Global;

/// What is left of a value where the context is known to hold, over the joined parameters: its pieces that have an element of the
/// context at some valuation, in order, each without the rows, and the halves of equations, that say nothing new there. Neither value may
/// define a column. (isl manual, on simplification in a context)
///
/// # Errors
///
/// `TooWide` exactly where the two together declare more than 16 parameters, unless memory ends: no unit is used then.
/// `Overflow` where a number passes the limit of the meter, `Budget` where its units are used up, and `NoMemory`.
pub fn gist(
    alloc: Global,
    value: &Value,
    context: &Value,
    meter: &mut Meter,
) -> Result<Value, OpFault>
    requires own { IsWithinLimit meter.old value.now }
    requires other { IsWithinLimit meter.old context.now }
    requires plain { HasNoDefinitions value.now }
    requires context_plain { HasNoDefinitions context.now }
    ensures kept { IfOk result IsKeptValue }
    ensures params { IfOk result (λ gist. gist.params ≡ joined value.now.params context.now.params) }
    ensures exact { IfOk result (IsGistOf (value_over (joined value.now.params context.now.params) value.now)
        (value_over (joined value.now.params context.now.params) context.now)) }
    ensures elements { (valuation : Valuation) (element : Element) → Has context.now valuation element
        → IfOk result (λ gist. Has gist valuation element ↔ Has value.now valuation element) }
    ensures definitions { IfOk result HasNoDefinitions }
    ensures numbers { (most : ℕ) → HasNumbersUpTo most value.now → IfOk result (HasNumbersUpTo most) }
    ensures units { MatchResult result
        (λ _. (length (joined value.now.params context.now.params) ≤ most_parameters) × IsCharged meter.old meter.new)
        (IsFaultBy (joined value.now.params context.now.params) meter.old meter.new) }
{
    let (params, _places) = value.params().align(alloc, context.params())?;
    let own = aligned_pieces(alloc, &params, value, meter)?;
    let others = aligned_pieces(alloc, &params, context, meter)?;
    let left = left_over(alloc, &params, own.as_slice(), others.as_slice(), meter)?;
    Ok(Value::from_normal(params, left))
}
