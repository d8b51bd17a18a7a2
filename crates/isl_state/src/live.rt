//! What is live of a value: its pieces that have an element at an assumed valuation.

ghost use Rattle.std.specs.Prelude.{◌≡◌, false, true, MatchResult, unsigned_abs};
ghost use Rattle.isl_meter.specs.Gauge.{IsCharged, limit_of};
ghost use Rattle.isl_union.specs.KeptValue.{IsKeptValue};
ghost use Rattle.isl_assumed.specs.Assumed.{IsSound};
ghost use Rattle.isl_outcome.specs.End.{CutAlone};
ghost use Rattle.isl_outcome.specs.Why.{IsWhyUnmade};
ghost use Rattle.isl_state.specs.Live.{narrows, IsLivePart};
ghost use Rattle.isl_state.specs.State.{HasNumbersUpTo};

use isl_assumed::{Assumed, live};
use isl_meter::Meter;
use isl_outcome::refusal_of;
use isl_refusal::Refusal;
use isl_union::Value;
use std::alloc::Global;
use std::rc::Rc;

// A new value of the pieces that have an element at an assumed valuation.
fn live_copy(
    alloc: Global,
    value: &Value,
    assumed: &Assumed,
    meter: &mut Meter,
) -> Result<Rc<Value>, Refusal>
    requires numbers { HasNumbersUpTo (unsigned_abs (limit_of meter.old)) value.now }
    requires sound { IsSound meter.old assumed.now }
    ensures { MatchResult result
        (λ part. IsLivePart assumed.now value.now part.value × IsCharged meter.old meter.new)
        (IsWhyUnmade true CutAlone meter.old meter.new) }
{
    match live(alloc, value, assumed, meter) {
        Ok(part) => Ok(Rc::new(alloc, part)?),
        Err(cut) => Err(refusal_of(cut)),
    }
}

/// The pieces of the value that have an element at an assumed valuation; where nothing is assumed it is that value, and not a copy, and
/// nothing is used.
pub fn live_part(
    alloc: Global,
    value: Rc<Value>,
    assumed: &Assumed,
    meter: &mut Meter,
) -> Result<Rc<Value>, Refusal>
    requires numbers { HasNumbersUpTo (unsigned_abs (limit_of meter.old)) value.value }
    requires kept { IsKeptValue value.value }
    requires sound { IsSound meter.old assumed.now }
    ensures made { MatchResult result
        (λ part. IsLivePart assumed.now value.value part.value × IsCharged meter.old meter.new)
        (IsWhyUnmade true CutAlone meter.old meter.new) }
    ensures nothing { narrows assumed.now ≡ false → MatchResult result (λ _. meter.new ≡ meter.old) (λ _. ⊥) }
{
    match assumed {
        Assumed::Nothing => Ok(value),
        Assumed::Where(_) => live_copy(alloc, &value, assumed, meter),
    }
}
