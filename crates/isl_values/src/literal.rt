//! The values of literals.

ghost use Rattle.std.specs.Prelude.{◌≡◌, true, MatchResult, unsigned_abs};
ghost use Rattle.isl_meter.specs.Gauge.{limit_of};
ghost use Rattle.isl_lower.specs.Value.{IsWellFormedLiteral, IsLowered};
ghost use Rattle.isl_tree.specs.Literal.{LiteralHas};
ghost use Rattle.isl_tree.specs.Known.{literal_is_known};
ghost use Rattle.isl_tree.specs.Plain.{is_plain};
ghost use Rattle.isl_values.specs.Live.{IsLiveOf};
ghost use Rattle.isl_state.specs.State.{Fits};
ghost use Rattle.isl_values.specs.Ends.{CutAlone};
ghost use Rattle.isl_values.specs.Made.{IsMadeOf, IsValueOf, IsPaid, IsWhyUnmade};

use isl_lower::lower;
use isl_meter::Meter;
use isl_outcome::refusal_of;
use isl_refusal::Refusal;
use isl_state::{State, live_part};
use isl_tree::tree::Literal;
use isl_union::Value;
use std::alloc::Global;
use std::rc::Rc;

// What a literal writes, as a value.
fn written(alloc: Global, literal: &Literal, meter: &mut Meter) -> Result<Rc<Value>, Refusal>
    requires known { literal_is_known literal.now ≡ true }
    requires well_formed { IsWellFormedLiteral literal.now }
    ensures { MatchResult result
        (λ value. IsMadeOf (IsLowered literal.now) literal.now.params (LiteralHas literal.now)
        (unsigned_abs (limit_of meter.old)) (is_plain literal.now ≡ true) value.value × IsPaid true meter.old meter.new)
        (IsWhyUnmade true CutAlone meter.old meter.new) }
{
    match lower(alloc, literal, meter) {
        Ok(value) => Ok(Rc::new(alloc, value)?),
        Err(cut) => Err(refusal_of(cut)),
    }
}

/// What is live of that.
pub(crate) fn lowered(
    alloc: Global,
    literal: &Literal,
    state: &State,
    meter: &mut Meter,
) -> Result<Rc<Value>, Refusal>
    requires known { literal_is_known literal.now ≡ true }
    requires well_formed { IsWellFormedLiteral literal.now }
    requires fits { Fits (limit_of meter.old) state.now }
    ensures { MatchResult result
        (λ value. IsValueOf state.now.assumed (IsLiveOf state.now.assumed (IsLowered literal.now)) literal.now.params
        (LiteralHas literal.now) (unsigned_abs (limit_of meter.old)) (is_plain literal.now ≡ true) value.value
        × IsPaid true meter.old meter.new)
        (IsWhyUnmade true CutAlone meter.old meter.new) }
{
    match written(alloc, literal, meter) {
        Ok(value) => live_part(alloc, value, state.assumed(), meter),
        Err(refusal) => Err(refusal),
    }
}
