//! What words make of a value.

ghost use Rattle.std.specs.Prelude.{◌≡◌, ◌&&◌, false, IfOk, MatchResult, unsigned_abs};
ghost use Rattle.isl_meter.specs.Gauge.{limit_of};
ghost use Rattle.isl_union.specs.KeptValue.{Has, HasNoDefinitions, IsKeptValue};
ghost use Rattle.isl_operators.specs.Operations.{WordHas};
ghost use Rattle.isl_operators.specs.Made.{IsWordOf, word_works};
ghost use Rattle.isl_kinds.specs.Parts.{prefix as prefix_part};
ghost use Rattle.isl_values.specs.Live.{narrows, IsLiveUnder};
ghost use Rattle.isl_state.specs.State.{AtAssumed, Fits, HasNumbersUpTo};
ghost use Rattle.isl_values.specs.Worked.{looks, IsWordedOf};
ghost use Rattle.isl_values.specs.Ends.{CutUnder, GoesOn, WordEnds};
ghost use Rattle.isl_values.specs.Made.{is_foreign, uses_units, IsMadeOf, IsValueOf, IsPaid, IsWhyUnmade, IsWhyUnworked};
ghost use Rattle.isl_values.specs.Three.{IsAsked};

use crate::answers::word_answered;
use crate::operands::under_own;
use isl_meter::Meter;
use isl_operators::transformed;
use isl_refusal::Refusal;
use isl_state::{State, live_part};
use isl_tree::statement::Prefix;
use isl_tree::words::row_of;
use isl_union::Value;
use std::alloc::Global;
use std::rc::Rc;

// What a word makes of a value.
fn changed(
    alloc: Global,
    word: Prefix,
    operand: &Value,
    meter: &mut Meter,
) -> Result<Rc<Value>, Refusal>
    requires supported { is_foreign (prefix_part word) ≡ false }
    requires numbers { HasNumbersUpTo (unsigned_abs (limit_of meter.old)) operand.now }
    ensures made { MatchResult result
        (λ value. IsMadeOf (λ made. IsWordOf word operand.now made) operand.now.params
        (WordHas word operand.now.params (Has operand.now)) (unsigned_abs (limit_of meter.old))
        (HasNoDefinitions operand.now × (word_works word ≡ false)) value.value
        × IsPaid (word_works word) meter.old meter.new)
        (IsWhyUnworked (word_works word) (WordEnds word (Has operand.now)) meter.old meter.new) }
    ensures goes_on { IfOk result (λ _. GoesOn (WordEnds word (Has operand.now))) }
{
    word_answered(alloc, transformed(alloc, word, operand, meter))
}

// Whether the word looks at what its operand has at assumed valuations alone.
fn looks(word: Prefix) -> bool
    ensures { result ≡ looks word }
{
    row_of(word).looks
}

// What the word is asked of.
fn asked(
    alloc: Global,
    word: Prefix,
    operand: Rc<Value>,
    state: &State,
    meter: &mut Meter,
) -> Result<Rc<Value>, Refusal>
    requires numbers { HasNumbersUpTo (unsigned_abs (limit_of meter.old)) operand.value }
    requires kept { IsKeptValue operand.value }
    requires fits { Fits (limit_of meter.old) state.now }
    ensures { MatchResult result
        (λ value. IsAsked state.now word (unsigned_abs (limit_of meter.old)) operand.value value.value
        × IsPaid (narrows state.now.assumed) meter.old meter.new)
        (IsWhyUnmade (looks word && narrows state.now.assumed) (CutUnder state.now) meter.old meter.new) }
{
    if looks(word) {
        under_own(alloc, operand, state, meter)
    } else {
        Ok(operand)
    }
}

/// What is live of what a word makes of a value, each piece of which is.
pub(crate) fn worded(
    alloc: Global,
    word: Prefix,
    operand: Rc<Value>,
    state: &State,
    meter: &mut Meter,
) -> Result<Rc<Value>, Refusal>
    requires supported { is_foreign (prefix_part word) ≡ false }
    requires numbers { HasNumbersUpTo (unsigned_abs (limit_of meter.old)) operand.value }
    requires kept { IsKeptValue operand.value }
    requires live { IsLiveUnder state.now.assumed operand.value }
    requires fits { Fits (limit_of meter.old) state.now }
    ensures made { MatchResult result
        (λ value. IsValueOf state.now.assumed (IsWordedOf state.now word operand.value) operand.value.params
        (WordHas word operand.value.params (AtAssumed state.now (Has operand.value))) (unsigned_abs (limit_of meter.old))
        (HasNoDefinitions operand.value × (word_works word ≡ false)) value.value
        × IsPaid (uses_units state.now.assumed (prefix_part word)) meter.old meter.new)
        (IsWhyUnworked (uses_units state.now.assumed (prefix_part word)) (WordEnds word (AtAssumed state.now (Has operand.value)))
        meter.old meter.new) }
    ensures goes_on { IfOk result (λ _. GoesOn (WordEnds word (AtAssumed state.now (Has operand.value)))) }
{
    let asked = match asked(alloc, word, operand, state, meter) {
        Ok(asked) => asked,
        Err(refusal) => return Err(refusal),
    };
    match changed(alloc, word, &asked, meter) {
        Ok(made) => live_part(alloc, made, state.assumed(), meter),
        Err(refusal) => Err(refusal),
    }
}
