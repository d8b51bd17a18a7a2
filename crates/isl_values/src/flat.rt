//! Values in which no column is defined.

ghost use Rattle.std.specs.Prelude.{◌≡◌, ◌↔◌, IfOk, IsTrue, MatchResult, true, unsigned_abs};
ghost use Rattle.std.specs.List.{list_any};
ghost use Rattle.isl_meter.specs.Gauge.{IsCharged, limit_of};
ghost use Rattle.isl_union.specs.KeptValue.{HasNoDefinitions, IsKeptValue};
ghost use Rattle.isl_kinds.specs.Parts.{parts_of};
ghost use Rattle.isl_values.specs.Live.{IsLiveUnder};
ghost use Rattle.isl_state.specs.State.{scope_of, Fits, HasNumbersUpTo};
ghost use Rattle.isl_values.specs.Ends.{CutAlone, Ends, GoesOn};
ghost use Rattle.isl_values.specs.Made.{uses_units, IsPaid, IsSoundExpr, IsWhyUnmade, IsWhyUnworked};
ghost use Rattle.isl_values.specs.Three.{AreBothFlat, IsFlatAt, IsLiveFlat, IsMadeFlat};

use crate::values::{list_of, value_of};
use isl_meter::Meter;
use isl_outcome::refusal_of;
use isl_refusal::Refusal;
use isl_state::{ListPart, ListValue, State, live_part};
use isl_tree::statement::Expr;
use isl_union::Value;
use std::alloc::Global;
use std::rc::Rc;

// Whether no column of the value is defined.
fn is_flat(value: &Value) -> bool
    ensures told { IsTrue result ↔ HasNoDefinitions value.now }
    ensures kept { IsKeptValue value.now }
{
    for piece in value.pieces() {
        if !piece.system().definitions.is_empty() {
            return false;
        }
    }
    true
}

// A new value without the defined columns.
fn flat_copy(alloc: Global, value: &Value, meter: &mut Meter) -> Result<Rc<Value>, Refusal>
    requires { HasNumbersUpTo (unsigned_abs (limit_of meter.old)) value.now }
    ensures { MatchResult result
        (λ flat. IsMadeFlat (unsigned_abs (limit_of meter.old)) value.now flat.value × IsCharged meter.old meter.new)
        (IsWhyUnmade true CutAlone meter.old meter.new) }
{
    match value.flat(alloc, meter) {
        Ok(flat) => Ok(Rc::new(alloc, flat)?),
        Err(cut) => Err(refusal_of(cut)),
    }
}

// What is live of the value without its defined columns; where it has none it is that value, and not a copy, and nothing is used.
fn flattened(
    alloc: Global,
    value: Rc<Value>,
    state: &State,
    meter: &mut Meter,
) -> Result<Rc<Value>, Refusal>
    requires numbers { HasNumbersUpTo (unsigned_abs (limit_of meter.old)) value.value }
    requires live { IsLiveUnder state.now.assumed value.value }
    requires fits { Fits (limit_of meter.old) state.now }
    ensures made { MatchResult result
        (λ flat. IsLiveFlat state.now.assumed (unsigned_abs (limit_of meter.old)) value.value flat.value × IsCharged meter.old meter.new)
        (IsWhyUnmade true CutAlone meter.old meter.new) }
    ensures same { HasNoDefinitions value.value → MatchResult result (λ _. meter.new ≡ meter.old) (λ _. ⊥) }
{
    if is_flat(&value) {
        return Ok(value);
    }
    match flat_copy(alloc, &value, meter) {
        Ok(flat) => live_part(alloc, flat, state.assumed(), meter),
        Err(refusal) => Err(refusal),
    }
}

/// The value that is worked out of an expression, as `value_of` gives it, but in pieces that define no column. Where nothing in the
/// expression uses units, it is that value itself. (the iscc chapter of the barvinok manual)
///
/// # Errors
/// As of `value_of`.
pub fn flat_value_of(
    alloc: Global,
    expr: &Expr,
    state: &State,
    meter: &mut Meter,
) -> Result<Rc<Value>, Refusal>
    requires sound { IsSoundExpr (scope_of state.now) expr.now }
    requires fits { Fits (limit_of meter.old) state.now }
    ensures made { MatchResult result
        (λ value. IsFlatAt state.now ListPart.First expr.now (unsigned_abs (limit_of meter.old)) value.value
        × IsPaid (list_any (uses_units state.now.assumed) (parts_of expr.now)) meter.old meter.new)
        (IsWhyUnworked (list_any (uses_units state.now.assumed) (parts_of expr.now)) (Ends state.now expr.now) meter.old meter.new) }
    ensures goes_on { IfOk result (λ _. GoesOn (Ends state.now expr.now)) }
{
    match value_of(alloc, expr, state, meter) {
        Ok(value) => flattened(alloc, value, state, meter),
        Err(refusal) => Err(refusal),
    }
}

/// Both values of a list that is bound or made by `last`, of another expression its value twice, in pieces that define no column. (the iscc
/// chapter of the barvinok manual)
///
/// # Errors
/// As of `value_of`.
pub fn flat_list_of(
    alloc: Global,
    expr: &Expr,
    state: &State,
    meter: &mut Meter,
) -> Result<ListValue, Refusal>
    requires sound { IsSoundExpr (scope_of state.now) expr.now }
    requires fits { Fits (limit_of meter.old) state.now }
    ensures made { MatchResult result
        (λ list. AreBothFlat state.now expr.now (unsigned_abs (limit_of meter.old)) list
        × IsPaid (list_any (uses_units state.now.assumed) (parts_of expr.now)) meter.old meter.new)
        (IsWhyUnworked (list_any (uses_units state.now.assumed) (parts_of expr.now)) (Ends state.now expr.now) meter.old meter.new) }
    ensures goes_on { IfOk result (λ _. GoesOn (Ends state.now expr.now)) }
{
    let list = match list_of(alloc, expr, state, meter) {
        Ok(list) => list,
        Err(refusal) => return Err(refusal),
    };
    let first = match flattened(alloc, list.first, state, meter) {
        Ok(first) => first,
        Err(refusal) => return Err(refusal),
    };
    match flattened(alloc, list.second, state, meter) {
        Ok(second) => Ok(ListValue { first, second }),
        Err(refusal) => Err(refusal),
    }
}
