//! The values of expressions.

ghost use Rattle.std.specs.Prelude.{◌≡◌, All, true, false, IfErr, IfOk, MatchResult, unsigned_abs};
ghost use Rattle.std.specs.List.{list_any};
ghost use Rattle.isl_meter.specs.Gauge.{IsCharged, limit_of};
ghost use Rattle.isl_union.specs.KeptValue.{Has, HasNoDefinitions, IsKeptValue};
ghost use Rattle.isl_kinds.specs.Parts.{parts_of, parts_of_links, parts_of_postfix, parts_of_postfixes};
ghost use Rattle.isl_kinds.specs.Typed.{declared_of, declared_of_post, declared_of_row, declared_past};
ghost use Rattle.isl_values.specs.Live.{IsLiveUnder};
ghost use Rattle.isl_state.specs.State.{scope_of, Fits, HasNumbersUpTo};
ghost use Rattle.isl_values.specs.Selection.{Selects, PostSelects, RowSelects, PostfixHas};
ghost use Rattle.isl_values.specs.Worked.{part_of_list, IsPostfixOf, IsWorked, IsWorkedPost, IsWorkedRow};
ghost use Rattle.isl_values.specs.Ends.{Ends, EndsPost, EndsPostfix, EndsRow, GoesOn};
ghost use Rattle.isl_values.specs.Made.{uses_units, IsSoundExpr, IsSoundLink, IsSoundPostfix, IsValueOf, IsPaid, IsWhyUnworked};
ghost use Rattle.isl_values.specs.Three.{AreBothOf, AreKept, AreMade, IsValueAt, IsWhole, NothingWorks, OperandsEnd};

use crate::dependence::{Accesses, latest, latest_part, preceding};
use crate::literal::lowered;
use crate::operators::joined;
use crate::postfixes::{applied_to, inverted};
use crate::words::worded;
use isl_meter::Meter;
use isl_refusal::Refusal;
use isl_state::{Kept, ListPart, ListValue, State};
use isl_tree::statement::{Expr, Link, Postfix};
use isl_union::Value;
use std::alloc::Global;
use std::rc::Rc;

// What follows an operand, made of its value.
#[cycle(value)]
fn followed(
    alloc: Global,
    operand: &Rc<Value>,
    postfix: &Postfix,
    state: &State,
    meter: &mut Meter,
) -> Result<Rc<Value>, Refusal>
    requires sound { IsSoundPostfix (scope_of state.now) postfix.now }
    requires fits { Fits (limit_of meter.old) state.now }
    requires kept { IsKeptValue operand.now.value }
    requires live { IsLiveUnder state.now.assumed operand.now.value }
    requires numbers { HasNumbersUpTo (unsigned_abs (limit_of meter.old)) operand.now.value }
    ensures made { MatchResult result
        (λ value. IsValueOf state.now.assumed (IsPostfixOf state.now postfix.now operand.now.value)
        (declared_past (scope_of state.now) operand.now.value.params postfix.now)
        (λ valuation element. PostfixHas state.now valuation (Has operand.now.value valuation) postfix.now element)
        (unsigned_abs (limit_of meter.old))
        (HasNoDefinitions operand.now.value × (list_any (uses_units state.now.assumed) (parts_of_postfix postfix.now) ≡ false)) value.value
        × IsPaid (list_any (uses_units state.now.assumed) (parts_of_postfix postfix.now)) meter.old meter.new)
        (IsWhyUnworked (list_any (uses_units state.now.assumed) (parts_of_postfix postfix.now))
        (EndsPostfix state.now operand.now.value.params (Has operand.now.value) postfix.now) meter.old meter.new) }
    ensures goes_on { IfOk result (λ _. GoesOn (EndsPostfix state.now operand.now.value.params (Has operand.now.value) postfix.now)) }
{
    match postfix {
        Postfix::Inverse => inverted(alloc, operand, state, meter),
        Postfix::Apply(expr) => match part_of(alloc, expr, ListPart::First, state, meter) {
            Ok(argument) => applied_to(alloc, operand, &argument, state, meter),
            Err(refusal) => Err(refusal),
        },
        Postfix::Item(_) => Ok(operand.clone()?),
    }
}

// The value of an operand with all that follows it, from the left.
#[cycle(value)]
fn past_postfixes(
    alloc: Global,
    operand: Rc<Value>,
    postfixes: &[Postfix],
    state: &State,
    meter: &mut Meter,
) -> Result<Rc<Value>, Refusal>
    requires sound { All (IsSoundPostfix (scope_of state.now)) postfixes.now }
    requires fits { Fits (limit_of meter.old) state.now }
    requires numbers { HasNumbersUpTo (unsigned_abs (limit_of meter.old)) operand.value }
    requires live { IsLiveUnder state.now.assumed operand.value }
    ensures made { MatchResult result
        (λ value. IsValueOf state.now.assumed (IsWorkedPost state.now operand.value postfixes.now)
        (declared_of_post (scope_of state.now) operand.value.params postfixes.now)
        (λ valuation element. PostSelects state.now valuation (Has operand.value valuation) postfixes.now element)
        (unsigned_abs (limit_of meter.old))
        (HasNoDefinitions operand.value × (list_any (uses_units state.now.assumed) (parts_of_postfixes postfixes.now) ≡ false)) value.value
        × IsPaid (list_any (uses_units state.now.assumed) (parts_of_postfixes postfixes.now)) meter.old meter.new)
        (IsWhyUnworked (list_any (uses_units state.now.assumed) (parts_of_postfixes postfixes.now))
        (EndsPost state.now operand.value.params (Has operand.value) postfixes.now) meter.old meter.new) }
    ensures goes_on { IfOk result (λ _. GoesOn (EndsPost state.now operand.value.params (Has operand.value) postfixes.now)) }
{
    let _pieces = operand.pieces();
    let mut left = operand;
    for postfix in postfixes {
        left = match followed(alloc, &left, postfix, state, meter) {
            Ok(made) => made,
            Err(refusal) => return Err(refusal),
        };
    }
    Ok(left)
}

// The part of an operand that what follows it is about.
fn taken_part(postfixes: &[Postfix]) -> ListPart
    ensures { result ≡ part_of_list postfixes.now }
{
    match postfixes {
        [Postfix::Item(number), ..] if *number > 0 => ListPart::Second,
        _ => ListPart::First,
    }
}

// Both values of what is kept.
fn both_of(kept: &Kept) -> Result<ListValue, Refusal>
    ensures made { IfOk result (λ list. AreKept kept.now list) }
    ensures faults { IfErr result (λ refusal. refusal ≡ Refusal.NoMemory) }
{
    Ok(ListValue {
        first: kept.shared(ListPart::First)?,
        second: kept.shared(ListPart::Second)?,
    })
}

// One value for both.
fn twice(value: Rc<Value>) -> Result<ListValue, Refusal>
    requires { IsKeptValue value.value }
    ensures made { IfOk result (λ list. (list.first.value ≡ value.value) × (list.second.value ≡ value.value)) }
    ensures faults { IfErr result (λ refusal. refusal ≡ Refusal.NoMemory) }
{
    Ok(ListValue {
        second: value.clone()?,
        first: value,
    })
}

// The values of source, sink and schedule, in this order.
#[cycle(value)]
fn three_of(
    alloc: Global,
    source: &Expr,
    sink: &Expr,
    schedule: &Expr,
    state: &State,
    meter: &mut Meter,
) -> Result<Accesses, Refusal>
    requires source { IsSoundExpr (scope_of state.now) source.now }
    requires sink { IsSoundExpr (scope_of state.now) sink.now }
    requires schedule { IsSoundExpr (scope_of state.now) schedule.now }
    requires fits { Fits (limit_of meter.old) state.now }
    ensures made { MatchResult result
        (λ three. AreMade state.now source.now sink.now schedule.now (unsigned_abs (limit_of meter.old)) three
        × IsCharged meter.old meter.new)
        (IsWhyUnworked true (OperandsEnd state.now source.now sink.now schedule.now) meter.old meter.new) }
    ensures goes_on { IfOk result (λ _. GoesOn (OperandsEnd state.now source.now sink.now schedule.now)) }
{
    let source = match part_of(alloc, source, ListPart::First, state, meter) {
        Ok(value) => value,
        Err(refusal) => return Err(refusal),
    };
    let sink = match part_of(alloc, sink, ListPart::First, state, meter) {
        Ok(value) => value,
        Err(refusal) => return Err(refusal),
    };
    match part_of(alloc, schedule, ListPart::First, state, meter) {
        Ok(schedule) => Ok(Accesses {
            source,
            sink,
            schedule,
        }),
        Err(refusal) => Err(refusal),
    }
}

// The value that is worked out of this part of an expression: of a name what it stands for, and not a copy; of a literal a new one.
#[cycle(value)]
fn part_of(
    alloc: Global,
    expr: &Expr,
    part: ListPart,
    state: &State,
    meter: &mut Meter,
) -> Result<Rc<Value>, Refusal>
    requires sound { IsSoundExpr (scope_of state.now) expr.now }
    requires fits { Fits (limit_of meter.old) state.now }
    ensures made { MatchResult result
        (λ value. IsValueAt state.now part expr.now (unsigned_abs (limit_of meter.old)) value.value
        × IsPaid (list_any (uses_units state.now.assumed) (parts_of expr.now)) meter.old meter.new)
        (IsWhyUnworked (list_any (uses_units state.now.assumed) (parts_of expr.now)) (Ends state.now expr.now) meter.old meter.new) }
    ensures goes_on { IfOk result (λ _. GoesOn (Ends state.now expr.now)) }
{
    match expr {
        Expr::Name(name) => match state.get(name) {
            Some(kept) => Ok(kept.shared(part)?),
            None => unreachable!(),
        },
        Expr::Literal(literal) => lowered(alloc, literal, state, meter),
        Expr::Row(first, links) => match part_of(
            alloc,
            first.get(),
            ListPart::First,
            state,
            meter,
        ) {
            Ok(left) => joined_past(alloc, left, links.as_slice(), state, meter),
            Err(refusal) => Err(refusal),
        },
        Expr::Post(operand, postfixes) => {
            let postfixes = postfixes.as_slice();
            match part_of(alloc, operand.get(), taken_part(postfixes), state, meter) {
                Ok(left) => past_postfixes(alloc, left, postfixes, state, meter),
                Err(refusal) => Err(refusal),
            }
        }
        Expr::Prefix(word, operand) => match part_of(
            alloc,
            operand.get(),
            ListPart::First,
            state,
            meter,
        ) {
            Ok(argument) => worded(alloc, *word, argument, state, meter),
            Err(refusal) => Err(refusal),
        },
        Expr::Any(source, sink, schedule) => {
            match three_of(
                alloc,
                source.get(),
                sink.get(),
                schedule.get(),
                state,
                meter,
            ) {
                Ok(three) => preceding(alloc, &three, state, meter),
                Err(refusal) => Err(refusal),
            }
        }
        Expr::Last(source, sink, schedule) => {
            match three_of(
                alloc,
                source.get(),
                sink.get(),
                schedule.get(),
                state,
                meter,
            ) {
                Ok(three) => latest_part(alloc, part, &three, state, meter),
                Err(refusal) => Err(refusal),
            }
        }
    }
}

/// The value that is worked out of an expression, of a list its first one: of a name what it stands for, and not a copy; of a literal a
/// new one. (the iscc chapter of the barvinok manual)
///
/// # Errors
/// `TooWide` where an operation in it, from the left and inner ones first, has more than 16 parameters or forms a space that is too wide;
/// `NoMinimum` where it looks for what is missing; and what cut the work of an operation that neither parameters nor spaces end:
/// `Overflow` or `Budget`, or `NoMemory` anywhere. Where nothing in the expression uses units, no unit is used, and of these only memory
/// can end.
pub fn value_of(
    alloc: Global,
    expr: &Expr,
    state: &State,
    meter: &mut Meter,
) -> Result<Rc<Value>, Refusal>
    requires sound { IsSoundExpr (scope_of state.now) expr.now }
    requires fits { Fits (limit_of meter.old) state.now }
    ensures made { MatchResult result
        (λ value. IsValueOf state.now.assumed (IsWorked state.now expr.now) (declared_of (scope_of state.now) expr.now)
        (Selects state.now expr.now) (unsigned_abs (limit_of meter.old)) (NothingWorks state.now expr.now) value.value
        × IsPaid (list_any (uses_units state.now.assumed) (parts_of expr.now)) meter.old meter.new)
        (IsWhyUnworked (list_any (uses_units state.now.assumed) (parts_of expr.now)) (Ends state.now expr.now) meter.old meter.new) }
    ensures goes_on { IfOk result (λ _. GoesOn (Ends state.now expr.now)) }
{
    part_of(alloc, expr, ListPart::First, state, meter)
}

// The value of what is no list, for both.
fn doubled(
    alloc: Global,
    expr: &Expr,
    state: &State,
    meter: &mut Meter,
) -> Result<ListValue, Refusal>
    requires sound { IsSoundExpr (scope_of state.now) expr.now }
    requires fits { Fits (limit_of meter.old) state.now }
    requires whole { IsWhole state.now expr.now }
    ensures made { MatchResult result
        (λ list. AreBothOf state.now expr.now (unsigned_abs (limit_of meter.old)) list
        × IsPaid (list_any (uses_units state.now.assumed) (parts_of expr.now)) meter.old meter.new)
        (IsWhyUnworked (list_any (uses_units state.now.assumed) (parts_of expr.now)) (Ends state.now expr.now) meter.old meter.new) }
    ensures goes_on { IfOk result (λ _. GoesOn (Ends state.now expr.now)) }
{
    match value_of(alloc, expr, state, meter) {
        Ok(value) => twice(value),
        Err(refusal) => Err(refusal),
    }
}

/// Both values of a list that is bound or made by `last`; of another expression its value twice.
///
/// # Errors
/// As of `value_of`.
pub fn list_of(
    alloc: Global,
    expr: &Expr,
    state: &State,
    meter: &mut Meter,
) -> Result<ListValue, Refusal>
    requires sound { IsSoundExpr (scope_of state.now) expr.now }
    requires fits { Fits (limit_of meter.old) state.now }
    ensures made { MatchResult result
        (λ list. AreBothOf state.now expr.now (unsigned_abs (limit_of meter.old)) list
        × IsPaid (list_any (uses_units state.now.assumed) (parts_of expr.now)) meter.old meter.new)
        (IsWhyUnworked (list_any (uses_units state.now.assumed) (parts_of expr.now)) (Ends state.now expr.now) meter.old meter.new) }
    ensures goes_on { IfOk result (λ _. GoesOn (Ends state.now expr.now)) }
{
    match expr {
        Expr::Last(source, sink, schedule) => {
            match three_of(
                alloc,
                source.get(),
                sink.get(),
                schedule.get(),
                state,
                meter,
            ) {
                Ok(three) => latest(alloc, &three, state, meter),
                Err(refusal) => Err(refusal),
            }
        }
        Expr::Name(name) => match state.get(name) {
            Some(kept) => both_of(kept),
            None => unreachable!(),
        },
        Expr::Literal(_) => doubled(alloc, expr, state, meter),
        Expr::Row(_, _) => doubled(alloc, expr, state, meter),
        Expr::Post(_, _) => doubled(alloc, expr, state, meter),
        Expr::Prefix(_, _) => doubled(alloc, expr, state, meter),
        Expr::Any(_, _, _) => doubled(alloc, expr, state, meter),
    }
}

/// The value of an operand, joined to those behind it, from the left.
///
/// # Errors
/// As of `value_of`, for what stands behind the operand.
#[cycle(value)]
pub fn joined_past(
    alloc: Global,
    first: Rc<Value>,
    links: &[Link],
    state: &State,
    meter: &mut Meter,
) -> Result<Rc<Value>, Refusal>
    requires sound { All (IsSoundLink (scope_of state.now)) links.now }
    requires fits { Fits (limit_of meter.old) state.now }
    requires numbers { HasNumbersUpTo (unsigned_abs (limit_of meter.old)) first.value }
    requires live { IsLiveUnder state.now.assumed first.value }
    ensures made { MatchResult result
        (λ value. IsValueOf state.now.assumed (IsWorkedRow state.now first.value links.now)
        (declared_of_row (scope_of state.now) first.value.params links.now)
        (λ valuation element. RowSelects state.now valuation (Has first.value valuation) links.now element)
        (unsigned_abs (limit_of meter.old))
        (HasNoDefinitions first.value × (list_any (uses_units state.now.assumed) (parts_of_links links.now) ≡ false)) value.value
        × IsPaid (list_any (uses_units state.now.assumed) (parts_of_links links.now)) meter.old meter.new)
        (IsWhyUnworked (list_any (uses_units state.now.assumed) (parts_of_links links.now))
        (EndsRow state.now first.value.params (Has first.value) links.now) meter.old meter.new) }
    ensures goes_on { IfOk result (λ _. GoesOn (EndsRow state.now first.value.params (Has first.value) links.now)) }
{
    let _pieces = first.pieces();
    let mut left = first;
    for link in links {
        let right = match part_of(alloc, &link.operand, ListPart::First, state, meter) {
            Ok(right) => right,
            Err(refusal) => return Err(refusal),
        };
        left = match joined(alloc, link.operator, left, &right, state, meter) {
            Ok(made) => made,
            Err(refusal) => return Err(refusal),
        };
    }
    Ok(left)
}
