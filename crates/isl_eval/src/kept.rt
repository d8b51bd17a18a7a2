//! What is kept of an expression.

ghost use Rattle.std.specs.Prelude.{◌≡◌, true, false, Some, MatchResult, unsigned_abs};
ghost use Rattle.std.specs.List.{list_any};
ghost use Rattle.std.specs.Option.{option_copied};
ghost use Rattle.isl_meter.specs.Gauge.{IsCharged, limit_of};
ghost use Rattle.isl_tree.specs.declared.statement.Expr as trees;
ghost use Rattle.isl_tree.specs.declared.statement.Binary.TheVariants as b;
ghost use Rattle.isl_kinds.specs.Lines.{is_kind};
ghost use Rattle.isl_kinds.specs.Parts.{parts_of};
ghost use Rattle.isl_kinds.specs.Typed.{kind_of};
ghost use Rattle.isl_flat.specs.Flat.{is_gist, is_sample};
ghost use Rattle.isl_union.specs.KeptValue.{HasNoDefinitions, IsKeptValue};
ghost use Rattle.isl_values.specs.Live.{IsLiveUnder};
ghost use Rattle.isl_values.specs.State.{scope_of, Fits, HasNumbersUpTo};
ghost use Rattle.isl_values.specs.Made.{IsSoundExpr, IsWhyUnmade, uses_units};
ghost use Rattle.isl_values.specs.Ends.{CutAlone, Ends};
ghost use Rattle.isl_eval.specs.Evaluation as spec;
ghost use Rattle.isl_eval.specs.Evaluation.{AreKeptIn, EndsPair, IsKeptIn, IsMakeable};
ghost use Rattle.isl_eval.specs.Evaluation.{EndsTwo, EndsWork, IsChosen, IsGistIn, IsOutcome, IsPutAt, IsSampled, IsSimplified, IsTogether};

use crate::test::refusal_of_operation;
use isl_meter::Meter;
use isl_refusal::Refusal;
use isl_simplify::{coalesce, gist};
use isl_tree::statement::{Binary, Expr, Link, Prefix, ValueKind};
use isl_tree::words::row_of;
use isl_union::{OpFault, Value};
use isl_values::{
    Kept, State, flat_list_of, flat_value_of, refusal_of, right_under, under_own, value_of,
};
use std::alloc::Global;
use std::rc::Rc;

// One element that a value has at an assumed valuation.
fn chosen(
    alloc: Global,
    value: Rc<Value>,
    state: &State,
    meter: &mut Meter,
) -> Result<Rc<Value>, Refusal>
    requires kept { IsKeptValue value.value }
    requires numbers { HasNumbersUpTo (unsigned_abs (limit_of meter.old)) value.value }
    requires fits { Fits (limit_of meter.old) state.now }
    ensures { MatchResult result
        (λ sample. IsChosen state.now.assumed (unsigned_abs (limit_of meter.old)) value.value sample.value × IsCharged meter.old meter.new)
        (IsWhyUnmade true CutAlone meter.old meter.new) }
{
    let under = under_own(alloc, value, state, meter)?;
    match under.sample(alloc, meter) {
        Ok(sample) => Ok(Rc::new(alloc, sample)?),
        Err(OpFault::Cut(cut)) => Err(refusal_of(cut)),
        Err(OpFault::TooWide) => unreachable!(),
    }
}

// A value of one element that an operand selects at an assumed valuation.
fn sampled(
    alloc: Global,
    operand: &Expr,
    state: &State,
    meter: &mut Meter,
) -> Result<Rc<Value>, Refusal>
    requires sound { IsSoundExpr (scope_of state.now) operand.now }
    requires fits { Fits (limit_of meter.old) state.now }
    ensures { IsOutcome true (EndsWork state.now operand.now) meter.old meter.new
        (λ value. IsSampled state.now operand.now (unsigned_abs (limit_of meter.old)) value.value) result }
{
    let value = value_of(alloc, operand, state, meter)?;
    chosen(alloc, value, state, meter)
}

// The pieces of a value, put together.
fn coalesced(
    alloc: Global,
    value: &Value,
    state: &State,
    meter: &mut Meter,
) -> Result<Rc<Value>, Refusal>
    requires live { IsLiveUnder state.now.assumed value.now }
    requires numbers { HasNumbersUpTo (unsigned_abs (limit_of meter.old)) value.now }
    requires definitions { HasNoDefinitions value.now }
    requires fits { Fits (limit_of meter.old) state.now }
    ensures { MatchResult result
        (λ together. IsPutAt state.now (unsigned_abs (limit_of meter.old)) value.now together.value × IsCharged meter.old meter.new)
        (IsWhyUnmade true CutAlone meter.old meter.new) }
{
    match coalesce(alloc, value, state.assumed(), meter) {
        Ok(together) => Ok(Rc::new(alloc, together)?),
        Err(cut) => Err(refusal_of(cut)),
    }
}

// A value of an operand, its pieces put together.
fn together(
    alloc: Global,
    operand: &Expr,
    state: &State,
    meter: &mut Meter,
) -> Result<Rc<Value>, Refusal>
    requires sound { IsSoundExpr (scope_of state.now) operand.now }
    requires fits { Fits (limit_of meter.old) state.now }
    ensures { IsOutcome true (EndsWork state.now operand.now) meter.old meter.new
        (λ value. IsTogether state.now operand.now (unsigned_abs (limit_of meter.old)) value.value) result }
{
    let value = flat_value_of(alloc, operand, state, meter)?;
    coalesced(alloc, &value, state, meter)
}

// The gist of a value in the context of what another one has at assumed valuations.
fn gist_in(
    alloc: Global,
    value: &Value,
    context: Rc<Value>,
    state: &State,
    meter: &mut Meter,
) -> Result<Rc<Value>, Refusal>
    requires kept { IsKeptValue value.now }
    requires context_kept { IsKeptValue context.value }
    requires numbers { HasNumbersUpTo (unsigned_abs (limit_of meter.old)) value.now }
    requires context_numbers { HasNumbersUpTo (unsigned_abs (limit_of meter.old)) context.value }
    requires definitions { HasNoDefinitions value.now }
    requires context_definitions { HasNoDefinitions context.value }
    requires fits { Fits (limit_of meter.old) state.now }
    ensures { IsOutcome true (EndsTwo value.now context.value) meter.old meter.new
        (λ gist. IsGistIn state.now (unsigned_abs (limit_of meter.old)) value.now context.value gist.value) result }
{
    let under = right_under(alloc, value, context, state, meter)?;
    match gist(alloc, value, &under, meter) {
        Ok(gist) => Ok(Rc::new(alloc, gist)?),
        Err(fault) => Err(refusal_of_operation(fault)),
    }
}

// The gist of one operand in the context of what another one selects at assumed valuations.
fn simplified(
    alloc: Global,
    left: &Expr,
    right: &Expr,
    state: &State,
    meter: &mut Meter,
) -> Result<Rc<Value>, Refusal>
    requires left { IsSoundExpr (scope_of state.now) left.now }
    requires right { IsSoundExpr (scope_of state.now) right.now }
    requires fits { Fits (limit_of meter.old) state.now }
    ensures { IsOutcome true (EndsPair state.now left.now b.Gist right.now) meter.old meter.new
        (λ value. IsSimplified state.now left.now right.now (unsigned_abs (limit_of meter.old)) value.value) result }
{
    let value = flat_value_of(alloc, left, state, meter)?;
    let context = flat_value_of(alloc, right, state, meter)?;
    gist_in(alloc, &value, context, state, meter)
}

// What an expression selects, where that is kept of it.
fn selected(
    alloc: Global,
    expr: &Expr,
    state: &State,
    meter: &mut Meter,
) -> Result<Rc<Value>, Refusal>
    requires selects { spec.keeps_selected expr.now ≡ true }
    requires makeable { IsMakeable (scope_of state.now) expr.now }
    requires fits { Fits (limit_of meter.old) state.now }
    ensures { IsOutcome (list_any (uses_units state.now.assumed) (parts_of expr.now)) (Ends state.now expr.now) meter.old meter.new
        (λ value. IsKeptIn state.now (limit_of meter.old) expr.now value.value) result }
{
    flat_value_of(alloc, expr, state, meter)
}

fn is_sample(word: Prefix) -> bool
    ensures { result ≡ is_sample word }
{
    row_of(word).chooses
}

fn is_coalesce(word: Prefix) -> bool
    ensures { result ≡ spec.is_coalesce word }
{
    row_of(word).joins
}

// What is kept of a word with its operand.
fn word_kept(
    alloc: Global,
    expr: &Expr,
    word: Prefix,
    operand: &Expr,
    state: &State,
    meter: &mut Meter,
) -> Result<Rc<Value>, Refusal>
    requires is { expr.now ≡ trees.Prefix word operand.now }
    requires makeable { IsMakeable (scope_of state.now) expr.now }
    requires fits { Fits (limit_of meter.old) state.now }
    ensures { IsOutcome (list_any (uses_units state.now.assumed) (parts_of expr.now)) (Ends state.now expr.now) meter.old meter.new
        (λ value. IsKeptIn state.now (limit_of meter.old) expr.now value.value) result }
{
    if is_sample(word) {
        sampled(alloc, operand, state, meter)
    } else if is_coalesce(word) {
        together(alloc, operand, state, meter)
    } else {
        selected(alloc, expr, state, meter)
    }
}

fn is_gist(operator: Binary) -> bool
    ensures { result ≡ is_gist operator }
{
    matches!(operator, Binary::Gist)
}

// The operand of the only operator, where that is `%`.
fn context(links: &[Link]) -> Option<&Expr>
    ensures { option_copied result ≡ spec.context_in links.now }
{
    match links {
        [link] if is_gist(link.operator) => Some(&link.operand),
        _ => None,
    }
}

// What is kept of a row.
fn row_kept(
    alloc: Global,
    expr: &Expr,
    first: &Expr,
    links: &[Link],
    state: &State,
    meter: &mut Meter,
) -> Result<Rc<Value>, Refusal>
    requires is { expr.now ≡ trees.Row first.now links.now }
    requires makeable { IsMakeable (scope_of state.now) expr.now }
    requires fits { Fits (limit_of meter.old) state.now }
    ensures { IsOutcome (list_any (uses_units state.now.assumed) (parts_of expr.now)) (Ends state.now expr.now) meter.old meter.new
        (λ value. IsKeptIn state.now (limit_of meter.old) expr.now value.value) result }
{
    match context(links) {
        Some(right) => simplified(alloc, first, right, state, meter),
        None => selected(alloc, expr, state, meter),
    }
}

// The value that is kept of an expression: of `sample` a value of one element, which is chosen once; of `coalesce` one of its operand, whose
// pieces are put together; of one `%` of two operands the gist of the left one in the context of the right one; else what is selected.
fn single(
    alloc: Global,
    expr: &Expr,
    state: &State,
    meter: &mut Meter,
) -> Result<Rc<Value>, Refusal>
    requires makeable { IsMakeable (scope_of state.now) expr.now }
    requires fits { Fits (limit_of meter.old) state.now }
    ensures { IsOutcome (list_any (uses_units state.now.assumed) (parts_of expr.now)) (Ends state.now expr.now) meter.old meter.new
        (λ value. IsKeptIn state.now (limit_of meter.old) expr.now value.value) result }
{
    match expr {
        Expr::Prefix(word, operand) => word_kept(alloc, expr, *word, operand.get(), state, meter),
        Expr::Row(first, links) => row_kept(
            alloc,
            expr,
            first.get(),
            links.as_slice(),
            state,
            meter,
        ),
        Expr::Name(_) => selected(alloc, expr, state, meter),
        Expr::Literal(_) => selected(alloc, expr, state, meter),
        Expr::Any(_, _, _) => selected(alloc, expr, state, meter),
        Expr::Last(_, _, _) => selected(alloc, expr, state, meter),
        Expr::Post(_, _) => selected(alloc, expr, state, meter),
    }
}

// Both values of a list.
fn list_kept(alloc: Global, expr: &Expr, state: &State, meter: &mut Meter) -> Result<Kept, Refusal>
    requires makeable { IsMakeable (scope_of state.now) expr.now }
    requires kind { kind_of (scope_of state.now) expr.now ≡ Some ValueKind.List }
    requires fits { Fits (limit_of meter.old) state.now }
    ensures { IsOutcome (list_any (uses_units state.now.assumed) (parts_of expr.now)) (Ends state.now expr.now) meter.old meter.new
        (λ kept. AreKeptIn state.now (limit_of meter.old) expr.now kept) result }
{
    match flat_list_of(alloc, expr, state, meter) {
        Ok(values) => Ok(Kept::list(values)),
        Err(refusal) => Err(refusal),
    }
}

// The value of what is no list.
fn value_kept(
    alloc: Global,
    expr: &Expr,
    kind: ValueKind,
    state: &State,
    meter: &mut Meter,
) -> Result<Kept, Refusal>
    requires makeable { IsMakeable (scope_of state.now) expr.now }
    requires kind { kind_of (scope_of state.now) expr.now ≡ Some kind }
    requires other { is_kind kind ValueKind.List ≡ false }
    requires fits { Fits (limit_of meter.old) state.now }
    ensures { IsOutcome (list_any (uses_units state.now.assumed) (parts_of expr.now)) (Ends state.now expr.now) meter.old meter.new
        (λ kept. AreKeptIn state.now (limit_of meter.old) expr.now kept) result }
{
    match single(alloc, expr, state, meter) {
        Ok(value) => Ok(Kept::new(kind, value)),
        Err(refusal) => Err(refusal),
    }
}

/// What is kept of an expression of this kind: a value, or the two of a list.
pub(crate) fn content(
    alloc: Global,
    expr: &Expr,
    kind: ValueKind,
    state: &State,
    meter: &mut Meter,
) -> Result<Kept, Refusal>
    requires makeable { IsMakeable (scope_of state.now) expr.now }
    requires kind { kind_of (scope_of state.now) expr.now ≡ Some kind }
    requires fits { Fits (limit_of meter.old) state.now }
    ensures { IsOutcome (list_any (uses_units state.now.assumed) (parts_of expr.now)) (Ends state.now expr.now) meter.old meter.new
        (λ kept. AreKeptIn state.now (limit_of meter.old) expr.now kept) result }
{
    if kind == ValueKind::List {
        list_kept(alloc, expr, state, meter)
    } else {
        value_kept(alloc, expr, kind, state, meter)
    }
}
