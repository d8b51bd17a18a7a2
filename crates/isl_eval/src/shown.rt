//! What is answered to an expression that is shown.

ghost use Rattle.std.specs.Prelude.{◌≡◌, ◌↔◌, ◌&&◌, ℕ, true, false, Bool, List, Some, IsTrue};
ghost use Rattle.std.specs.List.{list_any};
ghost use Rattle.isl_meter.specs.Gauge.{limit_of};
ghost use Rattle.isl_space.specs.Element.{Element};
ghost use Rattle.isl_assumed.specs.Assumed.{Assumes};
ghost use Rattle.isl_tree.specs.declared.statement.Stmt.TheVariants as s;
ghost use Rattle.isl_kinds.specs.Parts.{parts_of};
ghost use Rattle.isl_kinds.specs.Typed.{kind_of};
ghost use Rattle.isl_values.specs.State.{Moment, scope_of, Fits};
ghost use Rattle.isl_values.specs.Made.{IsSoundExpr, uses_units};
ghost use Rattle.isl_values.specs.Ends.{Ends};
ghost use Rattle.isl_values.specs.Selection.{Selects};
ghost use Rattle.isl_eval.specs.Asked as asked;
ghost use Rattle.isl_eval.specs.Listed.{IsListed};
ghost use Rattle.isl_eval.specs.Ended.{IsAssumedWhereNeeded, StatementEnds};
ghost use Rattle.isl_eval.specs.Machine.{Shows, ShowsValue, listed, told};
ghost use Rattle.isl_eval.specs.Evaluated.{works, IsEvaluable};
ghost use Rattle.isl_eval.specs.Claims.{ProvesTest};
ghost use Rattle.isl_eval.specs.Tests.{TestHolds};
ghost use Rattle.isl_eval.specs.Evaluation as spec;
ghost use Rattle.isl_eval.specs.Evaluation.{EndsListing, EndsTest, IsMakeable, IsReadyTest};
ghost use Rattle.isl_eval.specs.Evaluation.{IsOutcome, names_tested, past_row};

use crate::answers::Answer;
use crate::kept::content;
use crate::loops::coded;
use crate::numbers::numbers_of;
use crate::test::{ends_with_test, tested};
use crate::trees::forested;
use isl_meter::Meter;
use isl_refusal::Refusal;
use isl_scan::{ScanFault, scan};
use isl_tree::statement::{Expr, Link, Prefix, ValueKind};
use isl_tree::words::{Question, row_of};
use isl_values::{State, refusal_of, value_of};
use isl_words::Options;
use std::alloc::Global;

fn refusal_of_fault(fault: ScanFault) -> Refusal
    ensures { result ≡ spec.refusal_of_fault fault }
{
    match fault {
        ScanFault::Cut(cut) => refusal_of(cut),
        ScanFault::Unbounded => Refusal::Unbounded,
    }
}

// The elements that an operand selects where its parameters have these numbers, which are assumed.
fn listed(
    alloc: Global,
    operand: &Expr,
    state: &State,
    options: &Options,
    meter: &mut Meter,
) -> Result<Answer, Refusal>
    requires sound { IsSoundExpr (scope_of state.now) operand.now }
    requires assumed { Assumes state.now.assumed options.now.at }
    requires fits { Fits (limit_of meter.old) state.now }
    ensures { IsOutcome true (EndsListing state.now operand.now options.now.at) meter.old meter.new
        (λ answer. (elements : List Element) × IsListed (λ element. Selects state.now operand.now options.now.at element) elements
        × (answer ≡ listed elements)) result }
{
    let value = value_of(alloc, operand, state, meter)?;
    let numbers = numbers_of(alloc, value.params(), options)?;
    match scan(alloc, &value, numbers.as_slice(), meter) {
        Ok(listing) => Ok(Answer::of_listing(alloc, &listing)?),
        Err(fault) => Err(refusal_of_fault(fault)),
    }
}

// The line that shows what is kept of an expression.
fn value_shown(
    alloc: Global,
    expr: &Expr,
    kind: ValueKind,
    state: &State,
    meter: &mut Meter,
) -> Result<Answer, Refusal>
    requires makeable { IsMakeable (scope_of state.now) expr.now }
    requires kind { kind_of (scope_of state.now) expr.now ≡ Some kind }
    requires fits { Fits (limit_of meter.old) state.now }
    ensures { IsOutcome (list_any (uses_units state.now.assumed) (parts_of expr.now)) (Ends state.now expr.now) meter.old meter.new
        (λ answer. (before : Moment) → before.state ≡ state.now → limit_of before.meter ≡ limit_of meter.old
        → ShowsValue before expr.now answer) result }
{
    let kept = content(alloc, expr, kind, state, meter)?;
    Ok(Answer::of_kept(alloc, &kept)?)
}

// The line that tells whether a test holds, and the lines of its claims where it does and they are asked for.
fn truth_shown(
    alloc: Global,
    first: &Expr,
    before: &[Link],
    last: &Link,
    state: &State,
    asked: bool,
    meter: &mut Meter,
) -> Result<Answer, Refusal>
    requires ready { IsReadyTest (scope_of state.now) first.now before.now last.now }
    requires fits { Fits (limit_of meter.old) state.now }
    ensures { IsOutcome true (EndsTest state.now first.now before.now last.now) meter.old meter.new
        (λ answer. (holds : Bool) × (lines : List ℕ)
        × (IsTrue holds ↔ TestHolds state.now last.now.operator (past_row state.now first.now before.now)
        (Selects state.now last.now.operand))
        × ProvesTest (holds && asked) state.now (names_tested (scope_of state.now) first.now before.now last.now) last.now.operator
        (past_row state.now first.now before.now) (Selects state.now last.now.operand) lines
        × (answer ≡ told holds lines)) result }
{
    let verdict = tested(alloc, first, before, last, state, asked, meter)?;
    Ok(Answer::of_truth(alloc, verdict.holds, verdict.lines.as_str())?)
}

// Whether a word asks for elements, loops or trees, and for no value.
fn is_of_operand(word: Prefix) -> bool
    ensures { result ≡ asked.is_of_operand (asked.question_of word) }
{
    matches!(
        row_of(word).asks,
        Question::Elements | Question::Loops | Question::Trees
    )
}

// Whether elements, loops, trees or a truth are asked for.
#[tactic(auto, using(crate::proofs::AskedLaws::asked))]
fn is_asked(expr: &Expr) -> bool
    ensures { result ≡ spec.is_asked expr.now }
{
    match expr {
        Expr::Prefix(word, _) => is_of_operand(*word),
        Expr::Row(_, links) => ends_with_test(links.as_slice()),
        Expr::Name(_) | Expr::Literal(_) | Expr::Any(..) | Expr::Last(..) | Expr::Post(..) => false,
    }
}

fn is_codegen(word: Prefix) -> bool
    ensures { result ≡ spec.is_codegen word }
{
    matches!(row_of(word).asks, Question::Loops)
}

fn is_pip(word: Prefix) -> bool
    ensures { result ≡ spec.is_pip word }
{
    matches!(row_of(word).asks, Question::Trees)
}

// The line that lists elements, or that tells whether a test holds; or loops, or trees.
fn asked_shown(
    alloc: Global,
    expr: &Expr,
    state: &State,
    options: &Options,
    meter: &mut Meter,
) -> Result<Answer, Refusal>
    requires asked { spec.is_asked expr.now ≡ true }
    requires evaluable { IsEvaluable (scope_of state.now) (s.Show expr.now) }
    requires assumed { IsAssumedWhereNeeded (record { state = state.now; meter = meter.old; options = options.now }) (s.Show expr.now) }
    requires fits { Fits (limit_of meter.old) state.now }
    ensures { IsOutcome (works state.now.assumed (s.Show expr.now))
        (StatementEnds (record { state = state.now; meter = meter.old; options = options.now }) (s.Show expr.now)) meter.old meter.new
        (λ answer. Shows (record { state = state.now; meter = meter.old; options = options.now }) expr.now answer) result }
{
    match expr {
        Expr::Prefix(word, operand) => {
            let operand = operand.get();
            if is_codegen(*word) {
                coded(alloc, operand, state, options, meter)
            } else if is_pip(*word) {
                forested(alloc, operand, state, meter)
            } else {
                listed(alloc, operand, state, options, meter)
            }
        }
        Expr::Row(first, links) => match links.as_slice().split_last() {
            Some((last, before)) => {
                let asked = options.cert();
                truth_shown(alloc, first.get(), before, last, state, asked, meter)
            }
            None => unreachable!(),
        },
        _ => unreachable!(),
    }
}

/// What answers an expression of this kind.
pub(crate) fn shown(
    alloc: Global,
    expr: &Expr,
    kind: ValueKind,
    state: &State,
    options: &Options,
    meter: &mut Meter,
) -> Result<Answer, Refusal>
    requires evaluable { IsEvaluable (scope_of state.now) (s.Show expr.now) }
    requires assumed { IsAssumedWhereNeeded (record { state = state.now; meter = meter.old; options = options.now }) (s.Show expr.now) }
    requires kind { kind_of (scope_of state.now) expr.now ≡ Some kind }
    requires fits { Fits (limit_of meter.old) state.now }
    ensures { IsOutcome (works state.now.assumed (s.Show expr.now))
        (StatementEnds (record { state = state.now; meter = meter.old; options = options.now }) (s.Show expr.now)) meter.old meter.new
        (λ answer. Shows (record { state = state.now; meter = meter.old; options = options.now }) expr.now answer) result }
{
    if is_asked(expr) {
        asked_shown(alloc, expr, state, options, meter)
    } else {
        value_shown(alloc, expr, kind, state, meter)
    }
}
