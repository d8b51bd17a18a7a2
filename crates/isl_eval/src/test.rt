//! Tests: what values say of one another.

ghost use Rattle.std.specs.Prelude.{◌≡◌, ◌↔◌, ◌&&◌, true, IfOk, IsTrue, string_bytes, unsigned_abs};
ghost use Rattle.isl_meter.specs.Gauge.{limit_of};
ghost use Rattle.isl_space.specs.Names.{joined};
ghost use Rattle.isl_union.specs.Compare.{IsSubset};
ghost use Rattle.isl_union.specs.KeptValue.{Has, IsKeptValue};
ghost use Rattle.isl_union.specs.Numbers.{IsWithinLimit};
ghost use Rattle.isl_values.specs.State.{scope_of, Fits, HasNumbersUpTo};
ghost use Rattle.isl_values.specs.Made.{refusal_of_fault};
ghost use Rattle.isl_values.specs.Selection.{Selects};
ghost use Rattle.isl_kinds.specs.Typed.{joined_names};
ghost use Rattle.isl_eval.specs.Claims.{ProvesTest};
ghost use Rattle.isl_eval.specs.Tests.{is_test, TestHolds};
ghost use Rattle.isl_eval.specs.Evaluation.{ends_with_test, names_tested, past_row};
ghost use Rattle.isl_eval.specs.Evaluation.{EndsTest, EndsTwo, IsOutcome, IsReadyTest, IsTestOf, Tells};

use crate::claims::claims_proved;
use isl_meter::Meter;
use isl_refusal::Refusal;
use isl_tree::statement::{Binary, Expr, Link};
use isl_union::{OpFault, Value};
use isl_values::{State, both_under, joined_past, refusal_of, value_of};
use std::alloc::Global;
use std::rc::Rc;

// Whether the operator tests its operands.
fn is_test(operator: Binary) -> bool
    ensures { result ≡ is_test operator }
{
    matches!(
        operator,
        Binary::Equal
            | Binary::ProperSubset
            | Binary::Subset
            | Binary::ProperSuperset
            | Binary::Superset
    )
}

/// Whether the last operator of a row is a test.
pub(crate) fn ends_with_test(links: &[Link]) -> bool
    ensures { result ≡ ends_with_test links.now }
{
    match links.split_last() {
        Some((last, _)) => is_test(last.operator),
        None => false,
    }
}

// Whether each element of the left is one of the right, and they are not the same.
fn is_proper_part(
    alloc: Global,
    left: &Value,
    right: &Value,
    meter: &mut Meter,
) -> Result<bool, OpFault>
    requires left { IsWithinLimit meter.old left.now }
    requires right { IsWithinLimit meter.old right.now }
    ensures exact { IfOk result (λ holds. IsTrue holds ↔ (IsSubset left.now right.now × (¬ IsSubset right.now left.now))) }
    ensures units { IsTestOf (joined left.now.params right.now.params) meter.old meter.new result }
{
    // For what values keep.
    let _left = left.pieces();
    let _right = right.pieces();
    if !left.is_subset(alloc, right, meter)? {
        return Ok(false);
    }
    let turned = right.is_subset(alloc, left, meter)?;
    Ok(!turned)
}

/// Why a statement is refused of which an operation on values made nothing.
pub(crate) fn refusal_of_operation(fault: OpFault) -> Refusal
    ensures { result ≡ refusal_of_fault fault }
{
    match fault {
        OpFault::TooWide => Refusal::TooWide,
        OpFault::Cut(cut) => refusal_of(cut),
    }
}

// What a test tells of two values.
fn holds(
    alloc: Global,
    test: Binary,
    left: &Value,
    right: &Value,
    meter: &mut Meter,
) -> Result<bool, OpFault>
    requires test { is_test test ≡ true }
    requires left { IsWithinLimit meter.old left.now }
    requires right { IsWithinLimit meter.old right.now }
    ensures exact { IfOk result (λ holds. IsTrue holds ↔ Tells test left.now right.now) }
    ensures units { IsTestOf (joined left.now.params right.now.params) meter.old meter.new result }
{
    // For what values keep.
    let _left = left.pieces();
    let _right = right.pieces();
    match test {
        Binary::Equal => left.is_equal(alloc, right, meter),
        Binary::Subset => left.is_subset(alloc, right, meter),
        Binary::Superset => right.is_subset(alloc, left, meter),
        Binary::ProperSubset => is_proper_part(alloc, left, right, meter),
        Binary::ProperSuperset => is_proper_part(alloc, right, left, meter),
        _ => unreachable!(),
    }
}

// Whether a test of two values holds, at every assumed valuation.
fn told(
    alloc: Global,
    test: Binary,
    left: Rc<Value>,
    right: Rc<Value>,
    state: &State,
    meter: &mut Meter,
) -> Result<bool, Refusal>
    requires test { is_test test ≡ true }
    requires left { HasNumbersUpTo (unsigned_abs (limit_of meter.old)) left.value }
    requires right { HasNumbersUpTo (unsigned_abs (limit_of meter.old)) right.value }
    requires left_kept { IsKeptValue left.value }
    requires right_kept { IsKeptValue right.value }
    requires fits { Fits (limit_of meter.old) state.now }
    ensures { IsOutcome true (EndsTwo left.value right.value) meter.old meter.new
        (λ holds. IsTrue holds ↔ TestHolds state.now test (Has left.value) (Has right.value)) result }
{
    let operands = both_under(alloc, left, right, state, meter)?;
    match holds(alloc, test, &operands.left, &operands.right, meter) {
        Ok(holds) => Ok(holds),
        Err(fault) => Err(refusal_of_operation(fault)),
    }
}

/// Whether a test holds, and the lines behind its answer.
#[derive(Drop)]
pub(crate) struct Verdict {
    pub holds: bool,
    pub lines: String,
}

// Whether lines stand behind the answer to a test.
fn are_shown(holds: bool, asked: bool) -> bool
    ensures { result ≡ (holds && asked) }
{
    holds && asked
}

// Whether a test of two values holds, with the lines of its claims where it does and they are asked for.
fn told_with(
    alloc: Global,
    test: Binary,
    left: Rc<Value>,
    right: Rc<Value>,
    state: &State,
    asked: bool,
    meter: &mut Meter,
) -> Result<Verdict, Refusal>
    requires test { is_test test ≡ true }
    requires left { HasNumbersUpTo (unsigned_abs (limit_of meter.old)) left.value }
    requires right { HasNumbersUpTo (unsigned_abs (limit_of meter.old)) right.value }
    requires left_kept { IsKeptValue left.value }
    requires right_kept { IsKeptValue right.value }
    requires fits { Fits (limit_of meter.old) state.now }
    ensures { IsOutcome true (EndsTwo left.value right.value) meter.old meter.new
        (λ verdict. (IsTrue verdict.holds ↔ TestHolds state.now test (Has left.value) (Has right.value))
        × ProvesTest (verdict.holds && asked) state.now (joined_names left.value.params right.value.params) test (Has left.value)
        (Has right.value) (string_bytes verdict.lines)) result }
{
    let holds = told(alloc, test, left.clone()?, right.clone()?, state, meter)?;
    if !are_shown(holds, asked) {
        let lines = String::new(alloc);
        return Ok(Verdict { holds, lines });
    }
    let lines = claims_proved(alloc, test, left, right, state, meter)?;
    Ok(Verdict { holds, lines })
}

/// Whether the test at the end of a row holds, at every assumed valuation; with the lines of its claims where it does and they are asked
/// for.
pub(crate) fn tested(
    alloc: Global,
    first: &Expr,
    before: &[Link],
    last: &Link,
    state: &State,
    asked: bool,
    meter: &mut Meter,
) -> Result<Verdict, Refusal>
    requires ready { IsReadyTest (scope_of state.now) first.now before.now last.now }
    requires fits { Fits (limit_of meter.old) state.now }
    ensures { IsOutcome true (EndsTest state.now first.now before.now last.now) meter.old meter.new
        (λ verdict. (IsTrue verdict.holds ↔ TestHolds state.now last.now.operator (past_row state.now first.now before.now)
        (Selects state.now last.now.operand))
        × ProvesTest (verdict.holds && asked) state.now (names_tested (scope_of state.now) first.now before.now last.now)
        last.now.operator (past_row state.now first.now before.now) (Selects state.now last.now.operand) (string_bytes verdict.lines))
        result }
{
    let left = value_of(alloc, first, state, meter)?;
    let left = joined_past(alloc, left, before, state, meter)?;
    let right = value_of(alloc, &last.operand, state, meter)?;
    told_with(alloc, last.operator, left, right, state, asked, meter)
}
