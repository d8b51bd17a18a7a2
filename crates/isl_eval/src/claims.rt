//! The lines behind `True` where proofs are asked for.

ghost use Rattle.std.specs.Prelude.{◌≡◌, true, All, Contains, IfOk, MatchResult, string_bytes, unsigned_abs};
ghost use Rattle.isl_meter.specs.Gauge.{limit_of, IsCharged, IsMetered};
ghost use Rattle.isl_space.specs.Names.{joined};
ghost use Rattle.isl_union.specs.Compare.{IsSubset};
ghost use Rattle.isl_union.specs.Fault.{IsFaultBy};
ghost use Rattle.isl_union.specs.KeptValue.{Has, IsKeptValue};
ghost use Rattle.isl_union.specs.Numbers.{IsWithinLimit};
ghost use Rattle.isl_kinds.specs.Typed.{joined_names};
ghost use Rattle.isl_values.specs.Ends.{GoesOn};
ghost use Rattle.isl_values.specs.State.{Fits, HasNumbersUpTo};
ghost use Rattle.isl_eval.specs.Evaluation.{EndsTwo, IsOutcome, ShowsClaim, ShowsClaims};
ghost use Rattle.isl_eval.specs.Claims.{claims_left, claims_right, ProvesClaims};
ghost use Rattle.isl_eval.specs.Tests.{TestHolds};

use crate::test::refusal_of_operation;
use isl_claim::proved_lines;
use isl_meter::{Cut, Meter};
use isl_refusal::Refusal;
use isl_space::Params;
use isl_tree::statement::Binary;
use isl_union::{OpFault, Value};
use isl_values::{State, both_under};
use std::alloc::Global;
use std::rc::Rc;

// Whether a test claims that the left is part of the right.
fn claims_left(test: Binary) -> bool
    ensures { result ≡ claims_left test }
{
    matches!(test, Binary::Equal | Binary::Subset | Binary::ProperSubset)
}

// Whether it claims that the right is part of the left.
fn claims_right(test: Binary) -> bool
    ensures { result ≡ claims_right test }
{
    matches!(
        test,
        Binary::Equal | Binary::Superset | Binary::ProperSuperset
    )
}

// The lines of a claim that holds, where it is made; and else none.
#[tactic(auto, using(std::proofs::lemmas::Grind::common_steps, isl_meter::proofs::CutLemmas::charges))]
fn claim_lines(
    alloc: Global,
    made: bool,
    params: &Params,
    lesser: &Value,
    greater: &Value,
    meter: &mut Meter,
) -> Result<String, Cut>
    requires lesser_declared { All (Contains params.now) lesser.now.params }
    requires greater_declared { All (Contains params.now) greater.now.params }
    requires lesser { IsWithinLimit meter.old lesser.now }
    requires greater { IsWithinLimit meter.old greater.now }
    requires holds { made ≡ true → IsSubset lesser.now greater.now }
    ensures lines { IfOk result (λ lines. ShowsClaim made params.now lesser.now greater.now (string_bytes lines)) }
    ensures meter { IsMetered meter.old meter.new result }
{
    if !made {
        return Ok(String::new(alloc));
    }
    match proved_lines(alloc, params, lesser, greater, meter)? {
        Some(lines) => Ok(lines),
        None => unreachable!(),
    }
}

// The lines of both claims of a test that holds: the lesser side at assumed valuations alone, the greater one whole.
#[tactic(auto, using(std::proofs::lemmas::Grind::common_steps, isl_meter::proofs::CutLemmas::charges))]
fn both_lines(
    alloc: Global,
    test: Binary,
    left: &Value,
    right: &Value,
    left_under: &Value,
    right_under: &Value,
    meter: &mut Meter,
) -> Result<String, OpFault>
    requires left_kept { IsKeptValue left.now }
    requires right_kept { IsKeptValue right.now }
    requires left_declared { All (Contains (joined left.now.params right.now.params)) left_under.now.params }
    requires right_declared { All (Contains (joined left.now.params right.now.params)) right_under.now.params }
    requires left { IsWithinLimit meter.old left.now }
    requires right { IsWithinLimit meter.old right.now }
    requires left_under { IsWithinLimit meter.old left_under.now }
    requires right_under { IsWithinLimit meter.old right_under.now }
    requires left_part { claims_left test ≡ true → IsSubset left_under.now right.now }
    requires right_part { claims_right test ≡ true → IsSubset right_under.now left.now }
    ensures lines { IfOk result (λ lines. ShowsClaims (joined left.now.params right.now.params) test left.now right.now left_under.now
        right_under.now (string_bytes lines)) }
    ensures meter { MatchResult result (λ _. IsCharged meter.old meter.new)
        (IsFaultBy (joined left.now.params right.now.params) meter.old meter.new) }
{
    let (params, _places) = left.params().align(alloc, right.params())?;
    let mut lines = claim_lines(alloc, claims_left(test), &params, left_under, right, meter)?;
    let second = claim_lines(alloc, claims_right(test), &params, right_under, left, meter)?;
    lines.push_str(second.as_str())?;
    Ok(lines)
}

/// The lines of the claims of a test that holds, in their order. (Farkas' lemma; Pugh, the Omega test)
///
/// # Errors
/// `Overflow`, `Budget` and `NoMemory`, where the work is cut, or no proof is found.
pub(crate) fn claims_proved(
    alloc: Global,
    test: Binary,
    left: Rc<Value>,
    right: Rc<Value>,
    state: &State,
    meter: &mut Meter,
) -> Result<String, Refusal>
    requires left { HasNumbersUpTo (unsigned_abs (limit_of meter.old)) left.value }
    requires right { HasNumbersUpTo (unsigned_abs (limit_of meter.old)) right.value }
    requires left_kept { IsKeptValue left.value }
    requires right_kept { IsKeptValue right.value }
    requires fits { Fits (limit_of meter.old) state.now }
    requires holds { TestHolds state.now test (Has left.value) (Has right.value) }
    requires goes_on { GoesOn (EndsTwo left.value right.value) }
    ensures { IsOutcome true (EndsTwo left.value right.value) meter.old meter.new
        (λ lines. ProvesClaims state.now (joined_names left.value.params right.value.params) test (Has left.value) (Has right.value)
        (string_bytes lines)) result }
{
    let under = both_under(alloc, left.clone()?, right.clone()?, state, meter)?;
    match both_lines(alloc, test, &left, &right, &under.left, &under.right, meter) {
        Ok(lines) => Ok(lines),
        Err(fault) => Err(refusal_of_operation(fault)),
    }
}
