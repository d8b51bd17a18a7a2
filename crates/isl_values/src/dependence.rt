//! Which accesses come before others, and which are the last.

ghost use Rattle.std.specs.Prelude.{◌≡◌, IfOk, MatchResult, true, unsigned_abs};
ghost use Rattle.isl_meter.specs.Gauge.{limit_of};
ghost use Rattle.isl_relation.specs.Flow.{AnyHas};
ghost use Rattle.isl_values.specs.Ends.{GoesOn};
ghost use Rattle.isl_values.specs.Made.{refusal_of_fault, IsPaid, IsWhyUnworked};
ghost use Rattle.isl_state.specs.State.{Fits};
ghost use Rattle.isl_values.specs.Three.{AreAllLive, AreKeptWithin, AreLiveOfThree, AreOfFlow, AreOfThree, IsLiveOfThree, IsOfThree};
ghost use Rattle.isl_values.specs.Three.{ThreeEnd, ThreeEndAt};
ghost use Rattle.isl_values.specs.Worked.{PartHas};

use crate::answers::answered;
use isl_flow::Flow;
use isl_meter::Meter;
use isl_operators::depended;
use isl_outcome::refusal_of;
use isl_refusal::Refusal;
use isl_state::{ListPart, ListValue, State, live_part};
use isl_union::{OpFault, Value};
use std::alloc::Global;
use std::rc::Rc;

/// The values of source, sink and schedule.
#[derive(Drop)]
pub struct Accesses {
    pub source: Rc<Value>,
    pub sink: Rc<Value>,
    pub schedule: Rc<Value>,
}

// From sources to the sinks that they come before.
fn related(alloc: Global, three: &Accesses, meter: &mut Meter) -> Result<Rc<Value>, Refusal>
    requires { AreKeptWithin (unsigned_abs (limit_of meter.old)) three.now }
    ensures made { MatchResult result
        (λ value. IsOfThree AnyHas three.now (unsigned_abs (limit_of meter.old)) value.value × IsPaid true meter.old meter.new)
        (IsWhyUnworked true (ThreeEnd three.now) meter.old meter.new) }
    ensures goes_on { IfOk result (λ _. GoesOn (ThreeEnd three.now)) }
{
    answered(
        alloc,
        depended(alloc, &three.source, &three.sink, &three.schedule, meter),
    )
}

// What is answered for both values of a flow, shared.
fn listed(alloc: Global, outcome: Result<Flow, OpFault>) -> Result<ListValue, Refusal>
    ensures { MatchResult result (λ list. MatchResult outcome (AreOfFlow list) (λ _. ⊥))
        (λ refusal. MatchResult outcome (λ _. refusal ≡ Refusal.NoMemory) (λ fault. refusal ≡ refusal_of_fault fault)) }
{
    match outcome {
        Ok(flow) => Ok(ListValue {
            first: Rc::new(alloc, flow.last)?,
            second: Rc::new(alloc, flow.unsourced)?,
        }),
        Err(OpFault::Cut(cut)) => Err(refusal_of(cut)),
        Err(OpFault::TooWide) => Err(Refusal::TooWide),
    }
}

// The last sources of sinks, and the sinks that have none.
fn lasts(alloc: Global, three: &Accesses, meter: &mut Meter) -> Result<ListValue, Refusal>
    requires { AreKeptWithin (unsigned_abs (limit_of meter.old)) three.now }
    ensures made { MatchResult result
        (λ list. AreOfThree three.now (unsigned_abs (limit_of meter.old)) list × IsPaid true meter.old meter.new)
        (IsWhyUnworked true (ThreeEnd three.now) meter.old meter.new) }
    ensures goes_on { IfOk result (λ _. GoesOn (ThreeEnd three.now)) }
{
    listed(
        alloc,
        isl_operators::latest(alloc, &three.source, &three.sink, &three.schedule, meter),
    )
}

/// What is live of the pairs from sources to the sinks that they come before.
pub fn preceding(
    alloc: Global,
    three: &Accesses,
    state: &State,
    meter: &mut Meter,
) -> Result<Rc<Value>, Refusal>
    requires within { AreKeptWithin (unsigned_abs (limit_of meter.old)) three.now }
    requires live { AreAllLive state.now.assumed three.now }
    requires fits { Fits (limit_of meter.old) state.now }
    ensures made { MatchResult result
        (λ value. IsLiveOfThree state.now.assumed AnyHas three.now (unsigned_abs (limit_of meter.old)) value.value
        × IsPaid true meter.old meter.new)
        (IsWhyUnworked true (ThreeEndAt state.now three.now) meter.old meter.new) }
    ensures goes_on { IfOk result (λ _. GoesOn (ThreeEndAt state.now three.now)) }
{
    match related(alloc, three, meter) {
        Ok(made) => live_part(alloc, made, state.assumed(), meter),
        Err(refusal) => Err(refusal),
    }
}

/// What is live of the last sources of sinks, and of the sinks that have none.
pub fn latest(
    alloc: Global,
    three: &Accesses,
    state: &State,
    meter: &mut Meter,
) -> Result<ListValue, Refusal>
    requires within { AreKeptWithin (unsigned_abs (limit_of meter.old)) three.now }
    requires live { AreAllLive state.now.assumed three.now }
    requires fits { Fits (limit_of meter.old) state.now }
    ensures made { MatchResult result
        (λ list. AreLiveOfThree state.now.assumed three.now (unsigned_abs (limit_of meter.old)) list × IsPaid true meter.old meter.new)
        (IsWhyUnworked true (ThreeEndAt state.now three.now) meter.old meter.new) }
    ensures goes_on { IfOk result (λ _. GoesOn (ThreeEndAt state.now three.now)) }
{
    let list = match lasts(alloc, three, meter) {
        Ok(list) => list,
        Err(refusal) => return Err(refusal),
    };
    let first = match live_part(alloc, list.first, state.assumed(), meter) {
        Ok(first) => first,
        Err(refusal) => return Err(refusal),
    };
    match live_part(alloc, list.second, state.assumed(), meter) {
        Ok(second) => Ok(ListValue { first, second }),
        Err(refusal) => Err(refusal),
    }
}

/// One part of them.
pub fn latest_part(
    alloc: Global,
    part: ListPart,
    three: &Accesses,
    state: &State,
    meter: &mut Meter,
) -> Result<Rc<Value>, Refusal>
    requires within { AreKeptWithin (unsigned_abs (limit_of meter.old)) three.now }
    requires live { AreAllLive state.now.assumed three.now }
    requires fits { Fits (limit_of meter.old) state.now }
    ensures made { MatchResult result
        (λ value. IsLiveOfThree state.now.assumed (PartHas part) three.now (unsigned_abs (limit_of meter.old)) value.value
        × IsPaid true meter.old meter.new)
        (IsWhyUnworked true (ThreeEndAt state.now three.now) meter.old meter.new) }
    ensures goes_on { IfOk result (λ _. GoesOn (ThreeEndAt state.now three.now)) }
{
    match latest(alloc, three, state, meter) {
        Ok(list) => match part {
            ListPart::First => Ok(list.first),
            ListPart::Second => Ok(list.second),
        },
        Err(refusal) => Err(refusal),
    }
}
