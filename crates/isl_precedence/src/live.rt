//! Precedences that are kept.

ghost use Rattle.std.specs.Prelude.{IfOk};
ghost use Rattle.isl_meter.specs.Gauge.{IsMetered};
ghost use Rattle.isl_remainder.specs.Made.{AreMade};
ghost use Rattle.isl_precedence.specs.Precedence.{HasOccurrence, IsAccessed, IsPlainPrecedence};

use crate::precedence::Precedence;
use isl_difference::live_form;
use isl_meter::{Cut, Meter};
use isl_space::Params;
use std::alloc::Global;

// The precedence in its normal form; none where it has no point.
#[tactic(auto, using(std::proofs::lemmas::Grind::common_steps, isl_meter::proofs::CutLemmas::charges))]
fn live_of(
    alloc: Global,
    params: &Params,
    precedence: Precedence,
    meter: &mut Meter,
) -> Result<Vec<Precedence>, Cut>
    requires precedence { IsAccessed meter.old params.now precedence }
    ensures made { IfOk result (λ made. AreMade (HasOccurrence params.now) (IsAccessed meter.old params.now) IsPlainPrecedence
        (IsPlainPrecedence precedence) (λ o. HasOccurrence params.now o precedence) made.items) }
    ensures meter { IsMetered meter.old meter.new result }
{
    let Precedence { forms, system } = precedence;
    let Some(system) = live_form(alloc, system, meter)? else {
        return Ok(Vec::new(alloc));
    };
    let mut made = Vec::new(alloc);
    made.push(Precedence { forms, system })?;
    Ok(made)
}

/// The precedence. Where live ones alone are kept, it is in its normal form, and none where it has no point.
#[tactic(auto, using(std::proofs::lemmas::Grind::common_steps, isl_meter::proofs::CutLemmas::charges))]
pub(crate) fn kept(
    alloc: Global,
    params: &Params,
    precedence: Precedence,
    live: bool,
    meter: &mut Meter,
) -> Result<Vec<Precedence>, Cut>
    requires precedence { IsAccessed meter.old params.now precedence }
    ensures made { IfOk result (λ made. AreMade (HasOccurrence params.now) (IsAccessed meter.old params.now) IsPlainPrecedence
        (IsPlainPrecedence precedence) (λ o. HasOccurrence params.now o precedence) made.items) }
    ensures meter { IsMetered meter.old meter.new result }
{
    if live {
        return live_of(alloc, params, precedence, meter);
    }
    let mut made = Vec::new(alloc);
    made.push(precedence)?;
    Ok(made)
}
