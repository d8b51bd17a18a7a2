//! Proofs of so many nodes at most.

ghost use Rattle.std.specs.Prelude.{◌≡◌, ◌≤◌, ◌+◌, ◌^◌, [], ℕ, ⊤, All, IfOk, IfSome, MatchResult, true, map};
ghost use Rattle.isl_meter.specs.Gauge.{IsCharged, IsCutBy, IsMetered};
ghost use Rattle.isl_piece.specs.System.{IsSystemWithin};
ghost use Rattle.isl_ledger.specs.Answered.{IsTame};
ghost use Rattle.isl_refute.specs.Passes.{nodes};
ghost use Rattle.isl_refute.specs.Refutes.{refutes, rows_of};

use isl_meter::{Cut, Meter};
use isl_piece::System;
use isl_refute::{Cert, check};
use isl_search::proof_of;
use std::alloc::Global;

/// Uses so many units.
#[tactic(auto, using(std::proofs::lemmas::Grind::common_steps, isl_meter::proofs::CutLemmas::charges))]
pub(crate) fn pay(units: u64, meter: &mut Meter) -> Result<(), Cut>
    ensures cases { MatchResult result
        (λ _. (meter.new.units ≡ meter.old.units + units) × IsCharged meter.old meter.new)
        (IsCutBy meter.old meter.new) }
    ensures tame { IsTame units meter.old meter.new (λ _. ⊤) result }
{
    for _unit in 0..units {
        meter.unit()?;
    }
    Ok(())
}

// How many nodes it has, where it is a proof of so many at most. What is too large for 127 bits or for memory is none.
fn nodes_of(
    alloc: Global,
    system: &System,
    outs: &[System],
    cert: &Cert,
    most: u64,
    meter: &Meter,
) -> Option<u64>
    requires within { IsSystemWithin meter.now system.now }
    requires outs { All (IsSystemWithin meter.now) outs.now }
    requires columns { All (λ out. out.columns ≡ system.now.columns) outs.now }
    requires plain { system.now.definitions ≡ [] }
    requires plain_outs { All (λ out. out.definitions ≡ []) outs.now }
    requires some { 1 ≤ most }
    requires few { most ≤ 10 ^ 12 }
    ensures count { IfSome result (λ count. (count ≡ nodes cert.now) × (count ≤ most)) }
    ensures refutes { IfSome result (λ _. refutes (map rows_of outs.now) system.now.columns system.now.rows cert.now ≡ true) }
{
    // For what a meter keeps.
    let _limit = meter.limit();
    let mut own = Meter::new(127, most);
    let Ok(yes) = check(alloc, system, outs, cert, &mut own) else {
        return None;
    };
    if !yes {
        return None;
    }
    Some(own.units())
}

/// A proof of so many nodes at most that was looked at, for two units a node. Where a number of the search is too large, or a proof has
/// more nodes, none is found.
///
/// # Errors
///
/// `Budget` where units are used up, and `NoMemory`, also where none is found.
#[tactic(auto, using(std::proofs::lemmas::Grind::common_steps, isl_meter::proofs::CutLemmas::charges))]
pub(crate) fn found_within(
    alloc: Global,
    system: &System,
    outs: &[System],
    most: u64,
    meter: &mut Meter,
) -> Result<Cert, Cut>
    requires within { IsSystemWithin meter.old system.now }
    requires outs { All (IsSystemWithin meter.old) outs.now }
    requires columns { All (λ out. out.columns ≡ system.now.columns) outs.now }
    requires plain { system.now.definitions ≡ [] }
    requires plain_outs { All (λ out. out.definitions ≡ []) outs.now }
    requires some { 1 ≤ most }
    requires few { most ≤ 10 ^ 12 }
    ensures refutes { IfOk result (λ cert. refutes (map rows_of outs.now) system.now.columns system.now.rows cert ≡ true) }
    ensures units { IfOk result (λ cert. meter.new.units ≡ meter.old.units + (nodes cert + nodes cert)) }
    ensures meter { IsMetered meter.old meter.new result }
    ensures tame { IsTame (most + most) meter.old meter.new (λ _. ⊤) result }
{
    let Ok(cert) = proof_of(alloc, system, outs) else {
        return Err(Cut::NoMemory);
    };
    let Some(count) = nodes_of(alloc, system, outs, &cert, most, meter) else {
        return Err(Cut::NoMemory);
    };
    pay(count, meter)?;
    pay(count, meter)?;
    Ok(cert)
}
