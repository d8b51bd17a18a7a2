//! Proofs that a system has no point outside others.

ghost use Rattle.std.specs.Prelude.{◌≡◌, ◌≤◌, ◌↔◌, ◌+◌, [], ◌∷◌, ℕ, ⊤, All, IfOk, IfSome, IsNone, IsTrue, false, true, length, map};
ghost use Rattle.isl_difference.specs.Difference.{IsCovered};
ghost use Rattle.isl_ledger.specs.Answered.{IsTame};
ghost use Rattle.isl_ledger.specs.Difference.{IsDifferenceSystem};
ghost use Rattle.isl_meter.specs.Gauge.{IsMetered};
ghost use Rattle.isl_piece.specs.System.{HoldsSystem, IsSystemWithin};
ghost use Rattle.isl_refute.specs.Passes.{nodes};
ghost use Rattle.isl_refute.specs.Refutes.{refutes, rows_of};
ghost use Rattle.isl_cert.specs.Bound.{node_limit, proof_work, question_work};

use crate::comparing::{are_comparing, most_nodes};
use crate::living::living_of;
use crate::within::{found_within, pay};
use isl_difference::is_covered;
use isl_elim::is_empty;
use isl_meter::{Cut, Int, Meter};
use isl_piece::System;
use isl_refute::{Cert, check};
use isl_search::proof_of;
use std::alloc::Global;

// Whether some point makes the system hold and none of the outs.
#[tactic(auto, using(std::proofs::lemmas::Grind::common_steps, isl_meter::proofs::CutLemmas::charges))]
fn is_left(alloc: Global, system: &System, outs: &[System], meter: &mut Meter) -> Result<bool, Cut>
    requires within { IsSystemWithin meter.old system.now }
    requires outs { All (IsSystemWithin meter.old) outs.now }
    requires columns { All (λ out. out.columns ≡ system.now.columns) outs.now }
    requires plain { system.now.definitions ≡ [] }
    requires plain_outs { All (λ out. out.definitions ≡ []) outs.now }
    ensures exact { IfOk result (λ left. IsTrue left ↔ (¬ IsCovered system.now outs.now)) }
    ensures covered { IfOk result (λ left. left ≡ false → IsCovered system.now outs.now) }
    ensures meter { IsMetered meter.old meter.new result }
    ensures tame { (bits : ℕ) → meter.old.bits ≡ 127 → bits + 1 + system.now.columns ≤ 120
        → IsDifferenceSystem system.now.columns bits system.now → All (IsDifferenceSystem system.now.columns bits) outs.now
        → IsTame (question_work system.now.columns (length outs.now)) meter.old meter.new (λ _. ⊤) result }
{
    let empty = is_empty(alloc, system, meter)?;
    if empty {
        return Ok(false);
    }
    let others = living_of(alloc, outs, meter)?;
    let covered = is_covered(alloc, system, others.as_slice(), meter)?;
    Ok(!covered)
}

// A proof, if the search finds one. Where a number of the search is too large, the meter counts it.
#[tactic(auto, using(std::proofs::lemmas::Grind::common_steps, isl_meter::proofs::CutLemmas::charges))]
fn searched(alloc: Global, system: &System, outs: &[System], meter: &mut Meter) -> Result<Cert, Cut>
    ensures { IsMetered meter.old meter.new result }
{
    match proof_of(alloc, system, outs) {
        Ok(cert) => Ok(cert),
        Err(Cut::Overflow) => {
            let _counted = Int::new(meter.limit()).add(Int::ONE, meter)?;
            Err(Cut::NoMemory)
        }
        Err(_) => Err(Cut::NoMemory),
    }
}

// Whether what was found is a proof. Where it is, a unit is used for each of its nodes beside the one of `check`.
#[tactic(auto, using(std::proofs::lemmas::Grind::common_steps, isl_meter::proofs::CutLemmas::charges))]
fn is_proof(
    alloc: Global,
    system: &System,
    outs: &[System],
    cert: &Cert,
    meter: &mut Meter,
) -> Result<bool, Cut>
    requires within { IsSystemWithin meter.old system.now }
    requires outs { All (IsSystemWithin meter.old) outs.now }
    requires columns { All (λ out. out.columns ≡ system.now.columns) outs.now }
    requires plain { system.now.definitions ≡ [] }
    requires plain_outs { All (λ out. out.definitions ≡ []) outs.now }
    ensures exact { IfOk result (λ says. says ≡ refutes (map rows_of outs.now) system.now.columns system.now.rows cert.now) }
    ensures units { IfOk result (λ says. IsTrue says
        → meter.new.units ≡ meter.old.units + (nodes cert.now + nodes cert.now)) }
    ensures meter { IsMetered meter.old meter.new result }
{
    let before = meter.units();
    let yes = check(alloc, system, outs, cert, meter)?;
    if !yes {
        return Ok(false);
    }
    let looked_at = meter.units() - before;
    pay(looked_at, meter)?;
    Ok(true)
}

// A proof that was looked at. For difference constraints no more is looked at than they may cost.
#[tactic(auto, using(std::proofs::lemmas::Grind::common_steps, isl_meter::proofs::CutLemmas::charges))]
fn found(alloc: Global, system: &System, outs: &[System], meter: &mut Meter) -> Result<Cert, Cut>
    requires within { IsSystemWithin meter.old system.now }
    requires outs { All (IsSystemWithin meter.old) outs.now }
    requires columns { All (λ out. out.columns ≡ system.now.columns) outs.now }
    requires plain { system.now.definitions ≡ [] }
    requires plain_outs { All (λ out. out.definitions ≡ []) outs.now }
    ensures refutes { IfOk result (λ cert. refutes (map rows_of outs.now) system.now.columns system.now.rows cert ≡ true) }
    ensures units { IfOk result (λ cert. meter.old.units + (nodes cert + nodes cert) ≤ meter.new.units) }
    ensures meter { IsMetered meter.old meter.new result }
    ensures tame { (bits : ℕ) → All (IsDifferenceSystem system.now.columns bits) (system.now ∷ outs.now)
        → IsTame (node_limit system.now.columns (length outs.now) + node_limit system.now.columns (length outs.now))
        meter.old meter.new (λ _. ⊤) result }
{
    if are_comparing(system, outs) {
        let most = most_nodes(system.columns, outs.len());
        return found_within(alloc, system, outs, most, meter);
    }
    let cert = searched(alloc, system, outs, meter)?;
    let says = is_proof(alloc, system, outs, &cert, meter)?;
    if !says {
        return Err(Cut::NoMemory);
    }
    Ok(cert)
}

/// A proof that no whole point makes the system hold and none of the outs; none where some point does. What is answered was looked at
/// by `check`. Two units are used for each of its nodes, one as it is made and one as it is looked at, beside those of the question.
///
/// # Errors
///
/// `Overflow` where a number passes the limit of the meter, `Budget` where its units are used up, and `NoMemory`, also where the search
/// ends without a proof; of rows that compare two columns, or one with a number, also where theirs has more nodes than `node_limit` says.
#[tactic(auto, using(std::proofs::lemmas::Grind::common_steps, isl_meter::proofs::CutLemmas::charges))]
pub fn certify(
    alloc: Global,
    system: &System,
    outs: &[System],
    meter: &mut Meter,
) -> Result<Option<Cert>, Cut>
    requires within { IsSystemWithin meter.old system.now }
    requires outs { All (IsSystemWithin meter.old) outs.now }
    requires columns { All (λ out. out.columns ≡ system.now.columns) outs.now }
    requires plain { system.now.definitions ≡ [] }
    requires plain_outs { All (λ out. out.definitions ≡ []) outs.now }
    ensures none { IfOk result (λ cert. IsNone cert ↔ (¬ IsCovered system.now outs.now)) }
    ensures refutes { IfOk result (λ cert. IfSome cert (λ c. refutes (map rows_of outs.now) system.now.columns system.now.rows c ≡ true)) }
    ensures units { IfOk result (λ cert. IfSome cert (λ c. meter.old.units + (nodes c + nodes c) ≤ meter.new.units)) }
    ensures meter { IsMetered meter.old meter.new result }

    // Difference constraints are answered within so many units, and no number of theirs passes the limit.
    ensures tame { (bits : ℕ) → meter.old.bits ≡ 127 → bits + 1 + system.now.columns ≤ 120
        → All (IsDifferenceSystem system.now.columns bits) (system.now ∷ outs.now)
        → IsTame (proof_work system.now.columns (length outs.now)) meter.old meter.new (λ _. ⊤) result }
{
    let left = is_left(alloc, system, outs, meter)?;
    if left {
        return Ok(None);
    }
    let cert = found(alloc, system, outs, meter)?;
    Ok(Some(cert))
}
