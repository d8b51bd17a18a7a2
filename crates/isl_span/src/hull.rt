//! The affine hull of the points of systems.

ghost use Rattle.std.specs.Prelude.{◌≡◌, ◌<◌, ◌≤◌, ◌+◌, ◌∷◌, [], ℕ, ⊤, All, IfOk, MatchOption, length};
ghost use Rattle.isl_meter.specs.Gauge.{IsMetered};
ghost use Rattle.isl_piece.specs.declared.system.System.{System};
ghost use Rattle.isl_ledger.specs.Answered.{IsTame};
ghost use Rattle.isl_ledger.specs.Work.{Size, AreOfSize};
ghost use Rattle.isl_elim.specs.Elimination.{HoldsAtAny};
ghost use Rattle.isl_elim.specs.Sample.{IsNowhere, IsSample};
ghost use Rattle.isl_span.specs.Chain.{AreHullRows, IsPlainChain};
ghost use Rattle.isl_span.specs.Points.{AreFormsFor, IsHullSystem, IsOver, IsPoint};
ghost use Rattle.isl_span.specs.Work.{hull_units};

use crate::chain::{chain_of, push_padded};
use crate::few::all_with_few_rows;
use crate::forms::{exchanged, number_forms};
use crate::points::{first_point, point_off};
use isl_meter::{Cut, Meter};
use isl_piece::{Rows, System};
use std::alloc::Global;

// Asks whether the form at the place is 0 at all points. Where it is not it goes, and those before it become 0 at one point more.
#[tactic(auto, using(std::proofs::lemmas::Grind::common_steps, isl_meter::proofs::CutLemmas::charges))]
fn asked(
    alloc: Global,
    systems: &[System],
    columns: usize,
    forms: Rows,
    at: usize,
    meter: &mut Meter,
) -> Result<Rows, Cut>
    requires inside { at < length forms }
    requires systems { All (IsOver meter.old columns) systems.now }
    requires forms { AreFormsFor meter.old columns (IsPoint columns systems.now) (at + 1) forms }
    ensures forms { IfOk result (AreFormsFor meter.old columns (IsPoint columns systems.now) at) }
    ensures meter { IsMetered meter.old meter.new result }
{
    match point_off(alloc, systems, columns, &forms.as_slice()[at], meter)? {
        None => Ok(forms),
        Some(point) => exchanged(alloc, forms.as_slice(), at, point.as_slice(), meter),
    }
}

// The equations that hold at all points of the systems, of which this is one.
#[tactic(auto, using(std::proofs::lemmas::Grind::common_steps, isl_meter::proofs::CutLemmas::charges))]
fn rows_through(
    alloc: Global,
    systems: &[System],
    point: &[i128],
    meter: &mut Meter,
) -> Result<Rows, Cut>
    requires systems { All (IsOver meter.old (length point.now)) systems.now }
    requires point { IsSample meter.old (length point.now) (HoldsAtAny systems.now) point.now }
    ensures forms { IfOk result (AreFormsFor meter.old (length point.now) (IsPoint (length point.now) systems.now) 0) }
    ensures meter { IsMetered meter.old meter.new result }
{
    let columns = point.len();
    let mut forms = number_forms(alloc, point, meter)?;
    let mut at = columns;
    while at > 0 {
        at -= 1;
        forms = asked(alloc, systems, columns, forms, at, meter)?;
    }
    Ok(forms)
}

// The equations that hold at all points of the systems; none where these have no point. Forms that are 0 at the points found so far are
// asked one after another for a point at which they are not.
#[tactic(auto, using(std::proofs::lemmas::Grind::common_steps, isl_meter::proofs::CutLemmas::charges))]
fn equations_of(
    alloc: Global,
    systems: &[System],
    columns: usize,
    meter: &mut Meter,
) -> Result<Option<Rows>, Cut>
    requires { All (IsOver meter.old columns) systems.now }
    ensures exact { IfOk result (λ found. MatchOption found
        (IsNowhere columns (HoldsAtAny systems.now))
        (AreHullRows meter.old columns (IsPoint columns systems.now))) }
    ensures meter { IsMetered meter.old meter.new result }
    ensures tame { (size : Size) → meter.old.bits ≡ 127 → columns ≡ 0 → size.columns ≡ 0 → size.bits ≤ 119
        → AreOfSize size systems.now → IsTame 0 meter.old meter.new (λ _. ⊤) result }
{
    let Some(point) = first_point(alloc, systems, columns, meter)? else {
        return Ok(None);
    };
    if columns == 0 {
        return Ok(Some(Rows::new(alloc)));
    }
    Ok(Some(rows_through(alloc, systems, point.as_slice(), meter)?))
}

/// The system of the equations that hold at all points of the systems; none where these have no point. From one system the last columns
/// are taken one after another, as long as it is seen what they add; of what is left, points are looked for.
///
/// # Errors
///
/// `Overflow` where a number passes the limit of the meter, `Budget` where its units are used up, and `NoMemory`. Of one system of
/// difference constraints with a point `hull_units` tells how many units are enough, where 127 bits have room for one bit more with each
/// column, and one more.
#[tactic(auto, using(std::proofs::lemmas::Grind::common_steps, isl_meter::proofs::CutLemmas::charges))]
pub fn hull_of(
    alloc: Global,
    systems: Vec<System>,
    columns: usize,
    meter: &mut Meter,
) -> Result<Option<System>, Cut>
    requires { All (IsOver meter.old columns) systems.items }
    ensures exact { IfOk result (λ found. MatchOption found
        (IsNowhere columns (HoldsAtAny systems.items))
        (IsHullSystem meter.old columns (IsPoint columns systems.items))) }
    ensures meter { IsMetered meter.old meter.new result }
    ensures tame { (bits : ℕ) (s : System) → meter.old.bits ≡ 127 → bits + 1 + columns ≤ 120 → systems.items ≡ s ∷ []
        → IsPlainChain columns bits s → IsTame (hull_units columns) meter.old meter.new (λ _. ⊤) result }
{
    let mut chain = chain_of(alloc, systems, columns, meter)?;
    let few = all_with_few_rows(alloc, chain.left.as_slice(), chain.first, meter)?;
    let Some(rest) = equations_of(alloc, few.as_slice(), chain.first, meter)? else {
        return Ok(None);
    };
    push_padded(alloc, &mut chain.rows, rest.as_slice(), columns)?;
    Ok(Some(System::from_rows(alloc, columns, chain.rows)))
}
