//! Points with several times.

ghost use Rattle.std.specs.Prelude.{◌≡◌, ◌↔◌, ◌<◌, ◌≤◌, ◌^◌, All, IfOk, IsTrue};
ghost use Rattle.isl_meter.specs.Gauge.{Gauge, IsMetered};
ghost use Rattle.isl_space.specs.Form.{width_of};
ghost use Rattle.isl_space.specs.Names.{IsParameterList};
ghost use Rattle.isl_space.specs.Shape.{form_of};
ghost use Rattle.isl_piece.specs.System.{IsSystemWithin, free_columns};
ghost use Rattle.isl_blocks.specs.Blocks.{picked_width, total, width_at};
ghost use Rattle.isl_schedule.specs.Differ.{first_blocks, second_blocks, AreSingle, HaveTimes, IsNeverBefore, IsSingleWith, IsOver};
ghost use Rattle.isl_schedule.specs.Visits.{IsOverBlocks};

use crate::Visits;
use isl_blocks::{Direction, order_case, spread};
use isl_elim::is_empty;
use isl_meter::{Cut, Meter};
use isl_piece::{System, meet};
use isl_space::Params;
use std::alloc::{AllocError, Global};

// The system over parameters, a point and two times that holds where the one system has the first, the other the second, and the
// times are the same up to a place where the first is less.
fn with_times(
    alloc: Global,
    widths: &[usize],
    one: &System,
    other: &System,
    at: usize,
) -> Result<System, AllocError>
    requires fits { total widths.now < 2 ^ 64 }
    requires within { (g : Gauge) × IsSystemWithin g one.now × IsSystemWithin g other.now }
    requires one { free_columns one.now ≡ picked_width widths.now first_blocks }
    requires other { free_columns other.now ≡ picked_width widths.now second_blocks }
    requires same { width_at widths.now 2 ≡ width_at widths.now 3 }
    requires at { at < width_at widths.now 2 }
    ensures { (g : Gauge) → 8 ≤ g.bits → IsSystemWithin g one.now → IsSystemWithin g other.now
        → IfOk result (IsOverBlocks g widths.now (HaveTimes one.now other.now at)) }
{
    let first = spread(alloc, one, widths, &[0, 1, 2])?;
    let second = spread(alloc, other, widths, &[0, 1, 3])?;
    let both = meet(alloc, &first, &second)?;
    let case = order_case(alloc, widths, 2, 3, at, Direction::Before)?;
    meet(alloc, &both, &case)
}

// Whether no point has a time of the one before a time of the other. Each place at which they may differ first uses a unit.
#[tactic(auto, using(std::proofs::lemmas::Grind::common_steps, isl_meter::proofs::CutLemmas::charges))]
fn is_never_before(
    alloc: Global,
    params: &Params,
    one: &Visits,
    other: &Visits,
    meter: &mut Meter,
) -> Result<bool, Cut>
    requires names { IsParameterList params.now }
    requires one { IsOver meter.old params.now one.now }
    requires other { IsOver meter.old params.now other.now }
    requires domain { form_of one.now.domain.value ≡ form_of other.now.domain.value }
    requires time { form_of one.now.time.value ≡ form_of other.now.time.value }
    ensures exact { IfOk result (λ never. IsTrue never ↔ IsNeverBefore params.now one.now other.now) }
    ensures meter { IsMetered meter.old meter.new result }
{
    // For what a meter keeps: it has at least 8 bits.
    let _limit = meter.limit();
    let time = one.time.width() as usize;
    let widths = [params.len(), one.domain.width() as usize, time, time];
    for at in 0..time {
        meter.unit()?;
        let system = with_times(alloc, &widths, &one.system, &other.system, at)?;
        if !is_empty(alloc, &system, meter)? {
            return Ok(false);
        }
    }
    Ok(true)
}

// The same of points of one shape; others have none together.
#[tactic(auto, using(std::proofs::lemmas::Grind::common_steps, isl_meter::proofs::CutLemmas::charges))]
fn is_single_with(
    alloc: Global,
    params: &Params,
    one: &Visits,
    other: &Visits,
    meter: &mut Meter,
) -> Result<bool, Cut>
    requires names { IsParameterList params.now }
    requires one { IsOver meter.old params.now one.now }
    requires other { IsOver meter.old params.now other.now }
    requires time { form_of one.now.time.value ≡ form_of other.now.time.value }
    ensures exact { IfOk result (λ single. IsTrue single ↔ IsSingleWith params.now one.now other.now) }
    ensures meter { IsMetered meter.old meter.new result }
{
    if one.domain.same(&other.domain) {
        is_never_before(alloc, params, one, other, meter)
    } else {
        Ok(true)
    }
}

// Whether no point has a time of the one before a time of another.
#[tactic(auto, using(std::proofs::lemmas::Grind::common_steps, isl_meter::proofs::CutLemmas::charges))]
fn is_single(
    alloc: Global,
    params: &Params,
    one: &Visits,
    others: &[Visits],
    meter: &mut Meter,
) -> Result<bool, Cut>
    requires names { IsParameterList params.now }
    requires one { IsOver meter.old params.now one.now }
    requires others { All (IsOver meter.old params.now) others.now }
    requires time { All (λ other. form_of one.now.time.value ≡ form_of other.time.value) others.now }
    ensures exact { IfOk result (λ single. IsTrue single ↔ All (λ other. IsSingleWith params.now one.now other) others.now) }
    ensures meter { IsMetered meter.old meter.new result }
{
    for other in others {
        if !is_single_with(alloc, params, one, other, meter)? {
            return Ok(false);
        }
    }
    Ok(true)
}

/// Whether no point has a time before another of its times.
#[tactic(auto, using(std::proofs::lemmas::Grind::common_steps, isl_meter::proofs::CutLemmas::charges))]
pub(crate) fn are_single(
    alloc: Global,
    params: &Params,
    visits: &[Visits],
    meter: &mut Meter,
) -> Result<bool, Cut>
    requires names { IsParameterList params.now }
    requires over { All (IsOver meter.old params.now) visits.now }
    requires time { All (λ one. All (λ other. form_of one.time.value ≡ form_of other.time.value) visits.now) visits.now }
    ensures exact { IfOk result (λ single. IsTrue single ↔ AreSingle params.now visits.now) }
    ensures meter { IsMetered meter.old meter.new result }
{
    for one in visits {
        if !is_single(alloc, params, one, visits, meter)? {
            return Ok(false);
        }
    }
    Ok(true)
}
