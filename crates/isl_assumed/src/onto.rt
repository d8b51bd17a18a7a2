//! A region over other names.

ghost use Rattle.std.specs.Prelude.{◌≡◌, ◌+◌, ◌<◌, ◌≤◌, All, IfOk, length, map};
ghost use Rattle.isl_meter.specs.Gauge.{IsMetered};
ghost use Rattle.isl_space.specs.Names.{joined, ArePlaces, IsParameterList};
ghost use Rattle.isl_piece.specs.Placed.{placed_system};
ghost use Rattle.isl_assumed.specs.Region.{IsRegion};
ghost use Rattle.isl_assumed.specs.Left.{IsOnto};

use crate::Region;
use crate::left::left_of;
use isl_meter::{Cut, Meter};
use isl_piece::System;
use isl_space::Params;
use std::alloc::{AllocError, Global};

// The place of each name in the joined list of the others and these.
#[derive(Drop)]
struct Places {
    items: Vec<usize>,
    // How many of the names are new.
    new: usize,
}

// The places of the names behind the parameters, or among them.
fn places_behind(alloc: Global, params: &Params, names: &Params) -> Result<Places, AllocError>
    ensures places { IfOk result (λ places. ArePlaces (joined params.now names.now) names.now places.items.items) }
    ensures count { IfOk result (λ places. length (joined params.now names.now) ≡ length params.now + places.new) }
    ensures few { IfOk result (λ places. places.new ≤ length names.now) }
{
    let mut items = Vec::with_capacity(alloc, names.len())?;
    let mut new = 0;
    for i in 0..names.len() {
        match params.position(names.name(i)) {
            Some(place) => items.push(place)?,
            None => {
                items.push(params.len() + new)?;
                new += 1;
            }
        }
    }
    Ok(Places { items, new })
}

// The systems, whose free columns stand at these places among so many.
fn placed_systems(
    alloc: Global,
    systems: &[System],
    columns: usize,
    places: &[usize],
) -> Result<Vec<System>, AllocError>
    requires { All (λ place. place < columns) places.now }
    ensures { IfOk result (λ placed. placed.items ≡ map (placed_system columns places.now) systems.now) }
{
    let mut placed = Vec::with_capacity(alloc, systems.len())?;
    for system in systems {
        placed.push(system.placed(alloc, columns, places)?)?;
    }
    Ok(placed)
}

/// The systems over a column for each parameter: some of them holds where some valuation of the region has these numbers.
///
/// # Errors
///
/// As every call under a meter.
#[tactic(auto, using(std::proofs::lemmas::Grind::common_steps, isl_meter::proofs::CutLemmas::charges))]
pub(crate) fn systems_onto(
    alloc: Global,
    region: &Region,
    params: &Params,
    meter: &mut Meter,
) -> Result<Vec<System>, Cut>
    requires { IsRegion meter.old region.now.params region.now.systems.items }
    ensures names { IsParameterList params.now }
    ensures onto { IfOk result (λ systems. IsOnto meter.old region.now.params region.now.systems.items params.now systems.items) }
    ensures meter { IsMetered meter.old meter.new result }
{
    let kept = params.len();
    let places = places_behind(alloc, params, &region.params)?;
    let columns = kept + places.new;
    let placed = placed_systems(
        alloc,
        region.systems.as_slice(),
        columns,
        places.items.as_slice(),
    )?;
    left_of(alloc, placed.as_slice(), kept, places.new, meter)
}
