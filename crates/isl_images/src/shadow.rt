//! What is left of systems without some of their coordinates.

ghost use Rattle.std.specs.Prelude.{◌≤◌, IfOk, length};
ghost use Rattle.isl_meter.specs.Gauge.{IsMetered};
ghost use Rattle.isl_space.specs.Space.{space_form_of};
ghost use Rattle.isl_space.specs.SpaceForm.{IsWellFormedSpace};
ghost use Rattle.isl_piece.specs.System.{IsSystemWithin};
ghost use Rattle.isl_images.specs.Made.{ArePiecesOf};
ghost use Rattle.isl_images.specs.Shadow.{HasGap, IsShadow};

use isl_elim::columns_between;
use isl_meter::{Cut, Meter};
use isl_piece::{Piece, System};
use isl_quotient::project;
use isl_space::{Params, Space};
use isl_union::live_pieces_in;
use std::alloc::Global;

/// Coordinates that are left out: so many, behind so many others.
#[derive(Clone, Copy)]
pub(crate) struct Gap {
    pub from: usize,
    pub count: usize,
}

/// The pieces of the space with what is left of the system without some coordinates.
#[tactic(auto, using(std::proofs::lemmas::Grind::common_steps, isl_meter::proofs::CutLemmas::charges))]
pub(crate) fn pieces_without(
    alloc: Global,
    params: &Params,
    space: &Space,
    system: &System,
    gap: Gap,
    meter: &mut Meter,
) -> Result<Vec<Piece>, Cut>
    requires formed { IsWellFormedSpace (space_form_of space.now) }
    requires within { IsSystemWithin meter.old system.now }
    requires gap { HasGap params.now (space_form_of space.now) system.now gap }
    ensures made { IfOk result (λ pieces. ArePiecesOf meter.old params.now ⊥
        (IsShadow params.now (space_form_of space.now) system.now gap) pieces.items) }
    ensures meter { IsMetered meter.old meter.new result }
{
    // For what a system keeps: its defined columns are among its columns.
    let _free = system.free();
    let first = params.len() + gap.from;
    let columns = columns_between(alloc, first, first + gap.count)?;
    let systems = project(alloc, system, columns.as_slice(), meter)?;
    live_pieces_in(alloc, params, space, systems, meter)
}
