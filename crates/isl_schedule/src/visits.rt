//! What is visited, and when, as systems.

ghost use Rattle.std.specs.Prelude.{◌≡◌, ◌+◌, ◌<◌, ◌≤◌, ◌^◌, [], length, All, IfOk};
ghost use Rattle.isl_meter.specs.Gauge.{Gauge};
ghost use Rattle.isl_space.specs.Names.{IsParameterList};
ghost use Rattle.isl_piece.specs.System.{IsSystemWithin, free_columns};
ghost use Rattle.isl_union.specs.Numbers.{AreWithinLimit};
ghost use Rattle.isl_union.specs.Piece.{IsPieceOf};
ghost use Rattle.isl_blocks.specs.Blocks.{total};
ghost use Rattle.isl_schedule.specs.Visits.{own_widths, AreVisitsOf, IsAtItself, IsOverBlocks, IsTimedBy, IsVisitOf};

use crate::shapes::{domain_of, time_of};
use isl_blocks::{same_case, spread};
use isl_meter::Meter;
use isl_piece::{Piece, System, meet};
use isl_space::{Params, Shape, Space};
use std::alloc::{AllocError, Global};
use std::rc::Rc;

/// Points of one shape, and their times: a system over the parameters, the numbers of a point, and those of its time.
#[derive(Drop)]
pub struct Visits {
    pub domain: Rc<Shape>,
    pub time: Rc<Shape>,
    pub system: System,
}

// The system over so many parameters, a point and a time that holds where the other one does at the point, and the time is the point.
fn at_itself(
    alloc: Global,
    params: usize,
    width: usize,
    system: &System,
) -> Result<System, AllocError>
    requires fits { total (own_widths params width) < 2 ^ 64 }
    requires within { (g : Gauge) × IsSystemWithin g system.now }
    requires columns { free_columns system.now ≡ params + width }
    ensures over { (g : Gauge) → 8 ≤ g.bits → IsSystemWithin g system.now
        → IfOk result (IsOverBlocks g (own_widths params width) (IsAtItself system.now)) }
    ensures definitions { system.now.definitions ≡ [] → IfOk result (λ made. made.definitions ≡ []) }
{
    let widths = [params, width, width];
    let own = spread(alloc, system, &widths, &[0, 1])?;
    let same = same_case(alloc, &widths, 1, 2)?;
    meet(alloc, &own, &same)
}

// The system over the parameters, a point of the piece, and its time.
fn timed_system(alloc: Global, params: &Params, piece: &Piece) -> Result<System, AllocError>
    requires names { IsParameterList params.now }
    requires piece { IsPieceOf params.now piece.now }
    requires within { (g : Gauge) × IsSystemWithin g piece.now.system }
    ensures timed { (g : Gauge) → 8 ≤ g.bits → IsSystemWithin g piece.now.system
        → IfOk result (IsTimedBy g (length params.now) piece.now.space piece.now.system) }
    ensures definitions { piece.now.system.definitions ≡ [] → IfOk result (λ made. made.definitions ≡ []) }
{
    match piece.space() {
        Space::Set(shape) => at_itself(alloc, params.len(), shape.width() as usize, piece.system()),
        Space::Map(_from, _to) => piece.system().copy(alloc),
    }
}

// What a piece tells to be visited.
fn visits_in(alloc: Global, params: &Params, piece: &Piece) -> Result<Visits, AllocError>
    requires names { IsParameterList params.now }
    requires piece { IsPieceOf params.now piece.now }
    requires within { (g : Gauge) × IsSystemWithin g piece.now.system }
    ensures visits { (g : Gauge) → 8 ≤ g.bits → IsSystemWithin g piece.now.system → IfOk result (IsVisitOf g params.now piece.now) }
    ensures definitions { piece.now.system.definitions ≡ [] → IfOk result (λ made. made.system.definitions ≡ []) }
{
    let space = piece.space();
    Ok(Visits {
        domain: domain_of(space).clone()?,
        time: time_of(space).clone()?,
        system: timed_system(alloc, params, piece)?,
    })
}

/// What the pieces tell to be visited, one for each, in order. No column is defined where the pieces define none.
///
/// # Errors
///
/// Where memory ends.
pub fn visits_of(
    alloc: Global,
    params: &Params,
    pieces: &[Piece],
    meter: &Meter,
) -> Result<Vec<Visits>, AllocError>
    requires names { IsParameterList params.now }
    requires pieces { All (IsPieceOf params.now) pieces.now }
    requires within { AreWithinLimit meter.now pieces.now }
    ensures visits { IfOk result (λ visits. AreVisitsOf meter.now params.now pieces.now visits.items) }
    ensures definitions { All (λ piece. piece.system.definitions ≡ []) pieces.now
        → IfOk result (λ visits. All (λ made. made.system.definitions ≡ []) visits.items) }
{
    // For what a meter keeps: it has at least 8 bits.
    let _limit = meter.limit();
    let mut visits = Vec::with_capacity(alloc, pieces.len())?;
    for piece in pieces {
        visits.push(visits_in(alloc, params, piece)?)?;
    }
    Ok(visits)
}
