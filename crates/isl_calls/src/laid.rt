//! Visits, laid out by their times.

ghost use Rattle.std.specs.Prelude.{◌≡◌, ◌↔◌, ◌<◌, ◌^◌, [], All, IfOk, IsTrue};
ghost use Rattle.std.specs.List.{AllZip};
ghost use Rattle.isl_space.specs.Names.{IsParameterList};
ghost use Rattle.isl_space.specs.Space.{space_form_of};
ghost use Rattle.isl_space.specs.Shape.{form_of};
ghost use Rattle.isl_piece.specs.System.{free_columns};
ghost use Rattle.isl_blocks.specs.Blocks.{total};
ghost use Rattle.isl_union.specs.Numbers.{AreWithinLimit};
ghost use Rattle.isl_union.specs.Piece.{IsPieceOf};
ghost use Rattle.isl_schedule.specs.Schedule.{domain_form};
ghost use Rattle.isl_schedule.specs.Visits.{visit_widths};
ghost use Rattle.isl_calls.specs.Calls.{IsSetForm};
ghost use Rattle.isl_calls.specs.Laid.{AreLaidOut, IsOwnLaid, IsTimedLaid};

use crate::Calls;
use isl_blocks::spread;
use isl_meter::Meter;
use isl_piece::Piece;
use isl_schedule::{Visits, visits_of};
use isl_space::{Params, Shape, Space};
use std::alloc::{AllocError, Global};
use std::rc::Rc;

fn is_set(space: &Space) -> bool
    ensures { IsTrue result ↔ IsSetForm (space_form_of space.now) }
{
    match space {
        Space::Set(_shape) => true,
        Space::Map(_from, _to) => false,
    }
}

// Whether all pieces are of sets.
fn are_sets(pieces: &[Piece]) -> bool
    ensures { IsTrue result ↔ All (λ piece. IsSetForm piece.space) pieces.now }
{
    for piece in pieces {
        if !is_set(piece.space()) {
            return false;
        }
    }
    true
}

// The shape of the points.
fn domain_of(space: &Space) -> &Rc<Shape>
    ensures { form_of result.now.value ≡ domain_form (space_form_of space.now) }
{
    match space {
        Space::Set(shape) => shape,
        Space::Map(from, _to) => from,
    }
}

// The points of a set, which are their own times.
fn own_calls(alloc: Global, piece: &Piece) -> Result<Calls, AllocError>
    requires set { IsSetForm piece.now.space }
    requires plain { piece.now.system.definitions ≡ [] }
    ensures { IfOk result (IsOwnLaid piece.now) }
{
    let domain = domain_of(piece.space());
    Ok(Calls {
        domain: domain.clone()?,
        time: domain.clone()?,
        is_own: true,
        system: piece.system().copy(alloc)?,
    })
}

fn all_own_calls(alloc: Global, pieces: &[Piece]) -> Result<Vec<Calls>, AllocError>
    requires sets { All (λ piece. IsSetForm piece.space) pieces.now }
    requires plain { All (λ piece. piece.system.definitions ≡ []) pieces.now }
    ensures { IfOk result (λ calls. AllZip IsOwnLaid pieces.now calls.items) }
{
    let mut calls = Vec::with_capacity(alloc, pieces.len())?;
    for piece in pieces {
        calls.push(own_calls(alloc, piece)?)?;
    }
    Ok(calls)
}

// Visits over so many parameters, their times before the points.
fn timed_calls(alloc: Global, params: usize, visits: &Visits) -> Result<Calls, AllocError>
    requires narrow { total (visit_widths params visits.now) < 2 ^ 32 }
    requires free { free_columns visits.now.system ≡ total (visit_widths params visits.now) }
    requires plain { visits.now.system.definitions ≡ [] }
    ensures { IfOk result (IsTimedLaid params visits.now) }
{
    let widths = [
        params,
        visits.time.width() as usize,
        visits.domain.width() as usize,
    ];
    Ok(Calls {
        domain: visits.domain.clone()?,
        time: visits.time.clone()?,
        is_own: false,
        system: spread(alloc, &visits.system, &widths, &[0, 2, 1])?,
    })
}

fn all_timed_calls(
    alloc: Global,
    params: usize,
    visits: &[Visits],
) -> Result<Vec<Calls>, AllocError>
    requires narrow { All (λ one. total (visit_widths params one) < 2 ^ 32) visits.now }
    requires free { All (λ one. free_columns one.system ≡ total (visit_widths params one)) visits.now }
    requires plain { All (λ one. one.system.definitions ≡ []) visits.now }
    ensures { IfOk result (λ calls. AllZip (IsTimedLaid params) visits.now calls.items) }
{
    let mut calls = Vec::with_capacity(alloc, visits.len())?;
    for one in visits {
        calls.push(timed_calls(alloc, params, one)?)?;
    }
    Ok(calls)
}

/// What the pieces tell to be visited, as calls, one for each, in order. Where all pieces are of sets, the times are the points
/// themselves, and no column is there twice.
///
/// # Errors
///
/// Where memory ends.
pub(crate) fn laid_out(
    alloc: Global,
    params: &Params,
    pieces: &[Piece],
    meter: &Meter,
) -> Result<Vec<Calls>, AllocError>
    requires names { IsParameterList params.now }
    requires pieces { All (IsPieceOf params.now) pieces.now }
    requires plain { All (λ piece. piece.system.definitions ≡ []) pieces.now }
    requires within { AreWithinLimit meter.now pieces.now }
    ensures { IfOk result (λ calls. AreLaidOut meter.now params.now pieces.now calls.items) }
{
    if are_sets(pieces) {
        return all_own_calls(alloc, pieces);
    }
    let visits = visits_of(alloc, params, pieces, meter)?;
    all_timed_calls(alloc, params.len(), visits.as_slice())
}
