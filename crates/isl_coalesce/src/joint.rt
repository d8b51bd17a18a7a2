//! The joint piece of two.

ghost use Rattle.std.specs.Prelude.{◌≡◌, ◌↔◌, ◌<◌, [], All, IfOk, IsTrue, MatchOption, None, Some, get_or, length, slice_index};
ghost use Rattle.isl_meter.specs.Gauge.{IsMetered};
ghost use Rattle.isl_space.specs.Names.{AreDistinct};
ghost use Rattle.isl_piece.specs.Piece.{PieceView};
ghost use Rattle.isl_piece.specs.System.{HoldsSystem, IsSystemWithin, free_columns};
ghost use Rattle.isl_elim.specs.Sample.{IsNowhere};
ghost use Rattle.isl_union.specs.Piece.{kept_piece};
ghost use Rattle.isl_assumed.specs.declared.assumed.Assumed.TheVariants.{Nothing};
ghost use Rattle.isl_assumed.specs.Assumed.{Assumes};
ghost use Rattle.isl_coalesce.specs.Found.{AreUnjoinedSystems, HavePointsIn, IsJointPiece, IsJointSystem, IsKnown, IsKnownFor, IsKnownOf};
ghost use Rattle.isl_coalesce.specs.Found.{IsOfEither, IsPlain, IsPlainPiece};
ghost use Rattle.isl_coalesce.specs.Joint.{AreUnjoined, IsJointAt};
ghost use Rattle.isl_coalesce.specs.Slots.{AreApartAt, pieces_at, present};

use crate::beyond::are_seen_apart;
use crate::candidate::Candidate;
use crate::parts::parts;
use isl_assumed::{Assumed, pairs};
use isl_difference::is_covered;
use isl_elim::is_empty;
use isl_meter::{Cut, Meter};
use isl_piece::{Piece, System};
use isl_space::Params;
use std::alloc::Global;

// ---- points that are ones of two systems
// Whether some of the systems has a point, and all their points are ones of the others.
#[tactic(auto, using(std::proofs::lemmas::Grind::common_steps, isl_meter::proofs::CutLemmas::charges))]
fn have_points_in(
    alloc: Global,
    systems: &[System],
    first: &System,
    second: &System,
    meter: &mut Meter,
) -> Result<bool, Cut>
    requires systems { All (IsSystemWithin meter.old) systems.now }
    requires first { IsSystemWithin meter.old first.now }
    requires second { IsSystemWithin meter.old second.now }
    requires columns { All (λ s. free_columns s ≡ free_columns first.now) systems.now }
    requires same { free_columns second.now ≡ free_columns first.now }
    ensures exact { IfOk result (λ all. IsTrue all ↔ HavePointsIn (free_columns first.now) first.now second.now systems.now) }
    ensures meter { IsMetered meter.old meter.new result }
{
    let mut some = false;
    for system in systems {
        if !is_empty(alloc, system, meter)? {
            if !is_covered(alloc, system, &[first, second], meter)? {
                return Ok(false);
            }
            some = true;
        }
    }
    Ok(some)
}

// Whether the system has a known point, and all of these are ones of the two.
#[tactic(auto, using(std::proofs::lemmas::Grind::common_steps, isl_meter::proofs::CutLemmas::charges))]
fn is_of_either(
    alloc: Global,
    joint: &System,
    known: &Assumed,
    first: &System,
    second: &System,
    meter: &mut Meter,
) -> Result<bool, Cut>
    requires joint { IsPlain meter.old joint.now }
    requires known { IsKnownOf meter.old joint.now.columns known.now }
    requires first { IsPlain meter.old first.now }
    requires second { IsPlain meter.old second.now }
    requires columns { first.now.columns ≡ joint.now.columns }
    requires same { second.now.columns ≡ joint.now.columns }
    requires live { known.now ≡ Nothing → ¬ IsNowhere joint.now.columns (HoldsSystem joint.now) }
    ensures exact { IfOk result (λ all. IsTrue all ↔ IsOfEither (IsKnown known.now) first.now second.now joint.now) }
    ensures meter { IsMetered meter.old meter.new result }
{
    match known {
        Assumed::Nothing => is_covered(alloc, joint, &[first, second], meter),
        Assumed::Where(region) => {
            let names = region.params.len();
            let more = joint.columns - names;
            let parts = pairs(alloc, joint, region.systems.as_slice(), names, more, meter)?;
            have_points_in(alloc, parts.as_slice(), first, second, meter)
        }
    }
}

// The normal system of what both systems keep beside the other, where it has known points, and all of them are ones of the two.
fn joint_system(
    alloc: Global,
    known: &Assumed,
    first: &System,
    second: &System,
    meter: &mut Meter,
) -> Result<Option<System>, Cut>
    requires known { IsKnownOf meter.old first.now.columns known.now }
    requires first { IsPlain meter.old first.now }
    requires second { IsPlain meter.old second.now }
    requires columns { second.now.columns ≡ first.now.columns }
    requires live { ¬ IsNowhere first.now.columns (HoldsSystem first.now) }
    ensures exact { IfOk result (λ found. MatchOption found (AreUnjoinedSystems (IsKnown known.now) first.now second.now)
        (IsJointSystem meter.old (IsKnown known.now) first.now second.now)) }
    ensures meter { IsMetered meter.old meter.new result }
{
    let mut rows = parts(alloc, second, known, &first.rows, meter)?;
    let others = parts(alloc, first, known, &second.rows, meter)?;
    rows.append(alloc, &others)?;
    let Some(normal) = rows.normalise(alloc, meter)? else {
        return Ok(None);
    };
    let joint = System::from_rows(alloc, first.columns, normal);
    if !is_of_either(alloc, &joint, known, first, second, meter)? {
        return Ok(None);
    }
    Ok(Some(joint))
}

// The joint piece of the two. One unit is used where they lie in one space, and those of the questions that are asked.
fn joint_piece(
    alloc: Global,
    params: &Params,
    known: &Assumed,
    first: &Candidate,
    second: &Candidate,
    meter: &mut Meter,
) -> Result<Option<Piece>, Cut>
    requires names { AreDistinct params.now }
    requires known { IsKnownFor meter.old params.now known.now }
    requires first { IsPlainPiece meter.old params.now first.now }
    requires second { IsPlainPiece meter.old params.now second.now }
    ensures exact { IfOk result (λ found. MatchOption found
        (AreUnjoined (IsJointAt (Assumes known.now) params.now) (kept_piece first.now) (kept_piece second.now))
        (IsJointPiece meter.old (Assumes known.now) params.now first.now second.now)) }
    ensures meter { IsMetered meter.old meter.new result }
{
    if !first.space().same(second.space()) {
        return Ok(None);
    }
    meter.unit()?;
    if are_seen_apart(alloc, known, first, second, meter)? {
        return Ok(None);
    }
    match joint_system(alloc, known, first.system(), second.system(), meter)? {
        None => Ok(None),
        Some(joint) => Ok(Some(Piece::new(alloc, first.space().copy()?, joint)?)),
    }
}

/// Slots for pieces, of which some are empty, and the places of some of them.
#[derive(Clone, Copy)]
pub(crate) struct Peers<'a> {
    pub slots: &'a [Option<Candidate>],
    pub places: &'a [usize],
}

// The piece at a place.
fn piece_at<'a>(slots: &'a [Option<Candidate>], place: usize) -> Option<&'a Candidate>
    ensures { MatchOption result (pieces_at slots.now place ≡ [])
        (λ piece. (place < length slots.now) × (get_or slots.now place None ≡ Some piece.now)) }
{
    match slots.get(place) {
        Some(Some(piece)) => Some(piece),
        Some(None) | None => None,
    }
}

/// The joint piece of a piece and of the one at a place, and which of some places that is.
#[derive(Drop)]
pub(crate) struct Found {
    pub index: usize,
    pub place: usize,
    pub joint: Piece,
}

/// The joint piece of the piece and of the first at one of the places that has one with it.
pub(crate) fn first_joint(
    alloc: Global,
    params: &Params,
    known: &Assumed,
    peers: Peers<'_>,
    piece: &Candidate,
    meter: &mut Meter,
) -> Result<Option<Found>, Cut>
    requires names { AreDistinct params.now }
    requires known { IsKnownFor meter.old params.now known.now }
    requires peers { All (IsPlainPiece meter.old params.now) (present peers.slots.now) }
    requires piece { IsPlainPiece meter.old params.now piece.now }
    ensures exact { IfOk result (λ found. MatchOption found
        (All (AreApartAt (IsJointAt (Assumes known.now) params.now) peers.entry.slots.now piece.now) peers.entry.places.now)
        (λ f. (f.index < length peers.entry.places.now) × (f.place ≡ slice_index peers.entry.places.now f.index)
        × (f.place < length peers.entry.slots.now) × (other : PieceView) × (get_or peers.entry.slots.now f.place None ≡ Some other)
        × IsJointPiece meter.old (Assumes known.now) params.now other piece.now f.joint)) }
    ensures meter { IsMetered meter.old meter.new result }
{
    for index in 0..peers.places.len() {
        let place = peers.places[index];
        if let Some(other) = piece_at(peers.slots, place) {
            if let Some(joint) = joint_piece(alloc, params, known, other, piece, meter)? {
                return Ok(Some(Found {
                    index,
                    place,
                    joint,
                }));
            }
        }
    }
    Ok(None)
}
