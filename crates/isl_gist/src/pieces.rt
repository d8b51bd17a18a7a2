//! What is left of pieces where others are known to hold.

ghost use Rattle.std.specs.Prelude.{◌≡◌, ◌∷◌, [], All, IfOk, map, option_to_list};
ghost use Rattle.isl_meter.specs.Gauge.{IsMetered};
ghost use Rattle.isl_space.specs.Names.{AreDistinct};
ghost use Rattle.isl_space.specs.Space.{space_form_of};
ghost use Rattle.isl_piece.specs.System.{IsSystemWithin};
ghost use Rattle.isl_union.specs.Minus.{systems_in};
ghost use Rattle.isl_union.specs.Numbers.{AreWithinLimit};
ghost use Rattle.isl_union.specs.Piece.{kept_piece, IsPieceOf};
ghost use Rattle.isl_gist.specs.Pieces.{AreLeftOver};
ghost use Rattle.isl_gist.specs.Meeting.{IsMeeting};
ghost use Rattle.isl_gist.specs.Thinned.{IsAmong, IsPlain};

use crate::needed::needed;
use isl_elim::is_empty;
use isl_meter::{Cut, Meter};
use isl_piece::{Piece, System, meet};
use isl_space::{Params, Space};
use isl_union::push_found;
use std::alloc::{AllocError, Global};

// The systems of those pieces that lie in the space.
fn contexts_in<'a>(
    alloc: Global,
    space: &Space,
    pieces: &'a [Piece],
) -> Result<Vec<&'a System>, AllocError>
    ensures { IfOk result (λ systems. map (λ system. system.now) systems.items ≡ systems_in (space_form_of space.now) pieces.now) }
{
    let mut systems = Vec::new(alloc);
    for piece in pieces {
        if space.same(piece.space()) {
            systems.push(piece.system())?;
        }
    }
    Ok(systems)
}

// Whether some point is one of both systems. One unit is used, and then those of that question.
#[tactic(auto, using(std::proofs::lemmas::Grind::common_steps, isl_meter::proofs::CutLemmas::charges))]
fn have_common(
    alloc: Global,
    system: &System,
    context: &System,
    meter: &mut Meter,
) -> Result<bool, Cut>
    requires system { IsPlain meter.old system.now.columns system.now }
    requires context { IsPlain meter.old system.now.columns context.now }
    ensures exact { IfOk result (IsMeeting (IsAmong system.now.columns (context.now ∷ [])) system.now.rows) }
    ensures meter { IsMetered meter.old meter.new result }
{
    meter.unit()?;
    let both = meet(alloc, system, context)?;
    let empty = is_empty(alloc, &both, meter)?;
    Ok(!empty)
}

// Whether some point of the system is one of some of the contexts. No context is asked for behind the first such one.
#[tactic(auto, using(std::proofs::lemmas::Grind::common_steps, isl_meter::proofs::CutLemmas::charges))]
fn meets(
    alloc: Global,
    system: &System,
    contexts: &[&System],
    meter: &mut Meter,
) -> Result<bool, Cut>
    requires system { IsPlain meter.old system.now.columns system.now }
    requires contexts { All (IsPlain meter.old system.now.columns) (map (λ context. context.now) contexts.now) }
    ensures exact { IfOk result
        (IsMeeting (IsAmong system.now.columns (map (λ context. context.now) contexts.now)) system.now.rows) }
    ensures meter { IsMetered meter.old meter.new result }
{
    for context in contexts {
        if have_common(alloc, system, context, meter)? {
            return Ok(true);
        }
    }
    Ok(false)
}

// What is left of the piece where the others are known to hold; none where they have no element of it.
#[tactic(auto, using(std::proofs::lemmas::Grind::common_steps, isl_meter::proofs::CutLemmas::charges))]
fn left_of(
    alloc: Global,
    params: &Params,
    piece: &Piece,
    others: &[Piece],
    meter: &mut Meter,
) -> Result<Option<Piece>, Cut>
    requires names { AreDistinct params.now }
    requires piece { IsPieceOf params.now piece.now }
    requires others { All (IsPieceOf params.now) others.now }
    requires piece_within { IsSystemWithin meter.old piece.now.system }
    requires others_within { AreWithinLimit meter.old others.now }
    requires plain { piece.now.system.definitions ≡ [] }
    requires others_plain { All (λ other. other.system.definitions ≡ []) others.now }
    ensures exact { IfOk result
        (λ found. AreLeftOver params.now (map kept_piece others.now) (kept_piece piece.now ∷ []) (option_to_list found)) }
    ensures meter { IsMetered meter.old meter.new result }
{
    let space = piece.space();
    let contexts = contexts_in(alloc, space, others)?;
    if !meets(alloc, piece.system(), contexts.as_slice(), meter)? {
        return Ok(None);
    }
    let left = needed(alloc, piece.system(), contexts.as_slice(), meter)?;
    let own = space.copy()?;
    let made = Piece::new(alloc, own, left)?;
    Ok(Some(made))
}

/// What is left of the pieces where the others are known to hold, in order.
///
/// # Errors
///
/// As every call under a meter.
#[tactic(auto, using(std::proofs::lemmas::Grind::common_steps, isl_meter::proofs::CutLemmas::charges))]
pub(crate) fn left_over(
    alloc: Global,
    params: &Params,
    pieces: &[Piece],
    others: &[Piece],
    meter: &mut Meter,
) -> Result<Vec<Piece>, Cut>
    requires names { AreDistinct params.now }
    requires pieces { All (IsPieceOf params.now) pieces.now }
    requires others { All (IsPieceOf params.now) others.now }
    requires pieces_within { AreWithinLimit meter.old pieces.now }
    requires others_within { AreWithinLimit meter.old others.now }
    requires plain { All (λ piece. piece.system.definitions ≡ []) pieces.now }
    requires others_plain { All (λ other. other.system.definitions ≡ []) others.now }
    ensures exact { IfOk result (λ left. AreLeftOver params.now (map kept_piece others.now) (map kept_piece pieces.now) left.items) }
    ensures meter { IsMetered meter.old meter.new result }
{
    let mut left = Vec::new(alloc);
    for piece in pieces {
        let found = left_of(alloc, params, piece, others, meter)?;
        push_found(&mut left, found)?;
    }
    Ok(left)
}
