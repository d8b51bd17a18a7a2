//! Whether a space that is formed of those of two sets is too wide.

ghost use Rattle.std.specs.Prelude.{◌↔◌, All, Any, IfOk, IsTrue};
ghost use Rattle.isl_space.specs.Space.{space_form_of};
ghost use Rattle.isl_space.specs.SpaceForm.{IsWellFormedSpace};
ghost use Rattle.isl_operators.specs.Pairing.{IsWideOfSets};

use crate::pairing::Pairing;
use isl_piece::Piece;
use isl_space::Space;
use std::alloc::AllocError;

// Whether both are of sets, and a pair of their shapes, which is as wide as the map from the one to the other, is too wide.
fn is_wide_pair(first: &Space, second: &Space) -> Result<bool, AllocError>
    requires first { IsWellFormedSpace (space_form_of first.now) }
    requires second { IsWellFormedSpace (space_form_of second.now) }
    ensures { IfOk result (λ wide. IsTrue wide
        ↔ IsWideOfSets Pairing.Cross (space_form_of first.now) (space_form_of second.now)) }
{
    let (Space::Set(x), Space::Set(y)) = (first, second) else {
        return Ok(false);
    };
    Ok(Space::map(x.clone()?, y.clone()?).is_err())
}

// Whether both are of sets of one shape, and the space from that to itself is too wide.
fn is_wide_same(first: &Space, second: &Space) -> Result<bool, AllocError>
    requires first { IsWellFormedSpace (space_form_of first.now) }
    requires second { IsWellFormedSpace (space_form_of second.now) }
    ensures { IfOk result (λ wide. IsTrue wide
        ↔ IsWideOfSets Pairing.Less (space_form_of first.now) (space_form_of second.now)) }
{
    let (Space::Set(x), Space::Set(y)) = (first, second) else {
        return Ok(false);
    };
    if !x.same(y) {
        return Ok(false);
    }
    Ok(Space::map(x.clone()?, x.clone()?).is_err())
}

// Whether the space that is formed of two sets' is too wide.
fn is_wide(pairing: Pairing, first: &Space, second: &Space) -> Result<bool, AllocError>
    requires first { IsWellFormedSpace (space_form_of first.now) }
    requires second { IsWellFormedSpace (space_form_of second.now) }
    ensures { IfOk result (λ wide. IsTrue wide ↔ IsWideOfSets pairing (space_form_of first.now) (space_form_of second.now)) }
{
    match pairing {
        Pairing::Cross => is_wide_pair(first, second),
        Pairing::Less => is_wide_same(first, second),
        Pairing::LessEqual => is_wide_same(first, second),
        Pairing::Greater => is_wide_same(first, second),
        Pairing::GreaterEqual => is_wide_same(first, second),
    }
}

// Whether a space that is formed of the piece's and of one of the others' is too wide.
fn has_wide(pairing: Pairing, piece: &Piece, others: &[Piece]) -> Result<bool, AllocError>
    requires piece { IsWellFormedSpace piece.now.space }
    requires others { All (λ other. IsWellFormedSpace other.space) others.now }
    ensures { IfOk result (λ wide. IsTrue wide ↔ Any (λ other. IsWideOfSets pairing piece.now.space other.space) others.now) }
{
    for other in others {
        if is_wide(pairing, piece.space(), other.space())? {
            return Ok(true);
        }
    }
    Ok(false)
}

/// Whether a space that is formed of one of the pieces' and of one of the others', where both are of sets, is too wide.
///
/// # Errors
///
/// Where memory ends.
pub(crate) fn have_wide_sets(
    pairing: Pairing,
    pieces: &[Piece],
    others: &[Piece],
) -> Result<bool, AllocError>
    requires pieces { All (λ piece. IsWellFormedSpace piece.space) pieces.now }
    requires others { All (λ other. IsWellFormedSpace other.space) others.now }
    ensures { IfOk result (λ wide. IsTrue wide
        ↔ Any (λ piece. Any (λ other. IsWideOfSets pairing piece.space other.space) others.now) pieces.now) }
{
    for piece in pieces {
        if has_wide(pairing, piece, others)? {
            return Ok(true);
        }
    }
    Ok(false)
}
