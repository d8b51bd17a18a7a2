//! Whether a space that is formed of those of two values is too wide.

ghost use Rattle.std.specs.Prelude.{◌≡◌, ◌↔◌, All, Any, IfOk, IsTrue};
ghost use Rattle.isl_space.specs.Space.{space_form_of};
ghost use Rattle.isl_space.specs.SpaceForm.{IsWellFormedSpace};
ghost use Rattle.isl_orders.specs.Comparison.{IsWide};
ghost use Rattle.isl_orders.specs.declared.order.Operands.TheVariants.{Sets, Maps};

use crate::order::Operands;
use isl_piece::Piece;
use isl_space::Space;
use std::alloc::AllocError;

// Whether two sets have one shape, and the space from that to itself is too wide.
fn is_wide_same(first: &Space, second: &Space) -> Result<bool, AllocError>
    requires first { IsWellFormedSpace (space_form_of first.now) }
    requires second { IsWellFormedSpace (space_form_of second.now) }
    ensures { IfOk result (λ wide. IsTrue wide ↔ IsWide Sets (space_form_of first.now) (space_form_of second.now)) }
{
    let (Space::Set(x), Space::Set(y)) = (first, second) else {
        return Ok(false);
    };
    if !x.same(y) {
        return Ok(false);
    }
    Ok(Space::map(x.clone()?, x.clone()?).is_err())
}

// Whether two maps are to one shape, and the space from the one's first shape to that of the other is too wide.
fn is_wide_access(first: &Space, second: &Space) -> Result<bool, AllocError>
    requires first { IsWellFormedSpace (space_form_of first.now) }
    requires second { IsWellFormedSpace (space_form_of second.now) }
    ensures { IfOk result (λ wide. IsTrue wide ↔ IsWide Maps (space_form_of first.now) (space_form_of second.now)) }
{
    let (Space::Map(x, z), Space::Map(y, other)) = (first, second) else {
        return Ok(false);
    };
    if !z.same(other) {
        return Ok(false);
    }
    Ok(Space::map(x.clone()?, y.clone()?).is_err())
}

// Whether the space that is formed of the two is too wide.
fn is_wide(operands: Operands, first: &Space, second: &Space) -> Result<bool, AllocError>
    requires first { IsWellFormedSpace (space_form_of first.now) }
    requires second { IsWellFormedSpace (space_form_of second.now) }
    ensures { IfOk result (λ wide. IsTrue wide ↔ IsWide operands (space_form_of first.now) (space_form_of second.now)) }
{
    match operands {
        Operands::Sets => is_wide_same(first, second),
        Operands::Maps => is_wide_access(first, second),
    }
}

// Whether a space that is formed of the piece's and of one of the others' is too wide.
fn has_wide(operands: Operands, piece: &Piece, others: &[Piece]) -> Result<bool, AllocError>
    requires piece { IsWellFormedSpace piece.now.space }
    requires others { All (λ other. IsWellFormedSpace other.space) others.now }
    ensures { IfOk result (λ wide. IsTrue wide ↔ Any (λ other. IsWide operands piece.now.space other.space) others.now) }
{
    for other in others {
        if is_wide(operands, piece.space(), other.space())? {
            return Ok(true);
        }
    }
    Ok(false)
}

/// Whether a space that is formed of one of the pieces' and of one of the others' is too wide.
///
/// # Errors
///
/// Where memory ends.
pub(crate) fn have_wide(
    operands: Operands,
    pieces: &[Piece],
    others: &[Piece],
) -> Result<bool, AllocError>
    requires pieces { All (λ piece. IsWellFormedSpace piece.space) pieces.now }
    requires others { All (λ other. IsWellFormedSpace other.space) others.now }
    ensures { IfOk result (λ wide. IsTrue wide
        ↔ Any (λ piece. Any (λ other. IsWide operands piece.space other.space) others.now) pieces.now) }
{
    for piece in pieces {
        if has_wide(operands, piece, others)? {
            return Ok(true);
        }
    }
    Ok(false)
}
