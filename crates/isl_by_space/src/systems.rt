//! The systems of pieces.

ghost use Rattle.std.specs.Prelude.{◌≡◌, All, IfOk};
ghost use Rattle.isl_space.specs.Space.{space_form_of};
ghost use Rattle.isl_space.specs.SpaceForm.{IsWellFormedSpace};
ghost use Rattle.isl_union.specs.Minus.{systems_in};

use isl_index::PieceIndex;
use isl_piece::{Piece, System};
use isl_space::Space;
use std::alloc::{AllocError, Global};

/// Copies of the systems of those pieces that lie in the space, in order.
///
/// # Errors
///
/// Where memory ends.
pub fn systems_in(alloc: Global, space: &Space, pieces: &[Piece]) -> Result<Vec<System>, AllocError>
    ensures { IfOk result (λ systems. systems.items ≡ systems_in (space_form_of space.now) pieces.now) }
{
    let mut systems = Vec::new(alloc);
    for piece in pieces {
        if space.same(piece.space()) {
            systems.push(piece.system().copy(alloc)?)?;
        }
    }
    Ok(systems)
}

/// The pieces, found by their spaces. They share their systems with these.
///
/// # Errors
///
/// Where memory ends.
pub fn indexed(alloc: Global, pieces: &[Piece]) -> Result<PieceIndex, AllocError>
    requires { All (λ piece. IsWellFormedSpace piece.space) pieces.now }
    ensures { IfOk result (λ index. index ≡ pieces.now) }
{
    let mut copies = Vec::with_capacity(alloc, pieces.len())?;
    for piece in pieces {
        copies.push(piece.copy()?)?;
    }
    PieceIndex::new(alloc, copies)
}
