//! Pieces that can be put together with one.

ghost use Rattle.std.specs.Prelude.{◌≡◌, IfOk, filter};
ghost use Rattle.isl_space.specs.Space.{space_form_of};
ghost use Rattle.isl_space.specs.SpaceForm.{IsWellFormedSpace};
ghost use Rattle.isl_products.specs.Layout.{may_join};

use crate::layout::{Product, shape_at};
use isl_index::ShapeIndex;
use isl_piece::Piece;
use isl_space::Space;
use std::alloc::{AllocError, Global};

/// Those of the others that the product can put together with a piece of the space, in order.
///
/// # Errors
///
/// Where memory ends.
pub(crate) fn near<'a>(
    alloc: Global,
    product: Product,
    space: &Space,
    others: &'a ShapeIndex,
) -> Result<&'a [Piece], AllocError>
    requires { IsWellFormedSpace (space_form_of space.now) }
    ensures { IfOk result (λ found. found.now ≡ filter (may_join product (space_form_of space.now)) others.now) }
{
    let Product::Restrict(place) = product else {
        return Ok(others.pieces());
    };
    let Space::Map(from, to) = space else {
        return Ok(&[]);
    };
    others.with_shape(alloc, shape_at(place, from, to))
}
