//! Whether a space that is formed of those of two values is too wide.

ghost use Rattle.std.specs.Prelude.{◌≡◌, All, Any, IfErr, IfOk, map};
ghost use Rattle.isl_space.specs.Space.{space_form_of};
ghost use Rattle.isl_space.specs.SpaceForm.{IsNamedSpace, IsTooWideSpace, IsWellFormedSpace};
ghost use Rattle.isl_space.specs.declared.fault.SpaceFault.TheVariants.{TooWide};
ghost use Rattle.isl_union.specs.Piece.{kept_piece};
ghost use Rattle.isl_products.specs.Layout.{IsWide};
ghost use Rattle.isl_products.specs.Made.{AreWide};

use crate::layout::{Product, layout_of};
use isl_piece::Piece;
use isl_space::{Space, SpaceFault};
use std::alloc::Global;

// Asks the widths of a space.
fn ask_width(space: Space) -> Result<Space, SpaceFault>
    requires { IsNamedSpace (space_form_of space) }
    ensures ok { IfOk result (λ asked. ¬ IsTooWideSpace (space_form_of space)) }
    ensures err { IfErr result (λ fault. (fault ≡ TooWide) × IsTooWideSpace (space_form_of space)) }
{
    match space {
        Space::Set(shape) => Space::set(shape),
        Space::Map(from, to) => Space::map(from, to),
    }
}

// Asks the space that the product forms of two.
fn ask_space(alloc: Global, product: Product, own: &Space, other: &Space) -> Result<(), SpaceFault>
    requires own { IsWellFormedSpace (space_form_of own.now) }
    requires other { IsWellFormedSpace (space_form_of other.now) }
    ensures ok { IfOk result (λ _. ¬ IsWide product (space_form_of own.now) (space_form_of other.now)) }
    ensures err { result ≡ Err TooWide → IsWide product (space_form_of own.now) (space_form_of other.now) }
{
    if let Some(layout) = layout_of(alloc, product, own, other)? {
        ask_width(layout.space)?;
    }
    Ok(())
}

// Asks the spaces that the product forms of this one and the others.
fn ask_spaces_with(
    alloc: Global,
    product: Product,
    own: &Space,
    others: &[Piece],
) -> Result<(), SpaceFault>
    requires own { IsWellFormedSpace (space_form_of own.now) }
    requires others { All (λ b. IsWellFormedSpace b.space) others.now }
    ensures ok { IfOk result (λ _. ¬ Any (λ b. IsWide product (space_form_of own.now) b.space) (map kept_piece others.now)) }
    ensures err { result ≡ Err TooWide → Any (λ b. IsWide product (space_form_of own.now) b.space) (map kept_piece others.now) }
{
    for other in others {
        ask_space(alloc, product, own, other.space())?;
    }
    Ok(())
}

/// Asks the spaces that the product forms of the pieces and the others.
///
/// # Errors
///
/// `TooWide` where one of them has more coordinates or leaves than a space may have, and `NoMemory`.
pub(crate) fn ask_spaces(
    alloc: Global,
    product: Product,
    pieces: &[Piece],
    others: &[Piece],
) -> Result<(), SpaceFault>
    requires pieces { All (λ a. IsWellFormedSpace a.space) pieces.now }
    requires others { All (λ b. IsWellFormedSpace b.space) others.now }
    ensures ok { IfOk result (λ _. ¬ AreWide product (map kept_piece pieces.now) (map kept_piece others.now)) }
    ensures err { result ≡ Err TooWide → AreWide product (map kept_piece pieces.now) (map kept_piece others.now) }
{
    // It stays in the space of the piece.
    if let Product::Restrict(_) = product {
        return Ok(());
    }
    for piece in pieces {
        ask_spaces_with(alloc, product, piece.space(), others)?;
    }
    Ok(())
}
