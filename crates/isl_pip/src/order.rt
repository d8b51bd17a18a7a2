//! The spaces of pieces, by their text.

ghost use Rattle.std.specs.Prelude.{◌≡◌, IfOk, map, string_bytes};
ghost use Rattle.isl_space.specs.Space.{space_form_of};
ghost use Rattle.isl_space.specs.SpaceForm.{space_text_of};
ghost use Rattle.isl_pip.specs.Least.{space_cmp};
ghost use Rattle.isl_pip.specs.Trees.{AreOrderedSpaces};

use isl_by_space::distinct_spaces;
use isl_piece::Piece;
use isl_space::Space;
use std::alloc::{AllocError, Global};
use std::cmp::Ordering;

/// A space, beside its text.
#[derive(Drop)]
pub(crate) struct Titled {
    title: String,
    pub(crate) space: Space,
    ghost is_title: { string_bytes title ≡ space_text_of (space_form_of space) },
}

fn compare_titled(a: &Titled, b: &Titled) -> Ordering
    ensures { result ≡ space_cmp (space_form_of a.now.space) (space_form_of b.now.space) }
{
    a.title.cmp(&b.title)
}

/// The spaces of the pieces, each once, ordered by their text.
///
/// # Errors
///
/// Where memory ends.
pub(crate) fn ordered_spaces(alloc: Global, pieces: &[Piece]) -> Result<Vec<Titled>, AllocError>
    ensures { IfOk result (λ ordered. AreOrderedSpaces pieces.now (map (λ t. space_form_of t.space) ordered.items)) }
{
    let spaces = distinct_spaces(alloc, pieces)?;
    let mut ordered = Vec::new(alloc);
    for space in spaces.as_slice() {
        let title = space.text(alloc)?;
        let own = space.copy()?;
        ordered.push(Titled { title, space: own })?;
    }
    ordered.sort_by(|a, b| compare_titled(a, b))?;
    Ok(ordered)
}
