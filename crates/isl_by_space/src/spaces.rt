//! The spaces that pieces lie in.

ghost use Rattle.std.specs.Prelude.{◌≡◌, ◌↔◌, Any, IfOk, IsTrue, List, OnOk, map, ℕ};
ghost use Rattle.isl_space.specs.Space.{space_form_of};
ghost use Rattle.isl_space.specs.SpaceForm.{space_text_of};
ghost use Rattle.isl_by_space.specs.Spaces.{AreSpacesOf};
ghost use Rattle.isl_by_space.specs.Titles.{HasPlace, HavePlaces};

use indexmap::IndexMap;
use isl_piece::Piece;
use isl_space::{Name, Space};
use std::alloc::{AllocError, Global};

// Whether the space is one of the others.
fn is_among(spaces: &[Space], space: &Space) -> bool
    ensures { IsTrue result ↔ Any (λ other. space_form_of space.now ≡ space_form_of other) spaces.now }
{
    for other in spaces {
        if space.same(other) {
            return true;
        }
    }
    false
}

// Whether the space is the one at the place.
fn is_at(spaces: &[Space], place: usize, space: &Space) -> bool
    ensures { IsTrue result → Any (λ other. space_form_of space.now ≡ space_form_of other) spaces.now }
{
    match spaces.get(place) {
        Some(other) => space.same(other),
        None => false,
    }
}

// Whether the space, whose text is the title, is one of the others. A text has the place of one of those that have it: where the space is
// that one, no other is looked at.
fn is_known(spaces: &[Space], places: &IndexMap<Name, usize>, title: &Name, space: &Space) -> bool
    requires title { title.now ≡ space_text_of (space_form_of space.now) }
    requires placed { HavePlaces spaces.now places.now.entries }
    ensures { IsTrue result ↔ Any (λ other. space_form_of space.now ≡ space_form_of other) spaces.now }
{
    match places.get(title) {
        Some(place) => is_at(spaces, *place, space) || is_among(spaces, space),
        None => false,
    }
}

// Gives the title the place.
fn put(places: &mut IndexMap<Name, usize>, title: Name, place: usize) -> Result<(), AllocError>
    ensures own { OnOk result (HasPlace title places.new.entries) }
    ensures others { OnOk result ((other : List ℕ) → HasPlace other places.old.entries → HasPlace other places.new.entries) }
{
    places.insert(title, place)?;
    Ok(())
}

/// The spaces of the pieces, each once, in the order in which they come first.
///
/// # Errors
///
/// Where memory ends.
pub fn distinct_spaces(alloc: Global, pieces: &[Piece]) -> Result<Vec<Space>, AllocError>
    ensures { IfOk result (λ spaces. AreSpacesOf pieces.now (map space_form_of spaces.items)) }
{
    let mut spaces = Vec::new(alloc);
    let mut places = IndexMap::new(alloc);
    for piece in pieces {
        let space = piece.space();
        let text = space.text(alloc)?;
        let title = Name::new(alloc, text.as_str())?;
        if !is_known(spaces.as_slice(), &places, &title, space) {
            put(&mut places, title, spaces.len())?;
            spaces.push(space.copy()?)?;
        }
    }
    Ok(spaces)
}
