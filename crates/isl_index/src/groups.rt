//! Pieces in groups, each found by a title.

ghost use Rattle.std.specs.Prelude.{◌≡◌, List, ℕ, [], ◌∷◌, ◌++◌, if◌then◌else◌, filter, IfOk, OnOk};
ghost use Rattle.std.specs.Str.{bytes_eq};
ghost use Rattle.isl_space.specs.Shape.{form_of};
ghost use Rattle.isl_space.specs.Space.{space_form_of};
ghost use Rattle.isl_index.specs.Found.{first_form};
ghost use Rattle.isl_index.specs.Groups.{begins_with_title, has_title, under};

use indexmap::IndexMap;
use isl_piece::Piece;
use isl_space::{Name, Shape, Space};
use std::alloc::{AllocError, Global};
use std::marker::Model;

/// The pieces of one title, in the order in which they came.
#[derive(Drop)]
pub(crate) struct Group {
    pieces: Vec<Piece>,
}

impl Model for Group {
    ghost use Rattle.std.specs.Prelude.{List};
    ghost use Rattle.isl_piece.specs.Piece.{PieceView};
    ghost use Rattle.isl_index.specs.Stored.{pieces_code};

    ghost Value = { List PieceView };

    ghost coded = { pieces_code };

    ghost view = { λ g. g.pieces.items };
}

impl Group {
    fn new(alloc: Global) -> Group
        ensures { result ≡ [] }
    {
        Group {
            pieces: Vec::new(alloc),
        }
    }

    fn push(&mut self, piece: Piece) -> Result<(), AllocError>
        ensures { OnOk result (self.new ≡ self.old ++ piece ∷ []) }
    {
        self.pieces.push(piece)?;
        Ok(())
    }

    pub(crate) fn as_slice(&self) -> &[Piece]
        ensures { result.now ≡ self.now }
    {
        self.pieces.as_slice()
    }
}

// The shape of a set, and the one that a map maps from.
fn first_shape(space: &Space) -> &Shape
    ensures { form_of result.now ≡ first_form (space_form_of space.now) }
{
    match space {
        Space::Set(shape) => shape,
        Space::Map(from, _) => from,
    }
}

// Puts a piece behind those of its title.
fn put(
    alloc: Global,
    groups: &mut IndexMap<Name, Group>,
    title: Name,
    piece: Piece,
) -> Result<(), AllocError>
    ensures { OnOk result ((other : List ℕ) → under other groups.new.entries
        ≡ under other groups.old.entries ++ (if bytes_eq title other then piece ∷ [] else [])) }
{
    let mut group = match groups.swap_remove(&title) {
        Some(group) => group,
        None => Group::new(alloc),
    };
    group.push(piece)?;
    groups.insert(title, group)?;
    Ok(())
}

/// The pieces under the texts of their spaces.
///
/// # Errors
///
/// Where memory ends.
pub(crate) fn by_space(alloc: Global, pieces: &[Piece]) -> Result<IndexMap<Name, Group>, AllocError>
    ensures { IfOk result (λ groups. (title : List ℕ) → under title groups.entries ≡ filter (has_title title) pieces.now) }
{
    let mut groups = IndexMap::new(alloc);
    for piece in pieces {
        let text = piece.space().text(alloc)?;
        let title = Name::new(alloc, text.as_str())?;
        put(alloc, &mut groups, title, piece.copy()?)?;
    }
    Ok(groups)
}

/// The pieces under the texts of the first shapes of their spaces.
///
/// # Errors
///
/// Where memory ends.
pub(crate) fn by_shape(alloc: Global, pieces: &[Piece]) -> Result<IndexMap<Name, Group>, AllocError>
    ensures { IfOk result (λ groups. (title : List ℕ) → under title groups.entries ≡ filter (begins_with_title title) pieces.now) }
{
    let mut groups = IndexMap::new(alloc);
    for piece in pieces {
        let text = first_shape(piece.space()).text(alloc)?;
        let title = Name::new(alloc, text.as_str())?;
        put(alloc, &mut groups, title, piece.copy()?)?;
    }
    Ok(groups)
}
