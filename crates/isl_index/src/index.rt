//! Pieces found by the spaces that they lie in, or by the first shapes of these.

ghost use Rattle.std.specs.Prelude.{◌≡◌, All, IfOk, filter};
ghost use Rattle.isl_space.specs.Form.{IsWellFormed};
ghost use Rattle.isl_space.specs.Shape.{form_of};
ghost use Rattle.isl_space.specs.Space.{space_form_of};
ghost use Rattle.isl_space.specs.SpaceForm.{IsWellFormedSpace};
ghost use Rattle.isl_index.specs.Found.{lies_in, begins_with};

use crate::groups::{Group, by_shape, by_space};
use indexmap::IndexMap;
use isl_piece::Piece;
use isl_space::{Name, Shape, Space};
use std::alloc::{AllocError, Global};
use std::marker::Model;

/// Pieces, found by their spaces without a look at the others. Contracts see the list of the pieces.
#[derive(Drop)]
pub struct PieceIndex {
    pieces: Vec<Piece>,
    groups: IndexMap<Name, Group>,
}

impl Model for PieceIndex {
    ghost use Rattle.std.specs.Prelude.{◌≡◌, List, ℕ, All, filter};
    ghost use Rattle.isl_space.specs.SpaceForm.{IsWellFormedSpace};
    ghost use Rattle.isl_piece.specs.Piece.{PieceView};
    ghost use Rattle.isl_index.specs.Groups.{has_title, under};
    ghost use Rattle.isl_index.specs.Stored.{pieces_code};

    ghost Value = { List PieceView };

    ghost coded = { pieces_code };

    ghost view = { λ i. i.pieces.items };

    ghost invariant = { λ i. All (λ piece. IsWellFormedSpace piece.space) i.pieces.items
        × ((title : List ℕ) → under title i.groups.entries ≡ filter (has_title title) i.pieces.items) };
}

impl PieceIndex {
    /// The pieces, in order.
    ///
    /// # Errors
    ///
    /// Where memory ends.
    pub fn new(alloc: Global, pieces: Vec<Piece>) -> Result<PieceIndex, AllocError>
        requires { All (λ piece. IsWellFormedSpace piece.space) pieces.items }
        ensures { IfOk result (λ index. index ≡ pieces.items) }
    {
        let groups = by_space(alloc, pieces.as_slice())?;
        Ok(PieceIndex { pieces, groups })
    }

    /// All the pieces, in order.
    pub fn pieces(&self) -> &[Piece]
        ensures { result.now ≡ self.now }
    {
        self.pieces.as_slice()
    }

    /// Exactly those of the pieces that lie in the space, in order.
    ///
    /// # Errors
    ///
    /// Where memory ends.
    pub fn in_space(&self, alloc: Global, space: &Space) -> Result<&[Piece], AllocError>
        requires { IsWellFormedSpace (space_form_of space.now) }
        ensures { IfOk result (λ found. found.now ≡ filter (lies_in (space_form_of space.now)) self.now) }
    {
        let text = space.text(alloc)?;
        let title = Name::new(alloc, text.as_str())?;
        match self.groups.get(&title) {
            Some(group) => Ok(group.as_slice()),
            None => Ok(&[]),
        }
    }
}

/// Pieces, found by the first shapes of their spaces without a look at the others: of a set its shape, of a map the one that it maps
/// from. Contracts see the list of the pieces.
#[derive(Drop)]
pub struct ShapeIndex {
    pieces: Vec<Piece>,
    groups: IndexMap<Name, Group>,
}

impl Model for ShapeIndex {
    ghost use Rattle.std.specs.Prelude.{◌≡◌, List, ℕ, All, filter};
    ghost use Rattle.isl_space.specs.SpaceForm.{IsWellFormedSpace};
    ghost use Rattle.isl_piece.specs.Piece.{PieceView};
    ghost use Rattle.isl_index.specs.Groups.{begins_with_title, under};
    ghost use Rattle.isl_index.specs.Stored.{pieces_code};

    ghost Value = { List PieceView };

    ghost coded = { pieces_code };

    ghost view = { λ i. i.pieces.items };

    ghost invariant = { λ i. All (λ piece. IsWellFormedSpace piece.space) i.pieces.items
        × ((title : List ℕ) → under title i.groups.entries ≡ filter (begins_with_title title) i.pieces.items) };
}

impl ShapeIndex {
    /// The pieces, in order.
    ///
    /// # Errors
    ///
    /// Where memory ends.
    pub fn new(alloc: Global, pieces: Vec<Piece>) -> Result<ShapeIndex, AllocError>
        requires { All (λ piece. IsWellFormedSpace piece.space) pieces.items }
        ensures { IfOk result (λ index. index ≡ pieces.items) }
    {
        let groups = by_shape(alloc, pieces.as_slice())?;
        Ok(ShapeIndex { pieces, groups })
    }

    /// All the pieces, in order.
    pub fn pieces(&self) -> &[Piece]
        ensures { result.now ≡ self.now }
    {
        self.pieces.as_slice()
    }

    /// Exactly those of the pieces that are ones of sets of the shape, or of maps from it, in order.
    ///
    /// # Errors
    ///
    /// Where memory ends.
    pub fn with_shape(&self, alloc: Global, shape: &Shape) -> Result<&[Piece], AllocError>
        requires { IsWellFormed (form_of shape.now) }
        ensures { IfOk result (λ found. found.now ≡ filter (begins_with (form_of shape.now)) self.now) }
    {
        let text = shape.text(alloc)?;
        let title = Name::new(alloc, text.as_str())?;
        match self.groups.get(&title) {
            Some(group) => Ok(group.as_slice()),
            None => Ok(&[]),
        }
    }
}
