//! Pieces of values: systems in a space.

ghost use Rattle.std.specs.Prelude.{◌≡◌, ◌<◌, [], ◌∷◌, ◌++◌, length, slice_set, IfOk, OnOk, OnErr};
ghost use Rattle.std.specs.List.{remove};
ghost use Rattle.isl_space.specs.Space.{space_form_of};
ghost use Rattle.isl_piece.specs.Piece.{with_rows};

use crate::{Row, System};
use isl_space::Space;
use std::alloc::{AllocError, Global};
use std::marker::Model;
use std::rc::Rc;

/// The elements of a space at which a system holds. The system's free columns are the parameters, in declared order, then the
/// coordinates, those of a map's domain first.
///
/// Copies share the system, until the rows of one of them change. Contracts see a piece as a `PieceView`: by content.
#[derive(Drop)]
pub struct Piece {
    space: Space,
    system: Rc<System>,
}

impl Model for Piece {
    ghost use Rattle.isl_space.specs.Space.{space_form_of};
    ghost use Rattle.isl_piece.specs.Piece.{PieceView};
    ghost use Rattle.isl_piece.specs.Stored.{piece_code};

    ghost Value = { PieceView };

    ghost coded = { piece_code };

    ghost view = { λ p. record { space = space_form_of p.space; system = p.system.value } };
}

impl Piece {
    /// # Errors
    ///
    /// `AllocError` where memory ends.
    pub fn new(alloc: Global, space: Space, system: System) -> Result<Self, AllocError>
        ensures { IfOk result (λ piece. piece ≡ record { space = space_form_of space; system = system }) }
    {
        let system = Rc::new(alloc, system)?;
        Ok(Piece { space, system })
    }

    pub fn space(&self) -> &Space
        ensures { space_form_of result.now ≡ self.now.space }
    {
        &self.space
    }

    pub fn system(&self) -> &System
        ensures { result.now ≡ self.now.system }
    {
        self.system.as_ref()
    }

    /// The same piece. It takes no memory: the space and the system are those of this one.
    ///
    /// # Errors
    ///
    /// `AllocError` where there are too many copies to be counted.
    pub fn copy(&self) -> Result<Self, AllocError>
        ensures { IfOk result (λ piece. piece ≡ self.now) }
    {
        Ok(Piece {
            space: self.space.copy()?,
            system: self.system.clone()?,
        })
    }

    /// Puts a row behind the others.
    ///
    /// # Errors
    ///
    /// `AllocError` where memory ends; the piece is as it was then.
    pub fn push_row(&mut self, row: Row) -> Result<(), AllocError>
        ensures ok { OnOk result (self.new ≡ with_rows self.old (self.old.system.rows ++ row ∷ [])) }
        ensures err { OnErr result (self.new ≡ self.old) }
    {
        Rc::make_mut(&mut self.system)?.rows.push(row)?;
        Ok(())
    }

    /// Puts the row in the place of the one at `at`.
    ///
    /// # Errors
    ///
    /// `AllocError` where memory ends; the piece is as it was then.
    pub fn replace_row(&mut self, at: usize, row: Row) -> Result<(), AllocError>
        requires { at < length self.old.system.rows }
        ensures ok { OnOk result (self.new ≡ with_rows self.old (slice_set self.old.system.rows at row)) }
        ensures err { OnErr result (self.new ≡ self.old) }
    {
        Rc::make_mut(&mut self.system)?.rows.replace(at, row);
        Ok(())
    }

    /// Takes the row at `at` out.
    ///
    /// # Errors
    ///
    /// `AllocError` where memory ends; the piece is as it was then.
    pub fn remove_row(&mut self, at: usize) -> Result<(), AllocError>
        requires { at < length self.old.system.rows }
        ensures ok { OnOk result (self.new ≡ with_rows self.old (remove self.old.system.rows at)) }
        ensures err { OnErr result (self.new ≡ self.old) }
    {
        Rc::make_mut(&mut self.system)?.rows.remove(at);
        Ok(())
    }
}
