//! Values.

ghost use Rattle.std.specs.Prelude.{◌≡◌, ◌↔◌, [], All, IfOk, IsTrue, MatchResult, map};
ghost use Rattle.isl_space.specs.Names.{IsParameterList};
ghost use Rattle.isl_union.specs.Compare.{IsEmpty};
ghost use Rattle.isl_union.specs.KeptValue.{IsKeptValue};
ghost use Rattle.isl_union.specs.Piece.{kept_piece, IsPieceOf};

use crate::OpFault;
use isl_meter::Meter;
use isl_piece::Piece;
use isl_space::Params;
use std::alloc::{AllocError, Global};
use std::marker::Model;

/// A union of pieces over declared parameters, each piece with normal rows.
///
/// Contracts see it as a `KeptValue`: by content, without the sharing of its names, shapes and systems.
#[derive(Drop)]
pub struct Value {
    params: Params,
    pieces: Vec<Piece>,
}

impl Model for Value {
    ghost use Rattle.std.specs.Prelude.{All, map};
    ghost use Rattle.isl_space.specs.Names.{IsParameterList};
    ghost use Rattle.isl_union.specs.KeptValue.{KeptValue};
    ghost use Rattle.isl_union.specs.Stored.{kept_value_code};

    ghost Value = { KeptValue };

    ghost coded = { kept_value_code };

    ghost use Rattle.isl_union.specs.Piece.{kept_piece, IsPieceOf};

    ghost view = { λ v. record { params = v.params; pieces = map kept_piece v.pieces.items } };

    ghost invariant = { λ v. IsParameterList v.params × All (IsPieceOf v.params) v.pieces.items };
}

impl Value {
    /// The value without pieces. It takes no memory: the allocator is kept by the list of pieces.
    #[tactic(auto, using(crate::proofs::PieceLaws::made))]
    pub fn empty(alloc: Global, params: Params) -> Value
        requires { IsParameterList params }
        ensures { result ≡ record { params = params; pieces = [] } }
    {
        Value {
            params,
            pieces: Vec::new(alloc),
        }
    }

    /// The value of these pieces, whose rows are normal, and of which each has an element at some valuation.
    pub fn from_normal(params: Params, pieces: Vec<Piece>) -> Value
        requires params { IsParameterList params }
        requires pieces { All (IsPieceOf params) pieces.items }
        ensures { result ≡ record { params = params; pieces = map kept_piece pieces.items } }
    {
        Value { params, pieces }
    }

    /// The declared parameters.
    pub fn params(&self) -> &Params
        ensures content { result.now ≡ self.now.params }
        ensures well_formed { IsParameterList result.now }
    {
        &self.params
    }

    /// The pieces, in order.
    #[tactic(auto, using(crate::proofs::PieceLaws::made))]
    pub fn pieces(&self) -> &[Piece]
        ensures content { map kept_piece result.now ≡ self.now.pieces }
        ensures well_formed { All (IsPieceOf self.now.params) result.now }
        ensures kept { IsKeptValue self.now }
    {
        self.pieces.as_slice()
    }

    /// The pieces, in order, of a value that is taken.
    #[tactic(auto, using(crate::proofs::PieceLaws::made))]
    pub(crate) fn into_pieces(self) -> Vec<Piece>
        ensures content { map kept_piece result.items ≡ self.pieces }
        ensures well_formed { All (IsPieceOf self.params) result.items }
    {
        self.pieces
    }

    /// Whether the value has no element at any valuation. Each piece has one, so this uses no unit, and has no fault.
    #[tactic(auto, using(crate::proofs::PieceLaws::made))]
    pub fn is_empty(&self, meter: &mut Meter) -> Result<bool, OpFault>
        ensures exact { MatchResult result (λ empty. IsTrue empty ↔ IsEmpty self.now) (λ _. ⊥) }
        ensures meter { meter.new ≡ meter.old }
    {
        Ok(self.pieces.is_empty())
    }

    /// The same value, with the same names, shapes and systems in memory.
    ///
    /// # Errors
    ///
    /// Where memory ends.
    #[tactic(auto, using(std::proofs::lemmas::Grind::common_steps, crate::proofs::PieceLaws::made))]
    pub fn copy(&self, alloc: Global) -> Result<Value, AllocError>
        ensures { IfOk result (λ value. value ≡ self.now) }
    {
        let mut pieces = Vec::with_capacity(alloc, self.pieces.len())?;
        for piece in self.pieces.as_slice() {
            pieces.push(piece.copy()?)?;
        }
        Ok(Value {
            params: self.params.copy(alloc)?,
            pieces,
        })
    }
}
