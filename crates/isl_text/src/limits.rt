//! The limits of literals.

ghost use Rattle.std.specs.Prelude.{◌≡◌, ◌+◌, length};
ghost use Rattle.isl_tree.specs.Literal.{entries_of};
ghost use Rattle.isl_text.specs.Bound.{capped};
ghost use Rattle.isl_text.specs.Limits as spec;

use crate::bound::{added, bound_in};
use isl_space::limits::{MAX_BOUND, MAX_COORDINATES, MAX_LEAVES, MAX_PARAMETERS};
use isl_tree::tree::{Literal, PieceTree, Tuple};

/// The coordinates of a tuple, counted as bound variables are.
#[tactic(auto, using(crate::proofs::LimitLaws::widths))]
fn width(tuple: &Tuple) -> usize
    ensures { result ≡ capped (length (entries_of tuple.now)) }
{
    match tuple {
        Tuple::Leaf { entries, .. } => added(entries.len(), 0),
        Tuple::Pair(first, second) => added(width(first.get()), width(second.get())),
    }
}

/// The leaves of a tuple, counted as bound variables are.
#[tactic(auto, using(crate::proofs::LimitLaws::leaves))]
fn leaves(tuple: &Tuple) -> usize
    ensures { result ≡ capped (spec.leaves_in tuple.now) }
{
    match tuple {
        Tuple::Leaf { .. } => 1,
        Tuple::Pair(first, second) => added(leaves(first.get()), leaves(second.get())),
    }
}

#[tactic(auto, using(crate::proofs::LimitLaws::pieces))]
fn coordinates(piece: &PieceTree) -> usize
    ensures { result ≡ capped (spec.coordinates piece.now) }
{
    match &piece.second {
        Some(second) => added(width(&piece.first), width(second)),
        None => width(&piece.first),
    }
}

#[tactic(auto, using(crate::proofs::LimitLaws::pieces))]
fn leaves_of(piece: &PieceTree) -> usize
    ensures { result ≡ capped (spec.leaves_of piece.now) }
{
    match &piece.second {
        Some(second) => added(leaves(&piece.first), leaves(second)),
        None => leaves(&piece.first),
    }
}

#[tactic(auto, using(crate::proofs::LimitLaws::tests))]
fn piece_is_within(piece: &PieceTree) -> bool
    ensures { result ≡ spec.piece_is_within piece.now }
{
    coordinates(piece) <= MAX_COORDINATES as usize
        && leaves_of(piece) <= MAX_LEAVES as usize
        && bound_in(piece) <= MAX_BOUND
}

fn pieces_are_within(pieces: &[PieceTree]) -> bool
    ensures { result ≡ spec.pieces_are_within pieces.now }
{
    pieces.iter().all(|piece| piece_is_within(piece))
}

/// Whether a literal has at most 16 parameters, and each piece at most 64 coordinates, 64 leaves and 64 bound variables.
pub fn is_within(literal: &Literal) -> bool
    ensures { result ≡ spec.is_within literal.now }
{
    literal.params.len() <= MAX_PARAMETERS && pieces_are_within(literal.pieces.as_slice())
}
