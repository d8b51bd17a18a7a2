//! The shapes of what is visited, and of times.

ghost use Rattle.std.specs.Prelude.{◌≡◌, ◌↔◌, All, Any, IsTrue};
ghost use Rattle.isl_space.specs.Shape.{form_of};
ghost use Rattle.isl_space.specs.Space.{space_form_of};
ghost use Rattle.isl_schedule.specs.Schedule.{domain_form, time_form, IsPair};
ghost use Rattle.isl_schedule.specs.Shapes.{HaveOneShape};

use isl_piece::Piece;
use isl_space::{Shape, Space};
use std::rc::Rc;

/// The shape of what is visited.
pub(crate) fn domain_of(space: &Space) -> &Rc<Shape>
    ensures { form_of result.now.value ≡ domain_form (space_form_of space.now) }
{
    match space {
        Space::Set(shape) => shape,
        Space::Map(from, _to) => from,
    }
}

/// The shape of the times.
pub(crate) fn time_of(space: &Space) -> &Rc<Shape>
    ensures { form_of result.now.value ≡ time_form (space_form_of space.now) }
{
    match space {
        Space::Set(shape) => shape,
        Space::Map(_from, to) => to,
    }
}

fn is_pair(shape: &Shape) -> bool
    ensures { IsTrue result ↔ IsPair (form_of shape.now) }
{
    match shape {
        Shape::Leaf { .. } => false,
        Shape::Pair(..) => true,
    }
}

fn is_nested(space: &Space) -> bool
    ensures { IsTrue result ↔ IsPair (domain_form (space_form_of space.now)) }
{
    is_pair(domain_of(space))
}

/// Whether pairs are visited in some of the pieces.
pub(crate) fn have_nested(pieces: &[Piece]) -> bool
    ensures { IsTrue result ↔ Any (λ piece. IsPair (domain_form piece.space)) pieces.now }
{
    for piece in pieces {
        if is_nested(piece.space()) {
            return true;
        }
    }
    false
}

fn has_time(space: &Space, time: &Shape) -> bool
    ensures { IsTrue result ↔ (time_form (space_form_of space.now) ≡ form_of time.now) }
{
    time_of(space).same(time)
}

fn have_time(pieces: &[Piece], time: &Shape) -> bool
    ensures { IsTrue result ↔ All (λ piece. time_form piece.space ≡ form_of time.now) pieces.now }
{
    for piece in pieces {
        if !has_time(piece.space(), time) {
            return false;
        }
    }
    true
}

/// Whether the times of all pieces have one shape.
pub(crate) fn have_one_shape(pieces: &[Piece]) -> bool
    ensures { IsTrue result ↔ HaveOneShape pieces.now }
{
    if pieces.is_empty() {
        return true;
    }
    have_time(pieces, time_of(pieces[0].space()))
}
