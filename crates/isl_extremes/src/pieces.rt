//! The first elements of pieces.

ghost use Rattle.std.specs.Prelude.{◌≡◌, ◌↔◌, ◌+◌, ◌∷◌, [], IfOk};
ghost use Rattle.isl_space.specs.Element.{Element};
ghost use Rattle.isl_space.specs.Names.{IsParameterList};
ghost use Rattle.isl_space.specs.Valuation.{Valuation};
ghost use Rattle.isl_relation.specs.Extremes.{FirstHas, HasFirst};
ghost use Rattle.isl_space.specs.Space.{space_form_of};
ghost use Rattle.isl_space.specs.SpaceForm.{IsWellFormedSpace};
ghost use Rattle.isl_extremes.specs.Fault.{IsLexAnswer};
ghost use Rattle.isl_extremes.specs.Pieces.{elements_of_all, front_of, order_of, ordered_width, AreFirstIn, ArePlainPieces, ThereIsFirst};

use crate::LexFault;
use crate::systems::{Order, first_systems};
use isl_blocks::Direction;
use isl_by_space::{distinct_spaces, indexed, systems_in};
use isl_index::PieceIndex;
use isl_meter::Meter;
use isl_piece::Piece;
use isl_space::{Params, Space};
use isl_union::{append, pieces_in};
use std::alloc::Global;

// Which columns of the systems of a space are put in order.
fn order_in(params: &Params, space: &Space, direction: Direction) -> Order
    requires formed { IsWellFormedSpace (space_form_of space.now) }
    ensures front { result.front ≡ front_of params.now (space_form_of space.now) }
    ensures width { result.width ≡ ordered_width (space_form_of space.now) }
    ensures direction { result.direction ≡ direction }
{
    match space {
        Space::Set(shape) => Order {
            front: params.len(),
            width: shape.width() as usize,
            direction,
        },
        Space::Map(from, to) => Order {
            front: params.len() + from.width() as usize,
            width: to.width() as usize,
            direction,
        },
    }
}

// The pieces of the first elements of a space.
fn first_in(
    alloc: Global,
    params: &Params,
    space: &Space,
    pieces: &PieceIndex,
    direction: Direction,
    meter: &mut Meter,
) -> Result<Vec<Piece>, LexFault>
    requires formed { IsWellFormedSpace (space_form_of space.now) }
    requires names { IsParameterList params.now }
    requires pieces { ArePlainPieces meter.old params.now pieces.now }
    ensures first { IfOk result (λ made. AreFirstIn meter.old params.now direction (space_form_of space.now ∷ []) pieces.now made.items) }
    ensures meter { IsLexAnswer (ThereIsFirst params.now direction pieces.now (space_form_of space.now)) meter.old meter.new result }
{
    let order = order_in(params, space, direction);
    let found = pieces.in_space(alloc, space)?;
    let systems = systems_in(alloc, space, found)?;
    let left = first_systems(alloc, systems.as_slice(), order, meter)?;
    Ok(pieces_in(alloc, space, left)?)
}

/// The pieces of the first elements of pieces.
///
/// # Errors
///
/// As every call under a meter; and `NoMinimum` exactly where some first element is missing.
pub(crate) fn first_pieces(
    alloc: Global,
    params: &Params,
    pieces: &[Piece],
    direction: Direction,
    meter: &mut Meter,
) -> Result<Vec<Piece>, LexFault>
    requires names { IsParameterList params.now }
    requires pieces { ArePlainPieces meter.old params.now pieces.now }
    ensures made { IfOk result (λ made. ArePlainPieces meter.old params.now made.items) }
    ensures elements { (valuation : Valuation) (element : Element)
        → IfOk result (λ made. elements_of_all params.now made.items valuation element
        ↔ FirstHas (order_of direction) (elements_of_all params.now pieces.now valuation) element) }
    ensures meter { IsLexAnswer ((valuation : Valuation) → HasFirst (order_of direction) (elements_of_all params.now pieces.now valuation))
        meter.old meter.new result }
{
    let spaces = distinct_spaces(alloc, pieces)?;
    let index = indexed(alloc, pieces)?;
    let mut made = Vec::new(alloc);
    for space in spaces.as_slice() {
        let more = first_in(alloc, params, space, &index, direction, meter)?;
        append(&mut made, more)?;
    }
    Ok(made)
}
