//! The orders of all elements of one shape.

ghost use Rattle.std.specs.Prelude.{◌≡◌, ◌↔◌, ◌<◌, ◌^◌, [], IfErr, IfOk};
ghost use Rattle.isl_space.specs.Element.{Element};
ghost use Rattle.isl_space.specs.Form.{width_of, IsNamed};
ghost use Rattle.isl_space.specs.Shape.{form_of};
ghost use Rattle.isl_space.specs.Space.{space_form_of};
ghost use Rattle.isl_space.specs.SpaceForm.{IsTooWideSpace, IsWellFormedSpace, map_of};
ghost use Rattle.isl_space.specs.Valuation.{Valuation};
ghost use Rattle.isl_relation.specs.Orders.{ComesBefore, IsUpTo};
ghost use Rattle.isl_relation.specs.Wide.{IsFormedFault};
ghost use Rattle.isl_union.specs.KeptValue.{Has, HasNoDefinitions, IsKeptValue};
ghost use Rattle.isl_union.specs.Numbers.{IsWithinLimit};
ghost use Rattle.isl_orders.specs.Comparison.{IsOrdered};
ghost use Rattle.isl_orders.specs.Whole.{AreOrderPieces, IsSpaceFault, OrderHas};

use crate::cases::cases_of;
use crate::order::Order;
use isl_meter::Meter;
use isl_piece::Piece;
use isl_space::{Params, Shape, Space, SpaceFault};
use isl_union::{OpFault, Value, pieces_in};
use std::alloc::{AllocError, Global};
use std::rc::Rc;

// The space from the shape to itself.
fn own_space(shape: &Rc<Shape>) -> Result<Space, SpaceFault>
    requires { IsNamed (form_of shape.now.value) }
    ensures made { IfOk result (λ space. space_form_of space ≡ map_of (form_of shape.now.value) (form_of shape.now.value)) }
    ensures well_formed { IfOk result (λ space. IsWellFormedSpace (space_form_of space)) }
    ensures faults { IfErr result (IsSpaceFault (IsTooWideSpace (map_of (form_of shape.now.value) (form_of shape.now.value)))) }
{
    Space::map(shape.clone()?, shape.clone()?)
}

// The pieces of that space, one for each of the cases of the order.
fn order_pieces(
    alloc: Global,
    order: Order,
    shape: &Rc<Shape>,
    space: &Space,
) -> Result<Vec<Piece>, AllocError>
    requires space { space_form_of space.now ≡ map_of (form_of shape.now.value) (form_of shape.now.value) }
    requires narrow { width_of (form_of shape.now.value) < 2 ^ 32 }
    ensures { IfOk result (λ pieces. AreOrderPieces order (form_of shape.now.value) pieces.items) }
{
    let width = shape.width() as usize;
    let cases = cases_of(alloc, &[width, width], 0, 1, order)?;
    pieces_in(alloc, space, cases)
}

// From each element of the shape to those of it to which it is so ordered.
fn order_of(
    alloc: Global,
    order: Order,
    shape: &Rc<Shape>,
    meter: &mut Meter,
) -> Result<Value, OpFault>
    requires { IsNamed (form_of shape.now.value) }

    // The value, and what it has.
    ensures kept { IfOk result IsKeptValue }
    ensures params { IfOk result (λ value. value.params ≡ []) }
    ensures elements { (valuation : Valuation) (element : Element)
        → IfOk result (λ value. Has value valuation element ↔ OrderHas (IsOrdered order) (form_of shape.now.value) element) }

    // How it is written.
    ensures definitions { IfOk result HasNoDefinitions }
    ensures numbers { IfOk result (IsWithinLimit meter.old) }

    // Why there is none; and the meter.
    ensures ok { IfOk result (λ _. ¬ IsTooWideSpace (map_of (form_of shape.now.value) (form_of shape.now.value))) }
    ensures faults { IfErr result
        (IsFormedFault (IsTooWideSpace (map_of (form_of shape.now.value) (form_of shape.now.value))) meter.old meter.new) }
    ensures meter { meter.new ≡ meter.old }
{
    // For what a meter keeps: it has at least 8 bits.
    let _limit = meter.limit();
    let space = own_space(shape)?;
    let pieces = order_pieces(alloc, order, shape, &space)?;
    let params = Params::new(alloc, Vec::new(alloc))?;
    Ok(Value::from_live(alloc, params, pieces, meter)?)
}

/// From each element of the shape to those of it that it is less than, with no parameters. No unit is used. (isl manual, lexicographic
/// order)
///
/// # Errors
///
/// `TooWide` exactly where the space from the shape to itself has too many coordinates or leaves; and `NoMemory`.
pub fn order_lt(alloc: Global, shape: &Rc<Shape>, meter: &mut Meter) -> Result<Value, OpFault>
    requires { IsNamed (form_of shape.now.value) }

    // The value, and what it has.
    ensures kept { IfOk result IsKeptValue }
    ensures params { IfOk result (λ value. value.params ≡ []) }
    ensures elements { (valuation : Valuation) (element : Element)
        → IfOk result (λ value. Has value valuation element ↔ OrderHas ComesBefore (form_of shape.now.value) element) }

    // How it is written.
    ensures definitions { IfOk result HasNoDefinitions }
    ensures numbers { IfOk result (IsWithinLimit meter.old) }

    // Why there is none; and the meter.
    ensures ok { IfOk result (λ _. ¬ IsTooWideSpace (map_of (form_of shape.now.value) (form_of shape.now.value))) }
    ensures faults { IfErr result
        (IsFormedFault (IsTooWideSpace (map_of (form_of shape.now.value) (form_of shape.now.value))) meter.old meter.new) }
    ensures meter { meter.new ≡ meter.old }
{
    order_of(alloc, Order::Less, shape, meter)
}

/// From each element of the shape to those of it that it is not greater than, with no parameters. No unit is used. (isl manual,
/// lexicographic order)
///
/// # Errors
///
/// `TooWide` exactly where the space from the shape to itself has too many coordinates or leaves; and `NoMemory`.
pub fn order_le(alloc: Global, shape: &Rc<Shape>, meter: &mut Meter) -> Result<Value, OpFault>
    requires { IsNamed (form_of shape.now.value) }

    // The value, and what it has.
    ensures kept { IfOk result IsKeptValue }
    ensures params { IfOk result (λ value. value.params ≡ []) }
    ensures elements { (valuation : Valuation) (element : Element)
        → IfOk result (λ value. Has value valuation element ↔ OrderHas IsUpTo (form_of shape.now.value) element) }

    // How it is written.
    ensures definitions { IfOk result HasNoDefinitions }
    ensures numbers { IfOk result (IsWithinLimit meter.old) }

    // Why there is none; and the meter.
    ensures ok { IfOk result (λ _. ¬ IsTooWideSpace (map_of (form_of shape.now.value) (form_of shape.now.value))) }
    ensures faults { IfErr result
        (IsFormedFault (IsTooWideSpace (map_of (form_of shape.now.value) (form_of shape.now.value))) meter.old meter.new) }
    ensures meter { meter.new ≡ meter.old }
{
    order_of(alloc, Order::UpTo, shape, meter)
}
