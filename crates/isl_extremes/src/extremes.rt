//! The least and the greatest elements of sets, and images of maps.

ghost use Rattle.std.specs.Prelude.{◌≡◌, ◌↔◌, IfOk};
ghost use Rattle.isl_space.specs.Element.{Element};
ghost use Rattle.isl_space.specs.Valuation.{Valuation};
ghost use Rattle.isl_union.specs.KeptValue.{Has, HasNoDefinitions, IsKeptValue};
ghost use Rattle.isl_union.specs.Numbers.{IsWithinLimit};
ghost use Rattle.isl_relation.specs.Extremes.{FirstHas, HasFirstEverywhere};
ghost use Rattle.isl_relation.specs.Orders.{ComesAfter, ComesBefore};
ghost use Rattle.isl_extremes.specs.Fault.{IsLexAnswer};
ghost use Rattle.isl_extremes.specs.Pieces.{order_of};

use crate::LexFault;
use crate::pieces::first_pieces;
use isl_blocks::Direction;
use isl_meter::Meter;
use isl_union::Value;
use std::alloc::Global;

// The first elements of a value.
fn first(
    alloc: Global,
    a: &Value,
    direction: Direction,
    meter: &mut Meter,
) -> Result<Value, LexFault>
    requires { IsWithinLimit meter.old a.now }
    ensures kept { IfOk result IsKeptValue }
    ensures params { IfOk result (λ value. value.params ≡ a.now.params) }
    ensures elements { (valuation : Valuation) (element : Element)
        → IfOk result (λ value. Has value valuation element ↔ FirstHas (order_of direction) (Has a.now valuation) element) }
    ensures definitions { IfOk result HasNoDefinitions }
    ensures numbers { IfOk result (IsWithinLimit meter.old) }
    ensures meter { IsLexAnswer (HasFirstEverywhere (order_of direction) a.now) meter.old meter.new result }
{
    let flat = a.flat(alloc, meter)?;
    let params = flat.params().copy(alloc)?;
    let made = first_pieces(alloc, &params, flat.pieces(), direction, meter)?;
    Ok(Value::from_normal(params, made))
}

/// The least elements of a value, over the same parameters: of each space the element of a set that none of the space comes before,
/// and of a map each image y of an x that no image of x in the space comes before. (isl manual, on lexicographic optimisation)
///
/// # Errors
///
/// As every call under a meter; and `NoMinimum` exactly where at some valuation a set has elements in a space, and no least one, or a
/// map images of an x.
pub fn lexmin(alloc: Global, a: &Value, meter: &mut Meter) -> Result<Value, LexFault>
    requires { IsWithinLimit meter.old a.now }

    // The value, and what it has.
    ensures kept { IfOk result IsKeptValue }
    ensures params { IfOk result (λ value. value.params ≡ a.now.params) }
    ensures elements { (valuation : Valuation) (element : Element)
        → IfOk result (λ value. Has value valuation element ↔ FirstHas ComesBefore (Has a.now valuation) element) }

    // Where there is none, how it is written, and what that cost.
    ensures there { IsLexAnswer (HasFirstEverywhere ComesBefore a.now) meter.old meter.new result }
    ensures definitions { IfOk result HasNoDefinitions }
    ensures numbers { IfOk result (IsWithinLimit meter.old) }
{
    first(alloc, a, Direction::Before, meter)
}

/// The greatest elements of a value, over the same parameters: of each space the element of a set that none of the space comes behind,
/// and of a map each image y of an x that no image of x in the space comes behind. (isl manual, on lexicographic optimisation)
///
/// # Errors
///
/// As every call under a meter; and `NoMinimum` exactly where at some valuation a set has elements in a space, and no greatest one, or
/// a map images of an x.
pub fn lexmax(alloc: Global, a: &Value, meter: &mut Meter) -> Result<Value, LexFault>
    requires { IsWithinLimit meter.old a.now }

    // The value, and what it has.
    ensures kept { IfOk result IsKeptValue }
    ensures params { IfOk result (λ value. value.params ≡ a.now.params) }
    ensures elements { (valuation : Valuation) (element : Element)
        → IfOk result (λ value. Has value valuation element ↔ FirstHas ComesAfter (Has a.now valuation) element) }

    // Where there is none, how it is written, and what that cost.
    ensures there { IsLexAnswer (HasFirstEverywhere ComesAfter a.now) meter.old meter.new result }
    ensures definitions { IfOk result HasNoDefinitions }
    ensures numbers { IfOk result (IsWithinLimit meter.old) }
{
    first(alloc, a, Direction::After, meter)
}
