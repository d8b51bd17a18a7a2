//! Maps whose elements become pairs, and back.

ghost use Rattle.std.specs.Prelude.{◌≡◌, ◌↔◌, ℕ, IfOk, IfErr, IfSome, option_map};
ghost use Rattle.isl_meter.specs.declared.Cut.TheVariants.{NoMemory};
ghost use Rattle.isl_space.specs.Element.{Element};
ghost use Rattle.isl_space.specs.Space.{space_form_of};
ghost use Rattle.isl_space.specs.SpaceForm.{IsWellFormedSpace};
ghost use Rattle.isl_space.specs.Valuation.{Valuation};
ghost use Rattle.isl_relation.specs.Pairs.{WrapHas};
ghost use Rattle.isl_relation.specs.Sets.{UnwrapHas};
ghost use Rattle.isl_union.specs.KeptValue.{Has, HasNoDefinitions, IsKeptValue};
ghost use Rattle.isl_union.specs.Numbers.{HasNumbersUpTo, IsWithinLimit};
ghost use Rattle.isl_union.specs.declared.fault.OpFault.TheVariants as op_fault;
ghost use Rattle.isl_maps.specs.Change.{formed_space, FormsWide, IsSpaceFault};

use crate::change::Change;
use isl_meter::Meter;
use isl_space::{Shape, Space, SpaceFault};
use isl_union::{OpFault, Value};
use std::alloc::Global;

// The space of the pairs of a map's space; none for that of a set.
pub(crate) fn wrapped_space(alloc: Global, space: &Space) -> Result<Option<Space>, SpaceFault>
    requires { IsWellFormedSpace (space_form_of space.now) }
    ensures made { IfOk result (λ found. option_map space_form_of found ≡ formed_space Change.Wrap (space_form_of space.now)) }
    ensures well_formed { IfOk result (λ found. IfSome found (λ formed. IsWellFormedSpace (space_form_of formed))) }
    ensures faults { IfErr result (IsSpaceFault (FormsWide Change.Wrap (space_form_of space.now))) }
{
    match space {
        Space::Set(_) => Ok(None),
        Space::Map(from, to) => {
            let shape = Shape::pair(alloc, from.clone()?, to.clone()?)?;
            Ok(Some(Space::set(shape)?))
        }
    }
}

// The space of the map that a set of pairs is; none for other spaces.
pub(crate) fn unwrapped_space(space: &Space) -> Result<Option<Space>, SpaceFault>
    requires { IsWellFormedSpace (space_form_of space.now) }
    ensures made { IfOk result (λ found. option_map space_form_of found ≡ formed_space Change.Unwrap (space_form_of space.now)) }
    ensures well_formed { IfOk result (λ found. IfSome found (λ formed. IsWellFormedSpace (space_form_of formed))) }
    ensures faults { IfErr result (IsSpaceFault (FormsWide Change.Unwrap (space_form_of space.now))) }
{
    let Space::Set(shape) = space else {
        return Ok(None);
    };
    match shape.as_ref() {
        Shape::Leaf { .. } => Ok(None),
        Shape::Pair(from, to) => Ok(Some(Space::map(from.clone()?, to.clone()?)?)),
    }
}

/// The map's elements as pairs: `[x -> y]` where it has x → y. Pieces that are sets give nothing. The rows stay as they are, and no
/// unit is used. (isl manual, on wrapped relations)
///
/// # Errors
///
/// `NoMemory`, and nothing else.
pub fn wrap(alloc: Global, a: &Value, meter: &mut Meter) -> Result<Value, OpFault>
    requires { IsWithinLimit meter.old a.now }

    // The value, and what it has.
    ensures kept { IfOk result IsKeptValue }
    ensures params { IfOk result (λ value. value.params ≡ a.now.params) }
    ensures elements { (valuation : Valuation) (element : Element)
        → IfOk result (λ value. Has value valuation element ↔ WrapHas (Has a.now valuation) element) }

    // How it is written.
    ensures definitions { HasNoDefinitions a.now → IfOk result HasNoDefinitions }
    ensures numbers { IfOk result (IsWithinLimit meter.old) }
    ensures magnitudes { (most : ℕ) → HasNumbersUpTo most a.now → IfOk result (HasNumbersUpTo most) }

    // Why there is none; and the meter.
    ensures faults { IfErr result (λ fault. fault ≡ op_fault.Cut NoMemory) }
    ensures meter { meter.new ≡ meter.old }
{
    Change::Wrap.apply(alloc, a, meter)
}

/// The pairs of a set as a map: x → y where it has `[x -> y]`. Pieces that are maps, or whose form is no pair, give nothing. The
/// rows stay as they are, and no unit is used. (isl manual, on wrapped relations)
///
/// # Errors
///
/// `NoMemory`, and nothing else.
pub fn unwrap(alloc: Global, a: &Value, meter: &mut Meter) -> Result<Value, OpFault>
    requires { IsWithinLimit meter.old a.now }

    // The value, and what it has.
    ensures kept { IfOk result IsKeptValue }
    ensures params { IfOk result (λ value. value.params ≡ a.now.params) }
    ensures elements { (valuation : Valuation) (element : Element)
        → IfOk result (λ value. Has value valuation element ↔ UnwrapHas (Has a.now valuation) element) }

    // How it is written.
    ensures definitions { HasNoDefinitions a.now → IfOk result HasNoDefinitions }
    ensures numbers { IfOk result (IsWithinLimit meter.old) }
    ensures magnitudes { (most : ℕ) → HasNumbersUpTo most a.now → IfOk result (HasNumbersUpTo most) }

    // Why there is none; and the meter.
    ensures faults { IfErr result (λ fault. fault ≡ op_fault.Cut NoMemory) }
    ensures meter { meter.new ≡ meter.old }
{
    Change::Unwrap.apply(alloc, a, meter)
}
