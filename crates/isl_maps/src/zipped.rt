//! Maps between pairs, with the middle two of their four parts exchanged.

ghost use Rattle.std.specs.Prelude.{◌≡◌, ◌↔◌, ◌+◌, ◌≤◌, ℕ, IfOk, IfErr, IfSome, option_map};
ghost use Rattle.isl_meter.specs.declared.Cut.TheVariants.{NoMemory};
ghost use Rattle.isl_space.specs.Element.{Element};
ghost use Rattle.isl_space.specs.Space.{space_form_of};
ghost use Rattle.isl_space.specs.SpaceForm.{IsWellFormedSpace};
ghost use Rattle.isl_space.specs.Valuation.{Valuation};
ghost use Rattle.isl_piece.specs.System.{free_columns};
ghost use Rattle.isl_relation.specs.Pairs.{ZipHas};
ghost use Rattle.isl_union.specs.KeptValue.{Has, HasNoDefinitions, IsKeptValue};
ghost use Rattle.isl_union.specs.Numbers.{HasNumbersUpTo, IsWithinLimit};
ghost use Rattle.isl_union.specs.declared.fault.OpFault.TheVariants as op_fault;
ghost use Rattle.isl_union.specs.Piece.{IsPieceOf};
ghost use Rattle.isl_maps.specs.Change.{formed_space, FormsWide, IsChangedSystem, IsSpaceFault};
ghost use Rattle.isl_maps.specs.Places.{exchanged_system};

use crate::change::Change;
use crate::places::exchanged_places;
use isl_elim::columns_between;
use isl_meter::Meter;
use isl_piece::{Piece, System};
use isl_space::{Params, Shape, Space, SpaceFault};
use isl_union::{OpFault, Value};
use std::alloc::{AllocError, Global};

// The space of a map from a pair to a pair, zipped; none for other spaces.
pub(crate) fn zipped_space(alloc: Global, space: &Space) -> Result<Option<Space>, SpaceFault>
    requires { IsWellFormedSpace (space_form_of space.now) }
    ensures made { IfOk result (λ found. option_map space_form_of found ≡ formed_space Change.Zip (space_form_of space.now)) }
    ensures well_formed { IfOk result (λ found. IfSome found (λ formed. IsWellFormedSpace (space_form_of formed))) }
    ensures faults { IfErr result (IsSpaceFault (FormsWide Change.Zip (space_form_of space.now))) }
{
    let Space::Map(from, to) = space else {
        return Ok(None);
    };
    match (from.as_ref(), to.as_ref()) {
        (Shape::Pair(x, y), Shape::Pair(u, w)) => {
            let from = Shape::pair(alloc, x.clone()?, u.clone()?)?;
            let to = Shape::pair(alloc, y.clone()?, w.clone()?)?;
            Ok(Some(Space::map(from, to)?))
        }
        _ => Ok(None),
    }
}

// The system with two runs of its free columns exchanged, which stand behind the first ones and before the last.
fn exchanged_system(
    alloc: Global,
    own: &System,
    before: usize,
    first: usize,
    second: usize,
) -> Result<System, AllocError>
    requires { before + (first + second) ≤ free_columns own.now }
    ensures { IfOk result (λ system. system ≡ exchanged_system before first second own.now) }
{
    let free = own.free();
    let exchanged = before + first + second;
    let mut places = exchanged_places(alloc, before, first, second)?;
    let mut behind = columns_between(alloc, exchanged, free)?;
    places.append(&mut behind)?;
    own.placed(alloc, free, places.as_slice())
}

// The system of a piece, zipped.
pub(crate) fn zipped_system(
    alloc: Global,
    params: &Params,
    piece: &Piece,
) -> Result<System, AllocError>
    requires { IsPieceOf params.now piece.now }
    ensures { IfOk result (IsChangedSystem Change.Zip params.now piece.now) }
{
    let own = piece.system();
    let Space::Map(from, to) = piece.space() else {
        return own.copy(alloc);
    };
    match (from.as_ref(), to.as_ref()) {
        (Shape::Pair(x, y), Shape::Pair(u, _)) => exchanged_system(
            alloc,
            own,
            params.len() + x.width() as usize,
            y.width() as usize,
            u.width() as usize,
        ),
        _ => own.copy(alloc),
    }
}

/// `[x -> u]` → `[y -> w]` where the map has `[x -> y]` → `[u -> w]`. Pieces that do not map a pair to a pair give nothing. The middle
/// coordinates of each row are exchanged, and the rows made normal. No unit is used. (isl manual, on nested relations)
///
/// # Errors
///
/// `NoMemory`, and nothing else.
pub fn zip(alloc: Global, a: &Value, meter: &mut Meter) -> Result<Value, OpFault>
    requires { IsWithinLimit meter.old a.now }

    // The value, and what it has.
    ensures kept { IfOk result IsKeptValue }
    ensures params { IfOk result (λ value. value.params ≡ a.now.params) }
    ensures elements { (valuation : Valuation) (element : Element)
        → IfOk result (λ value. Has value valuation element ↔ ZipHas (Has a.now valuation) element) }

    // How it is written.
    ensures definitions { HasNoDefinitions a.now → IfOk result HasNoDefinitions }
    ensures numbers { IfOk result (IsWithinLimit meter.old) }
    ensures magnitudes { (most : ℕ) → HasNumbersUpTo most a.now → IfOk result (HasNumbersUpTo most) }

    // Why there is none; and the meter.
    ensures faults { IfErr result (λ fault. fault ≡ op_fault.Cut NoMemory) }
    ensures meter { meter.new ≡ meter.old }
{
    Change::Zip.apply(alloc, a, meter)
}
