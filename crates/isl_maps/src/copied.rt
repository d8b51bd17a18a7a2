//! Maps to what an element has already: sets to themselves, and maps to their two places.

ghost use Rattle.std.specs.Prelude.{◌≡◌, ◌↔◌, ◌+◌, ◌<◌, ◌≤◌, ◌^◌, ℕ, IfOk, IfErr, IfSome, OnOk, option_map};
ghost use Rattle.isl_space.specs.Element.{Element};
ghost use Rattle.isl_space.specs.Space.{space_form_of};
ghost use Rattle.isl_space.specs.SpaceForm.{IsWellFormedSpace};
ghost use Rattle.isl_space.specs.Valuation.{Valuation};
ghost use Rattle.isl_piece.specs.System.{free_columns};
ghost use Rattle.isl_relation.specs.Formed.{FormsDomainMap, FormsIdentity, FormsRangeMap};
ghost use Rattle.isl_relation.specs.Sets.{IdentityHas};
ghost use Rattle.isl_relation.specs.Pairs.{DomainMapHas, RangeMapHas};
ghost use Rattle.isl_relation.specs.Wide.{FormsTooWide, IsFormedFault};
ghost use Rattle.isl_union.specs.KeptValue.{Has, HasNoDefinitions, IsKeptValue};
ghost use Rattle.isl_union.specs.Numbers.{HasNumbersUpTo, IsWithinLimit};
ghost use Rattle.isl_union.specs.Piece.{IsPieceOf};
ghost use Rattle.isl_maps.specs.Change.{formed_space, FormsWide, IsChangedSystem, IsSpaceFault};
ghost use Rattle.isl_maps.specs.Copied.{copied_system, equal_row, with_equal_rows};

use crate::change::Change;
use crate::places::own_places;
use isl_meter::{Int, Meter};
use isl_piece::{Coefs, Piece, Row, RowKind, System};
use isl_space::{Params, Shape, Space, SpaceFault};
use isl_union::{OpFault, Value};
use std::alloc::{AllocError, Global};

// The row that asks two of so many columns to be equal.
fn equal_row(alloc: Global, columns: usize, first: usize, second: usize) -> Result<Row, AllocError>
    requires first { first < columns }
    requires second { second < columns }
    ensures { IfOk result (λ row. row ≡ equal_row columns first second) }
{
    let mut coefs = Coefs::zeros(alloc, columns)?;
    coefs.set(first, Int::ONE);
    coefs.set(second, Int::new(-1));
    Ok(Row::new(RowKind::Zero, coefs, Int::ZERO, Int::ONE))
}

// Puts rows behind the others that ask each of so many columns to be equal to one before it.
fn push_equal_rows(
    alloc: Global,
    system: &mut System,
    first: usize,
    second: usize,
    count: usize,
) -> Result<(), AllocError>
    requires order { first ≤ second }
    requires within { second + count ≤ system.old.columns }
    ensures { OnOk result (system.new ≡ with_equal_rows first second count system.old) }
{
    let columns = system.columns;
    for offset in 0..count {
        let row = equal_row(alloc, columns, first + offset, second + offset)?;
        system.rows.push(row)?;
    }
    Ok(())
}

// The system with so many more columns behind its free ones, each equal to one of these, from the first on.
fn copied_system(
    alloc: Global,
    own: &System,
    first: usize,
    count: usize,
) -> Result<System, AllocError>
    requires inside { first + count ≤ free_columns own.now }
    requires short { free_columns own.now + count < 2 ^ 64 }
    ensures { IfOk result (λ system. system ≡ copied_system first count own.now) }
{
    let free = own.free();
    let places = own_places(alloc, free)?;
    let mut system = own.placed(alloc, free + count, places.as_slice())?;
    push_equal_rows(alloc, &mut system, first, free, count)?;
    Ok(system)
}

// The space of the identity on a set; none for that of a map.
pub(crate) fn identity_space(space: &Space) -> Result<Option<Space>, SpaceFault>
    requires { IsWellFormedSpace (space_form_of space.now) }
    ensures made { IfOk result (λ found. option_map space_form_of found ≡ formed_space Change.Identity (space_form_of space.now)) }
    ensures well_formed { IfOk result (λ found. IfSome found (λ formed. IsWellFormedSpace (space_form_of formed))) }
    ensures faults { IfErr result (IsSpaceFault (FormsWide Change.Identity (space_form_of space.now))) }
{
    match space {
        Space::Set(shape) => Ok(Some(Space::map(shape.clone()?, shape.clone()?)?)),
        Space::Map(_, _) => Ok(None),
    }
}

// The space of the map from the pairs of a map to what it maps from; none for that of a set.
pub(crate) fn domain_map_space(alloc: Global, space: &Space) -> Result<Option<Space>, SpaceFault>
    requires { IsWellFormedSpace (space_form_of space.now) }
    ensures made { IfOk result (λ found. option_map space_form_of found ≡ formed_space Change.DomainMap (space_form_of space.now)) }
    ensures well_formed { IfOk result (λ found. IfSome found (λ formed. IsWellFormedSpace (space_form_of formed))) }
    ensures faults { IfErr result (IsSpaceFault (FormsWide Change.DomainMap (space_form_of space.now))) }
{
    match space {
        Space::Set(_) => Ok(None),
        Space::Map(from, to) => {
            let pair = Shape::pair(alloc, from.clone()?, to.clone()?)?;
            Ok(Some(Space::map(pair, from.clone()?)?))
        }
    }
}

// The space of the map from the pairs of a map to what it maps to; none for that of a set.
pub(crate) fn range_map_space(alloc: Global, space: &Space) -> Result<Option<Space>, SpaceFault>
    requires { IsWellFormedSpace (space_form_of space.now) }
    ensures made { IfOk result (λ found. option_map space_form_of found ≡ formed_space Change.RangeMap (space_form_of space.now)) }
    ensures well_formed { IfOk result (λ found. IfSome found (λ formed. IsWellFormedSpace (space_form_of formed))) }
    ensures faults { IfErr result (IsSpaceFault (FormsWide Change.RangeMap (space_form_of space.now))) }
{
    match space {
        Space::Set(_) => Ok(None),
        Space::Map(from, to) => {
            let pair = Shape::pair(alloc, from.clone()?, to.clone()?)?;
            Ok(Some(Space::map(pair, to.clone()?)?))
        }
    }
}

// The system of a set, with its coordinates once more.
pub(crate) fn identity_system(
    alloc: Global,
    params: &Params,
    piece: &Piece,
) -> Result<System, AllocError>
    requires { IsPieceOf params.now piece.now }
    ensures { IfOk result (IsChangedSystem Change.Identity params.now piece.now) }
{
    let own = piece.system();
    match piece.space() {
        Space::Set(shape) => copied_system(alloc, own, params.len(), shape.width() as usize),
        Space::Map(_, _) => own.copy(alloc),
    }
}

// The system of a map, with the coordinates that it maps from once more.
pub(crate) fn domain_map_system(
    alloc: Global,
    params: &Params,
    piece: &Piece,
) -> Result<System, AllocError>
    requires { IsPieceOf params.now piece.now }
    ensures { IfOk result (IsChangedSystem Change.DomainMap params.now piece.now) }
{
    let own = piece.system();
    match piece.space() {
        Space::Set(_) => own.copy(alloc),
        Space::Map(from, _) => copied_system(alloc, own, params.len(), from.width() as usize),
    }
}

// The system of a map, with the coordinates that it maps to once more.
pub(crate) fn range_map_system(
    alloc: Global,
    params: &Params,
    piece: &Piece,
) -> Result<System, AllocError>
    requires { IsPieceOf params.now piece.now }
    ensures { IfOk result (IsChangedSystem Change.RangeMap params.now piece.now) }
{
    let own = piece.system();
    match piece.space() {
        Space::Set(_) => own.copy(alloc),
        Space::Map(from, to) => {
            let first = params.len() + from.width() as usize;
            copied_system(alloc, own, first, to.width() as usize)
        }
    }
}

/// x → x where the set has x. Pieces that are maps give nothing. No unit is used. (isl manual, on identity relations)
///
/// # Errors
///
/// `TooWide` where a space that it forms has too many coordinates or leaves, which is asked first; and `NoMemory`.
pub fn identity(alloc: Global, a: &Value, meter: &mut Meter) -> Result<Value, OpFault>
    requires { IsWithinLimit meter.old a.now }

    // The value, and what it has.
    ensures kept { IfOk result IsKeptValue }
    ensures params { IfOk result (λ value. value.params ≡ a.now.params) }
    ensures elements { (valuation : Valuation) (element : Element)
        → IfOk result (λ value. Has value valuation element ↔ IdentityHas (Has a.now valuation) element) }

    // How it is written.
    ensures definitions { HasNoDefinitions a.now → IfOk result HasNoDefinitions }
    ensures numbers { IfOk result (IsWithinLimit meter.old) }
    ensures magnitudes { (most : ℕ) → 1 ≤ most → HasNumbersUpTo most a.now → IfOk result (HasNumbersUpTo most) }

    // Why there is none; and the meter.
    ensures ok { IfOk result (λ _. ¬ FormsTooWide FormsIdentity a.now) }
    ensures faults { IfErr result (IsFormedFault (FormsTooWide FormsIdentity a.now) meter.old meter.new) }
    ensures meter { meter.new ≡ meter.old }
{
    Change::Identity.apply(alloc, a, meter)
}

/// `[x -> y]` → x where the map has x → y. Pieces that are sets give nothing. No unit is used. (iscc, `domain_map`)
///
/// # Errors
///
/// `TooWide` where a space that it forms has too many coordinates or leaves, which is asked first; and `NoMemory`.
pub fn domain_map(alloc: Global, a: &Value, meter: &mut Meter) -> Result<Value, OpFault>
    requires { IsWithinLimit meter.old a.now }

    // The value, and what it has.
    ensures kept { IfOk result IsKeptValue }
    ensures params { IfOk result (λ value. value.params ≡ a.now.params) }
    ensures elements { (valuation : Valuation) (element : Element)
        → IfOk result (λ value. Has value valuation element ↔ DomainMapHas (Has a.now valuation) element) }

    // How it is written.
    ensures definitions { HasNoDefinitions a.now → IfOk result HasNoDefinitions }
    ensures numbers { IfOk result (IsWithinLimit meter.old) }
    ensures magnitudes { (most : ℕ) → 1 ≤ most → HasNumbersUpTo most a.now → IfOk result (HasNumbersUpTo most) }

    // Why there is none; and the meter.
    ensures ok { IfOk result (λ _. ¬ FormsTooWide FormsDomainMap a.now) }
    ensures faults { IfErr result (IsFormedFault (FormsTooWide FormsDomainMap a.now) meter.old meter.new) }
    ensures meter { meter.new ≡ meter.old }
{
    Change::DomainMap.apply(alloc, a, meter)
}

/// `[x -> y]` → y where the map has x → y. Pieces that are sets give nothing. No unit is used. (iscc, `range_map`)
///
/// # Errors
///
/// `TooWide` where a space that it forms has too many coordinates or leaves, which is asked first; and `NoMemory`.
pub fn range_map(alloc: Global, a: &Value, meter: &mut Meter) -> Result<Value, OpFault>
    requires { IsWithinLimit meter.old a.now }

    // The value, and what it has.
    ensures kept { IfOk result IsKeptValue }
    ensures params { IfOk result (λ value. value.params ≡ a.now.params) }
    ensures elements { (valuation : Valuation) (element : Element)
        → IfOk result (λ value. Has value valuation element ↔ RangeMapHas (Has a.now valuation) element) }

    // How it is written.
    ensures definitions { HasNoDefinitions a.now → IfOk result HasNoDefinitions }
    ensures numbers { IfOk result (IsWithinLimit meter.old) }
    ensures magnitudes { (most : ℕ) → 1 ≤ most → HasNumbersUpTo most a.now → IfOk result (HasNumbersUpTo most) }

    // Why there is none; and the meter.
    ensures ok { IfOk result (λ _. ¬ FormsTooWide FormsRangeMap a.now) }
    ensures faults { IfErr result (IsFormedFault (FormsTooWide FormsRangeMap a.now) meter.old meter.new) }
    ensures meter { meter.new ≡ meter.old }
{
    Change::RangeMap.apply(alloc, a, meter)
}
