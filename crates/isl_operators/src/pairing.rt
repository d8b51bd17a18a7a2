//! What operators make of two sets, and of two maps.

ghost use Rattle.std.specs.Prelude.{◌≡◌, ◌↔◌, IfOk};
ghost use Rattle.isl_space.specs.Element.{Element};
ghost use Rattle.isl_space.specs.Names.{joined};
ghost use Rattle.isl_space.specs.Valuation.{Valuation};
ghost use Rattle.isl_relation.specs.Together.{IsFormedFrom};
ghost use Rattle.isl_relation.specs.Wide.{PairsTooWide};
ghost use Rattle.isl_union.specs.KeptValue.{Has, IsKeptValue};
ghost use Rattle.isl_union.specs.Numbers.{IsWithinLimit};
ghost use Rattle.isl_operators.specs.Formed.{PairsWide};
ghost use Rattle.isl_operators.specs.Pairing.{MapsForm, MapsHave, PairingForms, PairingHas, SetsForm, SetsHave};

use crate::spaces::{have_maps, have_sets};
use crate::wide::have_wide_sets;
use isl_lex::{
    greater_eq_maps, greater_eq_sets, greater_maps, greater_sets, less_eq_maps, less_eq_sets,
    less_maps, less_sets,
};
use isl_maps::{cross_maps, cross_sets};
use isl_meter::Meter;
use isl_union::{OpFault, Value};
use std::alloc::Global;

/// An operator that pairs the elements of two sets in one way, and those of two maps in another.
#[derive(Clone, Copy)]
pub(crate) enum Pairing {
    /// `cross`
    Cross,
    /// `<<`
    Less,
    /// `<<=`
    LessEqual,
    /// `>>`
    Greater,
    /// `>>=`
    GreaterEqual,
}

// What it makes of the sets of both.
fn of_sets(
    alloc: Global,
    pairing: Pairing,
    left: &Value,
    right: &Value,
    meter: &mut Meter,
) -> Result<Value, OpFault>
    requires left { IsWithinLimit meter.old left.now }
    requires right { IsWithinLimit meter.old right.now }
    ensures kept { IfOk result IsKeptValue }
    ensures params { IfOk result (λ value. value.params ≡ joined left.now.params right.now.params) }
    ensures elements { (valuation : Valuation) (element : Element)
        → IfOk result (λ value. Has value valuation element ↔ SetsHave pairing (Has left.now valuation) (Has right.now valuation) element) }
    ensures numbers { IfOk result (IsWithinLimit meter.old) }
    ensures units { IsFormedFrom (joined left.now.params right.now.params) (PairsTooWide (SetsForm pairing) left.now right.now) 0
        meter.old meter.new result }
{
    match pairing {
        Pairing::Cross => cross_sets(alloc, left, right, meter),
        Pairing::Less => less_sets(alloc, left, right, meter),
        Pairing::LessEqual => less_eq_sets(alloc, left, right, meter),
        Pairing::Greater => greater_sets(alloc, left, right, meter),
        Pairing::GreaterEqual => greater_eq_sets(alloc, left, right, meter),
    }
}

// What it makes of the maps of both.
fn of_maps(
    alloc: Global,
    pairing: Pairing,
    left: &Value,
    right: &Value,
    meter: &mut Meter,
) -> Result<Value, OpFault>
    requires left { IsWithinLimit meter.old left.now }
    requires right { IsWithinLimit meter.old right.now }
    ensures kept { IfOk result IsKeptValue }
    ensures params { IfOk result (λ value. value.params ≡ joined left.now.params right.now.params) }
    ensures elements { (valuation : Valuation) (element : Element)
        → IfOk result (λ value. Has value valuation element ↔ MapsHave pairing (Has left.now valuation) (Has right.now valuation) element) }
    ensures numbers { IfOk result (IsWithinLimit meter.old) }
    ensures units { IsFormedFrom (joined left.now.params right.now.params) (PairsTooWide (MapsForm pairing) left.now right.now) 0
        meter.old meter.new result }
{
    match pairing {
        Pairing::Cross => cross_maps(alloc, left, right, meter),
        Pairing::Less => less_maps(alloc, left, right, meter),
        Pairing::LessEqual => less_eq_maps(alloc, left, right, meter),
        Pairing::Greater => greater_maps(alloc, left, right, meter),
        Pairing::GreaterEqual => greater_eq_maps(alloc, left, right, meter),
    }
}

// What it makes of the sets of both, and of the maps of both. Where each has sets and maps, the spaces of the sets are asked before any
// work is done on the maps.
pub(crate) fn paired(
    alloc: Global,
    pairing: Pairing,
    left: &Value,
    right: &Value,
    meter: &mut Meter,
) -> Result<Value, OpFault>
    requires left { IsWithinLimit meter.old left.now }
    requires right { IsWithinLimit meter.old right.now }
    ensures kept { IfOk result IsKeptValue }
    ensures params { IfOk result (λ value. value.params ≡ joined left.now.params right.now.params) }
    ensures elements { (valuation : Valuation) (element : Element)
        → IfOk result (λ value. Has value valuation element
        ↔ PairingHas pairing (Has left.now valuation) (Has right.now valuation) element) }
    ensures numbers { IfOk result (IsWithinLimit meter.old) }
    ensures units { IsFormedFrom (joined left.now.params right.now.params) (PairsWide (PairingForms pairing) (Has left.now) (Has right.now))
        0 meter.old meter.new result }
{
    let pieces = left.pieces();
    let others = right.pieces();
    if !have_sets(left, right) {
        return of_maps(alloc, pairing, left, right, meter);
    }
    if !have_maps(left, right) {
        return of_sets(alloc, pairing, left, right, meter);
    }
    if have_wide_sets(pairing, pieces, others)? {
        return Err(OpFault::TooWide);
    }
    let maps = of_maps(alloc, pairing, left, right, meter)?;
    let sets = of_sets(alloc, pairing, left, right, meter)?;
    sets.union(alloc, &maps, meter)
}
