//! Nests of loops from items.

ghost use Rattle.std.specs.Prelude.{◌≡◌, ◌+◌, ◌≤◌, ℕ, IfOk, IfSome, MatchOption, length};
ghost use Rattle.isl_meter.specs.Gauge.{IsMetered};
ghost use Rattle.isl_space.specs.Name.{IsLiteralName};
ghost use Rattle.isl_loop.specs.Formed.{IsLoopOver};
ghost use Rattle.isl_loop.specs.Printable.{IsPrintable};
ghost use Rattle.isl_nest.specs.Changing.{AsksWhatChanges};
ghost use Rattle.isl_nest.specs.Covered.{view_of, IsCovered};
ghost use Rattle.isl_nest.specs.Nest.{IsCallAt, IsNest, IsNestOver, IsNowhere, ListsBehind};
ghost use Rattle.isl_nest.specs.Places.{IsPlace};
ghost use Rattle.isl_nest.specs.Separate.{IsSeparate};

use crate::around::Around;
use crate::asked::asked;
use crate::equality::told_by;
use crate::guards::under;
use crate::naming::naming;
use crate::sides::joined;
use crate::told::Told;
use crate::{Item, Nested, Place};
use isl_bounds::{Side, divided};
use isl_frame::{all_through, needed};
use isl_loop::Loop;
use isl_meter::{Cut, Meter};
use isl_space::Name;
use sqlite_items::Items;
use std::alloc::{AllocError, Global};

// The name of what the item calls.
fn name_of(item: &Item) -> Result<Option<Name>, AllocError>
    ensures { IfOk result (λ name. name ≡ item.now.name) }
{
    match &item.name {
        Some(name) => Ok(Some(name.copy()?)),
        None => Ok(None),
    }
}

// The call behind the last column.
fn call(alloc: Global, item: &Item, place: &Place, meter: &Meter) -> Result<Loop, AllocError>
    requires item { IsCovered meter.now item.now }
    requires place { IsPlace meter.now place.now }
    requires whole { length place.now.frame ≡ item.now.params + item.now.levels }
    ensures call { IfOk result (IsCallAt (view_of item.now) place.now) }
    ensures over { IfOk result (IsLoopOver meter.now place.now.variables) }
    ensures changing { (n : ℕ) → IfOk result (AsksWhatChanges n) }
    ensures printable { IfSome item.now.name IsLiteralName → (n : ℕ) → IfOk result (IsPrintable n) }
{
    // For what a meter keeps: it has at least 8 bits.
    let _limit = meter.limit();
    let mut arguments = Items::new(alloc);
    for i in 0..item.arguments.len() {
        let at = item.arguments[i];
        arguments.push(divided(alloc, &place.frame.as_slice()[at], Side::High)?)?;
    }
    Ok(Loop::Call(name_of(item)?, arguments))
}

/// The nest of the item behind the columns of the place, where so many are left: a tree under rows, which lists the item's calls in the order
/// of their times wherever the place holds; `None` where none are there. No loop asks at each turn what does not change.
///
/// # Errors
///
/// As every call under a meter.
pub fn nest(
    alloc: Global,
    item: &Item,
    left: usize,
    place: &Place,
    meter: &mut Meter,
) -> Result<Option<Nested>, Cut>
    requires item { IsCovered meter.old item.now }
    requires place { IsPlace meter.old place.now }
    requires whole { length place.now.frame + left ≡ item.now.params + item.now.levels }
    requires low { item.now.params ≤ length place.now.frame }
    ensures nest { IfOk result (λ nested. MatchOption nested (IsNowhere (view_of item.now) place.now)
        (IsNest (view_of item.now) left place.now)) }
    ensures over { IfOk result (λ nested. IfSome nested (IsNestOver meter.old place.now.variables)) }
    ensures changing { IfOk result (λ nested. IfSome nested (λ n. AsksWhatChanges place.now.variables n.tree)) }
    ensures printable { IfSome item.now.name IsLiteralName
        → IfOk result (λ nested. IfSome nested (λ n. IsPrintable place.now.variables n.tree)) }
    ensures meter { IsMetered meter.old meter.new result }
{
    if left == 0 {
        return Ok(Some(Nested::of_call(alloc, call(alloc, item, place, meter)?)));
    }
    // For what a meter keeps: it has at least 8 bits.
    let _limit = meter.limit();
    let columns = place.frame.len();
    let own = naming(alloc, &item.rows, columns + 1, columns + 1)?;
    let systems = item.covers[columns + 1 - item.params].as_slice();
    if let Some(equality) = told_by(alloc, item, place, &own, systems, meter)? {
        let Some(told) = Told::of(alloc, place, &equality, &own, meter)? else {
            return Ok(None);
        };
        let inner = place.with_entry(alloc, &told.entry, &told.rows)?;
        let Some(nested) = nest(alloc, item, left - 1, &inner, meter)? else {
            return Ok(None);
        };
        return Ok(Some(nested.behind(alloc, &told.rows)?));
    }
    let Some(around) = Around::of(alloc, place, &own, systems, meter)? else {
        return Ok(None);
    };
    let inner = place.with_loop(alloc, &joined(alloc, &around.inside, &around.guards)?)?;
    let Some(body) = nest(alloc, item, left - 1, &inner, meter)? else {
        return Ok(None);
    };
    Ok(Some(Nested::of_loop(alloc, place.variables, around, body)?))
}

/// The loops of the item alone behind the columns of the place, where so many are left: a tree that lists the item's calls in the order of
/// their times wherever the place stands. No loop asks at each turn what does not change.
///
/// # Errors
///
/// As every call under a meter.
pub fn separate(
    alloc: Global,
    item: &Item,
    left: usize,
    place: &Place,
    meter: &mut Meter,
) -> Result<Loop, Cut>
    requires item { IsCovered meter.old item.now }
    requires place { IsPlace meter.old place.now }
    requires whole { length place.now.frame + left ≡ item.now.params + item.now.levels }
    requires low { item.now.params ≤ length place.now.frame }
    ensures lists { IfOk result (ListsBehind (view_of item.now) place.now) }
    ensures separate { IfOk result (IsSeparate (view_of item.now) left place.now) }
    ensures over { IfOk result (IsLoopOver meter.old place.now.variables) }
    ensures changing { IfOk result (AsksWhatChanges place.now.variables) }
    ensures printable { IfSome item.now.name IsLiteralName → IfOk result (IsPrintable place.now.variables) }
    ensures meter { IsMetered meter.old meter.new result }
{
    let variables = place.variables;
    let front = naming(alloc, &item.rows, 0, place.frame.len())?;
    let through = all_through(alloc, &front, place.frame.as_slice(), variables, meter)?;
    let Some(normal) = through.normalise(alloc, meter)? else {
        return Ok(Loop::Block(Items::new(alloc)));
    };
    let rows = needed(alloc, &place.context, normal, 0, variables, meter)?;
    let inner = place.with_context(alloc, &rows)?;
    let Some(nested) = nest(alloc, item, left, &inner, meter)? else {
        return Ok(Loop::Block(Items::new(alloc)));
    };
    let guards = asked(alloc, place, left, &rows, &nested, meter)?;
    Ok(under(alloc, guards, nested.tree)?)
}
