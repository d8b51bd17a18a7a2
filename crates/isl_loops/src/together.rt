//! Loops from items.

ghost use Rattle.std.specs.Prelude.{◌≡◌, ◌⊎◌, ◌+◌, ◌-◌, ◌^◌, ◌<◌, ◌≤◌, [], ◌∷◌, All, AllPairs, IfOk, MatchOption, length};
ghost use Rattle.isl_meter.specs.Gauge.{Gauge, IsMetered};
ghost use Rattle.isl_loop.specs.Formed.{IsLoopOver};
ghost use Rattle.isl_loop.specs.Printable.{IsPrintable};
ghost use Rattle.isl_nest.specs.declared.item.Item.{Item};
ghost use Rattle.isl_nest.specs.Changing.{AsksWhatChanges};
ghost use Rattle.isl_nest.specs.Covered.{view_of};
ghost use Rattle.isl_nest.specs.Places.{IsPlace};
ghost use Rattle.isl_nest.specs.Separate.{IsSeparate};
ghost use Rattle.isl_loops.specs.Shared.{covers_behind, IsSharedLoop, IsSharedNothing};
ghost use Rattle.isl_loops.specs.Together.{AreApart, IsOver, ListsAll};

use crate::groups::{Extent, groups_of};
use crate::only::only_form;
use isl_loop::Loop;
use isl_meter::{Cut, Meter};
use isl_nest::{Around, Item, Place, for_loop, separate};
use isl_piece::Rows;
use sqlite_items::Items;
use std::alloc::{AllocError, Global};

// The loops of each item alone, one after another, behind all numbers of their times.
fn one_by_one(
    alloc: Global,
    extent: Extent,
    place: &Place,
    items: &[Item],
    meter: &mut Meter,
) -> Result<Loop, Cut>
    requires place { IsPlace meter.old place.now }
    requires items { All (IsOver meter.old extent.params extent.times) items.now }
    requires apart { AllPairs (AreApart extent.params) items.now }
    requires low { extent.params ≤ length place.now.frame }
    requires high { length place.now.frame ≤ extent.params + extent.times }
    requires outer { length items.now ≤ 1 ⊎ (length place.now.frame ≡ extent.params + extent.times) }
    ensures lists { IfOk result (ListsAll items.now place.now) }
    ensures alone { (item : Item) → items.now ≡ item ∷ [] → IfOk result (IsSeparate (view_of item)
        (item.params + item.levels - length place.now.frame) place.now) }
    ensures over { IfOk result (IsLoopOver meter.old place.now.variables) }
    ensures changing { IfOk result (AsksWhatChanges place.now.variables) }
    ensures printable { IfOk result (IsPrintable place.now.variables) }
    ensures meter { IsMetered meter.old meter.new result }
{
    let columns = place.frame.len();
    let mut parts = Items::new(alloc);
    for item in items {
        let left = item.params + item.levels - columns;
        parts.push(separate(alloc, item, left, place, meter)?)?;
    }
    Ok(Loop::Block(parts))
}

// The systems of all items that hold wherever the place's columns and one more begin a point.
fn covers_behind(
    alloc: Global,
    extent: Extent,
    columns: usize,
    items: &[Item],
) -> Result<Vec<Rows>, AllocError>
    requires low { extent.params ≤ columns }
    requires inner { columns < extent.params + extent.times }
    requires items { (g : Gauge) × All (IsOver g extent.params extent.times) items.now }
    ensures { IfOk result (λ systems. systems.items ≡ covers_behind extent.params columns items.now) }
{
    let mut systems = Vec::new(alloc);
    for item in items {
        for rows in item.covers[columns + 1 - extent.params].as_slice() {
            systems.push(rows.copy(alloc)?)?;
        }
    }
    Ok(systems)
}

// The loop that goes through the next numbers of the points of all items; `None` where they have none.
fn shared(
    alloc: Global,
    extent: Extent,
    place: &Place,
    items: &[Item],
    meter: &mut Meter,
) -> Result<Option<Around>, Cut>
    requires place { IsPlace meter.old place.now }
    requires items { All (IsOver meter.old extent.params extent.times) items.now }
    requires low { extent.params ≤ length place.now.frame }
    requires inner { length place.now.frame < extent.params + extent.times }
    requires room { extent.params + extent.times < 2 ^ 63 }
    ensures around { IfOk result (λ around. MatchOption around (IsSharedNothing place.now items.now)
        (IsSharedLoop meter.old place.now items.now)) }
    ensures meter { IsMetered meter.old meter.new result }
{
    let systems = covers_behind(alloc, extent, place.frame.len(), items)?;
    let own = Rows::new(alloc);
    Around::of(alloc, place, &own, systems.as_slice(), meter)
}

/// The loops of the items behind the columns of the place: a tree that lists the calls of all items in the order of their times wherever
/// the place stands; of one item its nest alone. No loop goes through a column that has one number for all, told by a form,
/// and none asks at each turn what does not change.
///
/// # Errors
///
/// As every call under a meter.
pub(crate) fn together(
    alloc: Global,
    extent: Extent,
    place: &Place,
    items: Vec<Item>,
    meter: &mut Meter,
) -> Result<Loop, Cut>
    requires place { IsPlace meter.old place.now }
    requires items { All (IsOver meter.old extent.params extent.times) items.items }
    requires apart { AllPairs (AreApart extent.params) items.items }
    requires low { extent.params ≤ length place.now.frame }
    requires high { length place.now.frame ≤ extent.params + extent.times }
    requires room { extent.params + extent.times < 2 ^ 63 }
    ensures lists { IfOk result (ListsAll items.items place.now) }
    ensures alone { (item : Item) → items.items ≡ item ∷ [] → IfOk result (IsSeparate (view_of item)
        (item.params + item.levels - length place.now.frame) place.now) }
    ensures over { IfOk result (IsLoopOver meter.old place.now.variables) }
    ensures changing { IfOk result (AsksWhatChanges place.now.variables) }
    ensures printable { IfOk result (IsPrintable place.now.variables) }
    ensures meter { IsMetered meter.old meter.new result }
{
    if items.len() <= 1 || place.frame.len() == extent.params + extent.times {
        return one_by_one(alloc, extent, place, items.as_slice(), meter);
    }
    // For what a meter keeps: it has at least 8 bits.
    let _limit = meter.limit();
    let mut parts = Items::new(alloc);
    for group in groups_of(alloc, extent, place, items, meter)? {
        if group.len() == 1 {
            parts.push(one_by_one(alloc, extent, place, group.as_slice(), meter)?)?;
            continue;
        }
        let Some(around) = shared(alloc, extent, place, group.as_slice(), meter)? else {
            continue;
        };
        if let Some(entry) = only_form(alloc, &around.inside, place.variables, meter)? {
            let none = Rows::new(alloc);
            let behind = place.with_entry(alloc, &entry, &none)?;
            let tree = together(alloc, extent, &behind, group, meter)?;
            parts.push(tree)?;
            continue;
        }
        let inner = place.with_loop(alloc, &around.inside)?;
        let body = together(alloc, extent, &inner, group, meter)?;
        parts.push(for_loop(alloc, place.variables, around.head, body)?)?;
    }
    Ok(Loop::Block(parts))
}
