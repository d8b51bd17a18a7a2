//! Groups of items, one before another.

ghost use Rattle.std.specs.Prelude.{◌≡◌, ◌↔◌, ◌+◌, ◌^◌, ◌<◌, ◌≤◌, ◌∷◌, ◌++◌, [], All, IfOk, IsTrue, drop, length, map, take};
ghost use Rattle.std.specs.List.Sorted.{IsPermutation};
ghost use Rattle.isl_meter.specs.Gauge.{IsMetered};
ghost use Rattle.isl_nest.specs.Places.{IsPlace};
ghost use Rattle.isl_loops.specs.Groups.{items_of, members_of, AreGroupsOf, AreGroupsOver};
ghost use Rattle.isl_loops.specs.Together.{AllComeBefore, AreOrdered, ComesBefore, IsOver};

use crate::order::comes_before;
use isl_meter::{Cut, Meter};
use isl_nest::{Item, Place};
use std::alloc::{AllocError, Global};

/// Over how many parameters items are, and how many numbers their times have.
#[derive(Clone, Copy)]
pub(crate) struct Extent {
    pub params: usize,
    pub times: usize,
}

// Whether the item comes before each of the others.
fn comes_before_all(
    alloc: Global,
    extent: Extent,
    place: &Place,
    item: &Item,
    others: &[Item],
    meter: &mut Meter,
) -> Result<bool, Cut>
    requires place { IsPlace meter.old place.now }
    requires item { IsOver meter.old extent.params extent.times item.now }
    requires others { All (IsOver meter.old extent.params extent.times) others.now }
    requires low { extent.params ≤ length place.now.frame }
    requires inner { length place.now.frame < extent.params + extent.times }
    requires room { extent.params + extent.times < 2 ^ 63 }
    ensures before { IfOk result (λ before. IsTrue before → All (ComesBefore place.now item.now) others.now) }
    ensures meter { IsMetered meter.old meter.new result }
{
    for other in others {
        if !comes_before(alloc, extent, place, item, other, meter)? {
            return Ok(false);
        }
    }
    Ok(true)
}

// Whether each of the others comes before the item.
fn all_come_before(
    alloc: Global,
    extent: Extent,
    place: &Place,
    others: &[Item],
    item: &Item,
    meter: &mut Meter,
) -> Result<bool, Cut>
    requires place { IsPlace meter.old place.now }
    requires others { All (IsOver meter.old extent.params extent.times) others.now }
    requires item { IsOver meter.old extent.params extent.times item.now }
    requires low { extent.params ≤ length place.now.frame }
    requires inner { length place.now.frame < extent.params + extent.times }
    requires room { extent.params + extent.times < 2 ^ 63 }
    ensures before { IfOk result (λ before. IsTrue before → AllComeBefore place.now others.now (item.now ∷ [])) }
    ensures meter { IsMetered meter.old meter.new result }
{
    for other in others {
        if !comes_before(alloc, extent, place, other, item, meter)? {
            return Ok(false);
        }
    }
    Ok(true)
}

// How many of the first groups come before the item, one after another.
fn leading(
    alloc: Global,
    extent: Extent,
    place: &Place,
    groups: &[Vec<Item>],
    item: &Item,
    meter: &mut Meter,
) -> Result<usize, Cut>
    requires place { IsPlace meter.old place.now }
    requires groups { AreGroupsOver meter.old extent groups.now }
    requires item { IsOver meter.old extent.params extent.times item.now }
    requires low { extent.params ≤ length place.now.frame }
    requires inner { length place.now.frame < extent.params + extent.times }
    requires room { extent.params + extent.times < 2 ^ 63 }
    ensures count { IfOk result (λ count. count ≤ length groups.now) }
    ensures before { IfOk result (λ count. All (λ group. AllComeBefore place.now group.items (item.now ∷ [])) (take count groups.now)) }
    ensures meter { IsMetered meter.old meter.new result }
{
    let mut count = 0;
    while count < groups.len() {
        if !all_come_before(alloc, extent, place, groups[count].as_slice(), item, meter)? {
            break;
        }
        count += 1;
    }
    Ok(count)
}

// Where the last groups begin that the item comes before, not in front of the `least` first ones.
fn trailing(
    alloc: Global,
    extent: Extent,
    place: &Place,
    groups: &[Vec<Item>],
    item: &Item,
    least: usize,
    meter: &mut Meter,
) -> Result<usize, Cut>
    requires place { IsPlace meter.old place.now }
    requires groups { AreGroupsOver meter.old extent groups.now }
    requires item { IsOver meter.old extent.params extent.times item.now }
    requires least { least ≤ length groups.now }
    requires low { extent.params ≤ length place.now.frame }
    requires inner { length place.now.frame < extent.params + extent.times }
    requires room { extent.params + extent.times < 2 ^ 63 }
    ensures least { IfOk result (λ from. least ≤ from) }
    ensures end { IfOk result (λ from. from ≤ length groups.now) }
    ensures before { IfOk result (λ from. All (λ group. All (ComesBefore place.now item.now) group.items) (drop from groups.now)) }
    ensures meter { IsMetered meter.old meter.new result }
{
    let mut from = groups.len();
    while from > least {
        if !comes_before_all(
            alloc,
            extent,
            place,
            item,
            groups[from - 1].as_slice(),
            meter,
        )? {
            break;
        }
        from -= 1;
    }
    Ok(from)
}

// The members of all groups in one, with the item behind them.
fn joined(alloc: Global, groups: Vec<Vec<Item>>, item: Item) -> Result<Vec<Item>, AllocError>
    ensures { IfOk result (λ group. group.items ≡ members_of groups.items ++ item ∷ []) }
{
    let mut group = Vec::new(alloc);
    for mut other in groups {
        group.append(&mut other)?;
    }
    group.push(item)?;
    Ok(group)
}

// The groups with the item: behind those that come before it, in front of those that it comes before, and in one with all between.
fn with_item(
    alloc: Global,
    extent: Extent,
    place: &Place,
    mut groups: Vec<Vec<Item>>,
    item: Item,
    meter: &mut Meter,
) -> Result<Vec<Vec<Item>>, Cut>
    requires place { IsPlace meter.old place.now }
    requires groups { AreGroupsOver meter.old extent groups.items }
    requires item { IsOver meter.old extent.params extent.times item }
    requires low { extent.params ≤ length place.now.frame }
    requires inner { length place.now.frame < extent.params + extent.times }
    requires room { extent.params + extent.times < 2 ^ 63 }
    ensures same { IfOk result (λ made. IsPermutation (members_of groups.items ++ item ∷ []) (members_of made.items)) }
    ensures ordered { IfOk result (λ made. AreOrdered place.now (map items_of groups.items)
        → AreOrdered place.now (map items_of made.items)) }
    ensures meter { IsMetered meter.old meter.new result }
{
    let first = leading(alloc, extent, place, groups.as_slice(), &item, meter)?;
    let last = trailing(alloc, extent, place, groups.as_slice(), &item, first, meter)?;
    let mut after = groups.split_off(last)?;
    let between = groups.split_off(first)?;
    groups.push(joined(alloc, between, item)?)?;
    groups.append(&mut after)?;
    Ok(groups)
}

/// The items in groups, each of which comes before all later ones.
///
/// # Errors
///
/// As every call under a meter.
pub(crate) fn groups_of(
    alloc: Global,
    extent: Extent,
    place: &Place,
    items: Vec<Item>,
    meter: &mut Meter,
) -> Result<Vec<Vec<Item>>, Cut>
    requires place { IsPlace meter.old place.now }
    requires items { All (IsOver meter.old extent.params extent.times) items.items }
    requires low { extent.params ≤ length place.now.frame }
    requires inner { length place.now.frame < extent.params + extent.times }
    requires room { extent.params + extent.times < 2 ^ 63 }
    ensures groups { IfOk result (λ groups. AreGroupsOf place.now items.items [] groups.items) }
    ensures meter { IsMetered meter.old meter.new result }
{
    let mut groups = Vec::new(alloc);
    for item in items {
        groups = with_item(alloc, extent, place, groups, item, meter)?;
    }
    Ok(groups)
}
