//! Elements of one space.

ghost use Rattle.std.specs.Prelude.{◌≡◌, ◌+◌, ◌<◌, ◌^◌, ◌∷◌, ◌++◌, suc, IfOk, OnOk, length, min, reverse, sum_by};
ghost use Rattle.isl_scan.specs.declared.group.Group.{Group};
ghost use Rattle.isl_scan.specs.Groups.{elements_of, space_in, AreGroups, AreLeft, AreMerged, IsGroup, IsJoined};
ghost use Rattle.isl_scan.specs.Weight.{weight};

use crate::merge::merged;
use isl_points::Points;
use isl_space::Space;
use std::alloc::{AllocError, Global};
use std::cmp::Ordering;

/// The numbers of elements of one space, in order, beside the text of the space.
#[derive(Drop)]
pub(crate) struct Group {
    pub(crate) title: String,
    pub(crate) space: Space,
    pub(crate) points: Points,
}

impl Group {
    // How many numbers take as much memory as it does: those of its points, and one for every 16 bytes of its title.
    pub(crate) fn weight(&self) -> usize
        ensures { result ≡ min (weight self.now) usize.MAX }
    {
        self.points.size().saturating_add(self.title.len() / 16)
    }
}

// The same of all of them.
pub(crate) fn weight_of(groups: &[Group]) -> usize
    ensures { result ≡ min (sum_by weight groups.now) usize.MAX }
{
    let mut weight = 0usize;
    for group in groups {
        weight = weight.saturating_add(group.weight());
    }
    weight
}

// One group of two of a space.
fn joined(alloc: Global, group: Group, other: Group) -> Result<Group, AllocError>
    requires group { IsGroup group }
    requires other { IsGroup other }
    requires same { space_in group ≡ space_in other }
    requires few { length group.points + length other.points < 2 ^ 64 }
    ensures { IfOk result (IsJoined group other) }
{
    let Group {
        title,
        space,
        points,
    } = group;
    let points = merged(alloc, &points, &other.points, space.width() as usize)?;
    Ok(Group {
        title,
        space,
        points,
    })
}

// Puts the next of the groups that are left behind the others: the first one, or what comes before it. The groups that are left stand in
// reverse order.
fn push_next(
    alloc: Global,
    groups: &mut Vec<Group>,
    first: Group,
    firsts: &mut Vec<Group>,
    seconds: &mut Vec<Group>,
) -> Result<(), AllocError>
    requires firsts { AreGroups (groups.old.items ++ first ∷ reverse firsts.old.items) }
    requires seconds { AreGroups (groups.old.items ++ reverse seconds.old.items) }
    requires few { length (elements_of (first ∷ reverse firsts.old.items)) + length (elements_of (reverse seconds.old.items)) < 2 ^ 64 }
    ensures left { OnOk result (AreLeft groups.old.items (first ∷ reverse firsts.old.items) (reverse seconds.old.items)
        groups.new.items (reverse firsts.new.items) (reverse seconds.new.items)) }
    ensures fewer { OnOk result (length firsts.new.items + length seconds.new.items < suc (length firsts.old.items) + length seconds.old.items) }
{
    let Some(second) = seconds.pop() else {
        groups.push(first)?;
        return Ok(());
    };
    match first.title.as_str().cmp(second.title.as_str()) {
        Ordering::Less => {
            seconds.push(second)?;
            groups.push(first)?;
            Ok(())
        }
        Ordering::Equal => {
            groups.push(joined(alloc, first, second)?)?;
            Ok(())
        }
        Ordering::Greater => {
            firsts.push(first)?;
            groups.push(second)?;
            Ok(())
        }
    }
}

/// The groups of both lists by their spaces, of which each has the points of both. In each list they stand in order.
///
/// # Errors
///
/// Where memory ends.
pub(crate) fn merged_groups(
    alloc: Global,
    mut firsts: Vec<Group>,
    mut seconds: Vec<Group>,
) -> Result<Vec<Group>, AllocError>
    requires firsts { AreGroups firsts.items }
    requires seconds { AreGroups seconds.items }
    requires few { length (elements_of firsts.items) + length (elements_of seconds.items) < 2 ^ 64 }
    ensures { IfOk result (λ groups. AreMerged firsts.items seconds.items groups.items) }
{
    let mut groups = Vec::with_capacity(alloc, firsts.len())?;
    firsts.reverse();
    seconds.reverse();
    while let Some(first) = firsts.pop() {
        push_next(alloc, &mut groups, first, &mut firsts, &mut seconds)?;
    }
    seconds.reverse();
    groups.append(&mut seconds)?;
    Ok(groups)
}
