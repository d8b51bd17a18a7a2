//! Lists of systems, and of what keeps one each: what they weigh.

ghost use Rattle.std.specs.Prelude.{◌≡◌, ◌↔◌, ◌++◌, ◌∷◌, ◌+◌, ◌*◌, ◌/◌, ◌<◌, [], OnOk, IsTrue, length, min};
ghost use Rattle.isl_difference.specs.Weight.{weight, AreTooHeavy, TakeTooMuchTogether};

use crate::weighed::Weighed;
use isl_piece::System;
use std::alloc::AllocError;

/// How many rows the systems of the list have, and one more for each.
pub fn weight_of<T: Weighed>(list: &[T]) -> usize
    ensures { result ≡ min (weight T.weighed list.now) usize.MAX }
{
    let mut weight = 0usize;
    for one in list {
        let rows = one.weighed_system().rows.len();
        weight = weight.saturating_add(rows.saturating_add(1));
    }
    weight
}

/// What so many weigh, where some of them weigh so much together.
pub fn share_of(count: usize, weight: usize, some: usize) -> usize
    ensures none { some ≡ 0 → result ≡ 0 }
    ensures each { 0 < some → result ≡ min (count * (weight / some)) usize.MAX }
{
    if some == 0 {
        return 0;
    }
    count.saturating_mul(weight / some)
}

/// Whether so many rows over so many columns take more memory than is kept: memory is bounded as time is. Two count for three, since lists of
/// systems are made of others, which are kept meanwhile.
pub fn are_too_heavy(weight: usize, columns: usize) -> bool
    ensures { IsTrue result ↔ AreTooHeavy weight columns }
{
    isl_column::are_too_many(weight.saturating_add(weight / 2), &[], columns)
}

/// Whether the rows of so many systems like this one do.
pub fn are_too_many(count: usize, system: &System) -> bool
    ensures { IsTrue result ↔ AreTooHeavy (count * (length system.now.rows + 1)) system.now.columns }
{
    let of_one = system.rows.len().saturating_add(1);
    are_too_heavy(count.saturating_mul(of_one), system.columns)
}

/// Whether the systems of both lists take more memory than is kept, each counted so many times, as those of the others tell; and where
/// there is room for fewer, whether all of them do.
pub fn take_too_much<T: Weighed>(systems: &[T], others: &[T], room: usize, times: usize) -> bool
    ensures { IsTrue result ↔ TakeTooMuchTogether T.weighed systems.now others.now room times }
{
    if others.is_empty() {
        return false;
    }
    let columns = others[others.len() - 1].weighed_system().columns;
    let count = systems.len().saturating_add(others.len());
    let weight = weight_of(others);
    let share = share_of(count, weight, others.len());
    if are_too_heavy(share.saturating_mul(times), columns) {
        return true;
    }
    let all = weight.saturating_add(weight_of(systems));
    room < count && are_too_heavy(all.saturating_mul(times), columns)
}

/// Puts the others behind these.
///
/// # Errors
///
/// `AllocError` where memory ends, or they are too many together.
pub fn append<T: Weighed>(systems: &mut Vec<T>, more: &mut Vec<T>) -> Result<(), AllocError>
    ensures items { OnOk result (systems.new.items ≡ systems.old.items ++ more.old.items) }
{
    if take_too_much(systems.as_slice(), more.as_slice(), systems.capacity(), 1) {
        return Err(AllocError);
    }
    systems.append(more)
}

/// Puts the system itself behind these.
///
/// # Errors
///
/// `AllocError` where memory ends, or they are too many together.
pub(crate) fn push(systems: &mut Vec<System>, system: System) -> Result<(), AllocError>
    ensures items { OnOk result (systems.new.items ≡ systems.old.items ++ system ∷ []) }
{
    if are_too_many(systems.len().saturating_add(1), &system) {
        return Err(AllocError);
    }
    systems.push(system)?;
    Ok(())
}
