//! Precedences that are gathered, no more than memory is kept for.

ghost use Rattle.std.specs.Prelude.{◌≡◌, ◌++◌, OnOk};

use crate::later::Later;
use crate::precedence::Precedence;
use isl_difference::{are_too_heavy, are_too_many, share_of};
use std::alloc::AllocError;

// How many rows the precedences have, and one more for each.
fn weight_of(precedences: &[Precedence]) -> usize {
    let mut weight = precedences.len();
    for precedence in precedences {
        weight = weight.saturating_add(precedence.system.rows.len());
    }
    weight
}

// Whether the rows of all the precedences take more memory than is kept, as those of the others tell; and where there is room for fewer,
// whether all of them do.
fn take_too_much(precedences: &[Precedence], others: &[Precedence], room: usize) -> bool {
    let Some(last) = others.last() else {
        return false;
    };
    let columns = last.system.columns;
    let count = precedences.len().saturating_add(others.len());
    let weight = weight_of(others);
    if are_too_heavy(share_of(count, weight, others.len()), columns) {
        return true;
    }
    room < count && are_too_heavy(weight.saturating_add(weight_of(precedences)), columns)
}

/// Puts the other precedences behind these.
///
/// # Errors
///
/// `AllocError` where memory ends, or they are too many together: memory is bounded as time is.
pub(crate) fn append(
    precedences: &mut Vec<Precedence>,
    more: &mut Vec<Precedence>,
) -> Result<(), AllocError>
    ensures items { OnOk result (precedences.new.items ≡ precedences.old.items ++ more.old.items) }
{
    let room = precedences.capacity();
    if take_too_much(precedences.as_slice(), more.as_slice(), room) {
        return Err(AllocError);
    }
    precedences.append(more)
}

// Whether so many laters like the last one of these take more memory than is kept.
fn has_too_many(laters: &[Later], count: usize) -> bool {
    match laters.last() {
        Some(later) => later
            .systems
            .last()
            .is_some_and(|system| are_too_many(count, system)),
        None => false,
    }
}

/// The same of later sources.
///
/// # Errors
///
/// `AllocError` where memory ends, or they are too many together.
pub(crate) fn append_laters(
    laters: &mut Vec<Later>,
    more: &mut Vec<Later>,
) -> Result<(), AllocError>
    ensures items { OnOk result (laters.new.items ≡ laters.old.items ++ more.old.items) }
{
    let count = laters.len().saturating_add(more.len());
    if has_too_many(more.as_slice(), count) {
        return Err(AllocError);
    }
    laters.append(more)
}
