//! What cases say of their systems, and the points at which these are looked at.

use tests_made::field;

// The keys of a case's definitions and rows: of its system, of the one that it is met with, and of what is wanted.
pub(crate) const GIVEN: (&str, &str) = ("defined ", "row ");

pub(crate) const OTHER: (&str, &str) = ("with-defined ", "with ");

pub(crate) const WANTED: (&str, &str) = ("kept ", "want ");

/// Points are taken from `FIRST` on, `SIDE` numbers a coordinate.
pub(crate) const FIRST: i128 = -7;

pub(crate) const SIDE: u32 = 15;

// How many points there are in so many columns.
pub(crate) fn points(columns: usize) -> u32 {
    SIDE.saturating_pow(u32::try_from(columns).unwrap_or(0))
}

// Whether a point of one number is among the numbers of the case, where it lists some, exactly if the system holds there.
pub(crate) fn is_listed(case: &str, point: &[i128], holds: bool) -> bool {
    match (field(case, "at "), point) {
        (Some(text), [number]) => {
            holds
                == text
                    .split(' ')
                    .any(|word| word.parse::<i128>() == Ok(*number))
        }
        _ => true,
    }
}
