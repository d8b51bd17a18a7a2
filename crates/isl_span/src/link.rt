//! What a column may add to an affine hull.

use isl_piece::Row;

/// What the last column of systems adds to their affine hull.
#[derive(Drop)]
pub(crate) enum Link {
    /// An equation that gives the number there.
    Equation(Row),
    /// Nothing: two points differ there alone.
    Free,
    /// It is not seen.
    Unknown,
}
