//! One of several columns.

ghost use Rattle.std.specs.Prelude.{◌≡◌, ◌<◌};

/// A column: how many there are, and which of them it is, counted from 0.
#[derive(Clone, Copy)]
pub struct Column {
    pub columns: usize,
    pub at: usize,
    pub ghost in_range: { at < columns },
}

impl Column {
    /// The column at a place among so many.
    pub fn new(columns: usize, at: usize) -> Column
        requires { at < columns }
        ensures columns { result.columns ≡ columns }
        ensures at { result.at ≡ at }
    {
        Column { columns, at }
    }
}
