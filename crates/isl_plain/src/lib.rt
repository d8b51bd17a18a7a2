//! Plain literals as rows: linear terms over the columns of a piece.
#![tactic(auto)]

mod brackets;
mod chains;
mod entries;
mod lowered;
mod places;
mod plain;
mod remainder;
mod rows;
mod tuples;
mod written;

pub use lowered::rows_written;
pub use plain::{is_plain, is_plain_piece};
pub use tuples::piece_entries;
