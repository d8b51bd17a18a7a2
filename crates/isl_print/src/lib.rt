//! Values as text.
#![tactic(auto)]

pub mod laws;
mod order;
mod text;
mod tuple;

pub use isl_row_text::Side;
pub use order::in_printed_order;
pub use text::{text_of, write_value};
pub use tuple::{Entry, write_tuples};
