//! Rows as text, their order, and the names of columns.
#![tactic(auto)]

mod length;
mod names;
mod order;
mod row;
mod sum;

pub use length::check_length;
pub use names::{column_names, free_name, param_names};
pub use order::ordered_rows;
pub use row::write_row;
pub use sum::Side;
