//! Which accesses come before others, which come later, and which are the last.
#![tactic(auto)]

mod before;
mod forms;
mod gathered;
mod lasts;
mod later;
mod live;
mod operands;
mod order;
mod precedence;
mod spreads;
mod told;
mod wide;

pub use before::{all_pieces_of, any};
pub use forms::{Forms, widths_for};
pub use lasts::all_lasts;
pub use later::{Later, all_laters};
pub use operands::{Operands, aligned};
pub use precedence::{Precedence, precedences};
pub use wide::have_wide_access;
