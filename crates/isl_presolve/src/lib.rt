//! Rows made simpler before columns go: steps by which numbers get smaller, columns that have one number or are bounded on one side
//! alone, a point that is guessed, and which column goes first.
#![tactic(auto)]

mod choice;
mod fixed;
mod guess;
mod one_sided;
mod pairs;
mod reduction;
mod shear;

pub use choice::{any_column, cheapest};
pub use fixed::with_fixed;
pub use guess::hold_at_guess;
pub use one_sided::without_one_sided;
pub use pairs::{add_many_rows, pairs_at};
pub use shear::reduced;
