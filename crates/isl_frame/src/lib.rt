//! Frames: columns as quotients of forms over the variables in scope.
#![tactic(auto)]

mod context;
mod equality;
mod rows;
mod sum;
mod variable;

pub use context::{are_known, needed};
pub use equality::{isolated, signed, solution};
pub use rows::{all_through, all_through_behind, through, through_behind};
pub use variable::{own_frame, widened, with_variable};
