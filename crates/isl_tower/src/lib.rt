//! Towers of projections, and whether systems are bounded.
#![tactic(auto)]

mod bounded;
mod ends;
mod level;
mod numbers;
mod tower;

pub use bounded::{is_bounded, is_bounded_at};
pub use ends::{has_lower_end, has_upper_end};
pub use numbers::system_at;
pub use tower::Tower;
