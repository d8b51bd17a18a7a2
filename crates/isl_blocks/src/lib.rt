//! Systems over blocks of columns: some blocks alone, blocks in lexicographic order, and without the last ones.
#![tactic(auto)]

mod cases;
mod left;
mod picks;

pub use cases::{Direction, order_case, same_case};
pub use left::{live_without, without_last};
pub use picks::spread;
