//! Nests of loops: what one item becomes.
#![tactic(auto)]

mod around;
mod asked;
mod cover;
mod equality;
mod guards;
mod item;
mod loops;
mod naming;
mod nested;
mod place;
mod sides;
mod told;

pub use around::Around;
pub use cover::Cover;
pub use item::Item;
pub use loops::{nest, separate};
pub use nested::{Nested, for_loop};
pub use place::Place;
