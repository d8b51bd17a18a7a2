//! Elements of sets, and images of maps, in lexicographic order.
#![tactic(auto)]

mod both;
mod cases;
mod compare;
mod left;
mod maps;
mod order;
mod sets;
mod systems;
mod values;
mod whole;
mod wide;

pub use maps::{greater_eq_maps, greater_maps, less_eq_maps, less_maps};
pub use sets::{greater_eq_sets, greater_sets, less_eq_sets, less_sets};
pub use whole::{order_le, order_lt};
