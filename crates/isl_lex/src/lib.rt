//! Lexicographic orders of elements, and the least and the greatest ones.
#![tactic(auto)]

pub use isl_extremes::{LexFault, lexmax, lexmin};
pub use isl_orders::{
    greater_eq_maps, greater_eq_sets, greater_maps, greater_sets, less_eq_maps, less_eq_sets,
    less_maps, less_sets, order_le, order_lt,
};
