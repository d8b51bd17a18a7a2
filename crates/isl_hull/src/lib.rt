//! The affine hulls of values: the equations that hold at all of their elements.
#![tactic(auto)]

mod values;

pub use values::affine_hull;
