//! Pieces found by the spaces that they lie in.
#![tactic(auto)]

mod groups;
mod index;

pub use index::{PieceIndex, ShapeIndex};
