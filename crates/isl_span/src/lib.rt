//! The affine hull of the points of systems.
#![tactic(auto)]

mod chain;
mod few;
mod forms;
mod hull;
mod last;
mod link;
mod moved;
mod points;

pub use hull::hull_of;
