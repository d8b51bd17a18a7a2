//! The steps of Pugh's Omega test, which take one column out of rows: equalities, congruences, and the shadows of pairs of bounds.
#![tactic(auto)]

pub mod column;
pub mod combine;
mod congruence;
pub mod equality;
pub mod pair;
pub mod rows;
pub mod shadow;
pub mod sides;
pub mod step;
pub mod substitution;
mod tighten;
