//! Operations on two values that take no coordinate out: products of sets and of maps, and maps restricted by sets.
#![tactic(auto)]

mod cross;
mod layout;
mod near;
mod placed;
mod product;
mod remove;
mod restrict;
mod wide;

pub use cross::{cross_maps, cross_sets, universal};
pub use remove::{remove_domain, remove_range};
pub use restrict::{restrict_domain, restrict_range};
