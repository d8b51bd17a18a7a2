//! Operations on relations. Those that move or double columns stand here; products, restrictions, domains, ranges, and what maps
//! make of sets and of maps, come from the crates below.
#![tactic(auto)]

mod change;
mod copied;
mod places;
mod turned;
mod wrapped;
mod zipped;

pub use copied::{domain_map, identity, range_map};
pub use isl_images::{apply, deltas, domain, join, range};
pub use isl_products::{
    cross_maps, cross_sets, remove_domain, remove_range, restrict_domain, restrict_range, universal,
};
pub use turned::inverse;
pub use wrapped::{unwrap, wrap};
pub use zipped::zip;
