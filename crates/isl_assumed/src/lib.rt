//! What is assumed of parameters, and values under it.
#![tactic(auto)]

mod assumed;
mod left;
mod onto;
mod pairing;
mod region;
mod values;

pub use assumed::Assumed;
pub use pairing::{pair, pairs};
pub use region::Region;
pub use values::{live, under};
