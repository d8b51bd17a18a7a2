//! What maps make of elements: their domains, ranges and deltas, and what they make of sets and of maps.
#![tactic(auto)]

mod differences;
mod image;
mod joined;
mod pairing;
mod projected;
mod shadow;
mod shift;

pub use differences::deltas;
pub use joined::{apply, join};
pub use projected::{domain, range};
