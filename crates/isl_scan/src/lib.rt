//! The elements of a value at one valuation.
#![tactic(auto)]

mod elements;
mod fault;
mod group;
mod listing;
mod merge;

pub use elements::scan;
pub use fault::ScanFault;
pub use listing::Listing;
