//! What statements have bound and assumed: names, each with its kind and value, and the valuations of parameters that are assumed.
#![tactic(auto)]

mod list;
mod live;
mod state;

pub use list::{ListPart, ListValue};
pub use live::live_part;
pub use state::{Kept, State};
