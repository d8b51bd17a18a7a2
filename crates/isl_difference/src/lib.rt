//! Systems minus systems.
#![tactic(auto)]

mod bounds;
mod cover;
mod difference;
mod lists;
mod live;
mod split;
mod weighed;

pub use cover::is_covered;
pub use difference::{outside, references, subtract};
pub use lists::{append, are_too_heavy, are_too_many, share_of, take_too_much, weight_of};
pub use live::live_form;
pub use split::hold_throughout;
pub use weighed::Weighed;
