//! What is called at which times: the visits of a value, once each, laid out by their times; the covers of systems, which hold wherever a
//! point begins; and what is turned into loops, items with covers.
#![tactic(auto)]

mod apart;
mod calls;
mod cover_rows;
mod covers;
mod ended;
mod item;
mod items;
mod laid;
mod level;
mod of_value;
mod shadow;

pub use calls::Calls;
pub use covers::Covers;
pub use items::items_of;
pub use of_value::calls_of;
