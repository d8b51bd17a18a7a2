//! Bounds of loops: what rows say of the last of their columns, as expressions over the ones before it.
#![tactic(auto)]

mod bound;
mod ends;
mod first;
mod form;
mod groups;
mod head;
mod side;
mod step;

pub use bound::bound_of;
pub use ends::Ends;
pub use form::divided;
pub use groups::pruned;
pub use head::Head;
pub use side::Side;
pub use step::step_of;
