//! From literals to kept values.
#![tactic(auto)]

mod entries;
mod names;
mod piece;
mod space;
mod system;
mod systems;
mod value;

pub use value::lower;
