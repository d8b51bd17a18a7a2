//! Which kind of value an operation makes of its operands, and which kind and parameters an expression has.
#![tactic(auto)]

mod known;
mod lines;
mod params;
mod place;
mod scope;
mod sought;
mod types;
mod walk;

pub use known::known_params;
pub use scope::{Scope, Typed, forget_behind, is_dollar};
pub use types::typed_statement;
pub use walk::{Part, PartTest, any_part};
