//! What an expression selects, over what is bound: values that are worked out.
#![tactic(auto)]

mod answers;
mod dependence;
mod flat;
pub mod laws;
mod literal;
mod operands;
mod operators;
mod postfixes;
mod values;
mod words;

pub use flat::{flat_list_of, flat_value_of};
pub use isl_outcome::refusal_of;
pub use isl_state::{Kept, ListPart, ListValue, State};
pub use operands::{Operands, both_under, right_under, under_own};
pub use values::{joined_past, value_of};
