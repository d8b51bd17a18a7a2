//! Statements: how a script is cut into them, how tokens spell them, how they are read, and when a text is refused; their kinds and their
//! simple statements.
#![tactic(auto)]

mod expression;
mod limits;
mod names;
mod operator;
mod read;
mod statement;
mod word;

pub use isl_flat::{SimpleStmt, flatten};
pub use isl_kinds::{Scope, Typed, typed_statement};
pub use isl_script::Cutter;
pub use names::spelled_names;
pub use read::{one_statement, read_statement};
