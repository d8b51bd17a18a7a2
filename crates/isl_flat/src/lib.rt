//! Statements as the machine takes them: simple ones, one after another.
#![tactic(auto)]

mod flattening;
mod partial;

pub use flattening::{SimpleStmt, Standing, flatten};
