//! Proofs that rows hold nowhere outside some systems, a checker of them that shares no code with elimination, and their text.
#![tactic(auto)]

mod added;
mod checker;
mod facts;
mod forms;
mod places;
mod steps;
mod text;
mod tree;

pub use checker::check;
pub use text::cert_text;
pub use tree::{Cert, Form};
