//! Why a statement, a script or a command line is refused: a table of exit statuses, texts and places.
#![tactic(auto)]

mod refusal;

pub use refusal::Refusal;
