//! Tokens: how bytes form them, what they are to a grammar, and how lists of them are read.
#![tactic(auto)]

pub mod cursor;
pub mod depth;
pub mod fault;
pub mod lex;
pub mod marks;
pub mod number;
mod sign;
pub mod token;

pub use cursor::Cursor;
pub use depth::is_too_deep;
pub use fault::Fault;
pub use lex::tokens;
pub use marks::{Rest, Tokens};
pub use token::Kind;
