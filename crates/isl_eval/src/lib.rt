//! One statement of a script: what it answers and what it binds, or why it is refused.
//!
//! A statement is empty, or it binds or shows what operators, words and applications make of names and literals: a value, a list of two by
//! `last`, or one element by `sample`; or it tells whether a test holds, lists elements by `scan`, or gives loops by `codegen`. It is taken
//! apart into simple statements, in which what is chosen once has a name, and each of these is one step.
#![tactic(auto)]

mod answers;
mod claims;
mod kept;
mod loops;
mod numbers;
mod params;
mod shown;
mod simple;
mod spelled;
mod step;
mod test;
mod trees;
mod workable;

pub use answers::Answer;
pub use isl_words::Options;
pub use simple::eval;
pub use spelled::one_statement;
pub use step::answer;
