//! Trees of tests with numbers at their leaves, and their text.
#![tactic(auto)]

ghost use Rattle.isl_quast.specs.OneTree.{OneTree};

mod expr;
mod forest;
mod number;
mod qexpr;
mod text;
mod tree;
mod tuple;
mod value;

pub use forest::{Forest, SpaceTree};
pub use isl_loop::{Atom, Expr, Item};
pub use qexpr::QExpr;
pub use text::forest_text;
pub use tree::Quast;
pub use value::value_at;

/// Of two trees over the same columns with the same text, the numbers are the same at all numbers of the columns.
pub fn one_tree()
    ensures { OneTree }
{}
