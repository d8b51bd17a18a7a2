//! Least images as trees of tests, over the parameters and the columns of a space that come first.
#![tactic(auto)]

mod behind;
mod greatest;
mod least;
mod levels;
mod lift;
mod mirror;
mod order;
mod without;

pub use isl_greatest::PipFault;
pub use isl_quast::{
    Atom, Expr, Forest, Item, QExpr, Quast, SpaceTree, forest_text, one_tree, value_at,
};
pub use least::pip;
