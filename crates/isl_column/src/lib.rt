//! One column out of rows over whole numbers: what is left holds exactly where some whole number stood there. It is the Omega
//! test of Pugh: equalities, congruences, exact and dark shadows, and splinters.
#![tactic(auto)]

mod dark_shadow;
mod eliminate;
mod equality;
mod exact;
mod lists;
mod mirror;
mod neighbours;
mod parts;
mod real;
mod residue;
mod splinters;

pub use eliminate::eliminate_rows;
pub use lists::{are_too_many, push_list};
pub use parts::Parts;
pub use real::real_shadow;
