//! Conjunctions of linear constraints over integer columns, in one normal form.
#![tactic(auto)]

mod coefs;
mod combine;
mod definition;
mod form;
mod index;
mod meeting;
mod negation;
mod normal;
mod numbers;
mod piece;
mod reduction;
mod row;
mod rows;
mod system;

pub use coefs::Coefs;
pub use combine::{combination, sum_of, weighted_sum};
pub use definition::{Definition, Definitions};
pub use meeting::meet;
pub use negation::negate;
pub use piece::Piece;
pub use reduction::{Outcome, settle};
pub use row::{Row, RowKind};
pub use rows::Rows;
pub use system::{System, normalise};
