//! What values tell to be visited, and when; and which trees of loops are good for a value.
#![tactic(auto)]

mod check;
mod fault;
mod good;
mod shapes;
mod times;
mod visits;

pub use check::check_schedule;
pub use fault::GenFault;
pub use good::listed_is_good;
pub use visits::{Visits, visits_of};
