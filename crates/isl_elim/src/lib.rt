//! Several columns out of rows, emptiness, and samples.
#![tactic(auto)]

mod along;
mod between;
mod columns;
mod dependents;
mod emptiness;
mod flat;
mod line;
mod narrow;
mod opened;
mod progression;
mod projection;
mod sample;
mod solved;

pub use columns::columns_between;
pub use emptiness::{is_empty, is_normal_empty};
pub use flat::flatten;
pub use projection::{eliminate, eliminate_all, with_fewer_rows};
pub use sample::sample_point;
