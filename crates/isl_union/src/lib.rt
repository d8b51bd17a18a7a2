//! Values: unions of pieces of named spaces, over parameters.
#![tactic(auto)]

mod aligned;
mod bounded;
mod compare;
mod fault;
mod flat;
mod live;
mod meet;
mod minus;
mod pair;
mod pieces;
mod project;
mod same;
mod sample;
mod union;
mod value;

pub use aligned::aligned_pieces;
pub use fault::OpFault;
pub use live::{live_piece, push_found, settled_piece};
pub use pair::{AlignedPair, aligned_pair};
pub use pieces::{append, live_pieces_in, pieces_in};
pub use union::extended;
pub use value::Value;
