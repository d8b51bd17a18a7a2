//! The script that is run where one is made: a stencil over time, of one size after another.
#![tactic(auto)]

mod given;
mod law;
mod lines;
mod source;

pub use law::stencils_are_whole;
pub use source::Stencil;
