//! Sessions, which answer the statements of a script as its bytes come in, and the whole program over a source
//! and two sinks.
#![tactic(auto)]

mod counts;
mod fault;
mod law;
mod program;
mod refused;
mod script;
mod session;
mod skips;
mod status;
mod stencil;
mod write;

pub use counts::Counts;
pub use fault::Fault;
pub use isl_refusal::Refusal;
pub use isl_words::{Options, WordsFault};
pub use law::{answered_is_a_run, skipping_goes_on};
pub use program::run;
pub use refused::refuse_words;
pub use session::Session;
pub use status::Status;
