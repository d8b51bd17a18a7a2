//! Loops as trees: their execution, their text, and the text of their calls.
#![tactic(auto)]

mod arguments;
mod call;
mod callee;
mod formed;
mod run;
mod text;
mod value;

pub use call::Call;
pub use callee::Callee;
pub use formed::is_loop_over;
pub use isl_loop::{Atom, Expr, Item, Loop};
pub use isl_loop_text::loop_text;
pub use run::{execute, run_loops};
pub use text::run_text;
