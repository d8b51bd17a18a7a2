//! Laws of simple statements: what flattening names, put back, and what simple statements have of the statement.
#![tactic(auto)]

mod laws;

pub use laws::named_is_put_back;
