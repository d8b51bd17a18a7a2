//! Proofs that a system has no point outside others, looked for and checked; it offers their checker and their text too.
#![tactic(auto)]

mod comparing;
mod living;
mod question;
mod within;

pub use isl_refute::{Cert, Form, cert_text, check};
pub use question::certify;
