//! Printed values are literals again.
#![tactic(auto)]

mod laws;

pub use laws::{
    lowered_is_writable, printed_is_accepted, printed_shows_what_is_live, printed_tree_is_kept,
    printed_tree_is_known, printed_tree_is_plain, printed_tree_is_spelled, printed_tree_is_within,
    round_trip, run_is_taken_again, shown_is_taken_again,
};
