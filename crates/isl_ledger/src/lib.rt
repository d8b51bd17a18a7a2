//! Work that is bounded: calls that are answered within so many units, and difference constraints.
#![tactic(auto)]
