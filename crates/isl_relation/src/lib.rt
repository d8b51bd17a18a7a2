//! What operations on sets and relations select: definitions alone.
#![tactic(auto)]
