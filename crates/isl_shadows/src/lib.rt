//! Shadows of rows: definitions of what is left of them without one column, and laws of dark shadows, splinters, residues and units.
#![tactic(auto)]
