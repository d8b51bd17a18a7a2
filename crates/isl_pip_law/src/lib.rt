//! Laws of least images: they are the negatives of greatest lists, the first points of a form, and begin where towers of projections tell.
#![tactic(auto)]
