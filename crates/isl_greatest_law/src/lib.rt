//! Laws of greatest lists, which are found number by number: of fronts, of one number in a case, and of several cases. They name no function.
#![tactic(auto)]
