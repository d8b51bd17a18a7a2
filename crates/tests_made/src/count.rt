//! How many cases a program of tests has looked at, and how many of them differ.

use std::io;

/// The cases so far, and those that differ.
#[derive(Clone, Copy)]
pub struct Count {
    cases: u32,
    differ: u32,
}

impl Count {
    /// None so far.
    pub fn new() -> Count {
        Count {
            cases: 0,
            differ: 0,
        }
    }

    /// One case more, which comes to what is wanted or differs.
    pub fn add(&mut self, right: bool) {
        self.cases = self.cases.saturating_add(1);
        self.differ = self.differ.saturating_add(u32::from(!right));
    }

    /// Prints how many cases there were, and how many differ: what a program of tests ends with.
    pub fn print(&self, rt: &impl Print) -> io::Result<()> {
        println!(rt; "{} cases, {} differ", self.cases, self.differ)
    }
}
