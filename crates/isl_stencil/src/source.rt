//! The script as a source.

ghost use Rattle.std.specs.Prelude.{◌≡◌, ◌<◌, ◌≤◌, length, IfOk, IsOk, Some};
ghost use Rattle.std.specs.Io.KnownBytes.{ReadConsumes};
ghost use Rattle.isl_stencil.specs.Stencil as spec;
ghost use Rattle.isl_stencil.specs.Stencil.{most_sizes};

use crate::given::Given;
use crate::lines::{Lines, lines_of};
use isl_io::{Failed, Source};
use std::marker::Model;

/// The script of so many sizes, whose lines are made as they are read.
#[derive(Drop)]
pub struct Stencil {
    unread: Given,
    next: u64,
    later: u64,
}

impl Model for Stencil {
    ghost use Rattle.std.specs.Prelude.{ℕ, ◌+◌, ◌++◌, ◌≤◌, List};
    ghost use Rattle.isl_stencil.specs.Stencil.{from, most_sizes};

    ghost Value = { List ℕ };

    ghost view = { λ s. s.unread ++ from s.next s.later };

    ghost invariant = { λ s. s.next + s.later ≤ most_sizes + 2 };
}

impl Stencil {
    /// The script of the sizes from 2 on.
    pub fn new(sizes: u64) -> Stencil
        requires { sizes ≤ most_sizes }
        ensures { result ≡ spec.stencil sizes }
    {
        Stencil {
            unread: Given::new(Lines::new()),
            next: 2,
            later: sizes,
        }
    }
}

impl Source for Stencil {
    ghost left = { λ s. Some s };

    ghost faults = { λ _. 0 };

    fn read(&mut self, buf: &mut [u8]) -> Result<usize, Failed>
        requires { 0 < length buf.old }
        ensures fits { IfOk result (λ n. n ≤ length buf.new) }
        ensures bytes { ReadConsumes (Some self.old) (Some self.new) result buf.new }
        ensures sound { IsOk result }
    {
        if self.unread.is_empty() {
            if self.later == 0 {
                return Ok(0);
            }
            self.unread = Given::new(lines_of(self.next));
            self.next += 1;
            self.later -= 1;
        }
        Ok(self.unread.give(buf))
    }
}
