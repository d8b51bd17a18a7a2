//! Lines that are given from the front.

ghost use Rattle.std.specs.Prelude.{◌≡◌, ◌++◌, ◌<◌, length, take, drop, min, [], MatchBool};

use crate::lines::Lines;
use std::marker::Model;

// The bytes of some lines that are still to be given.
#[derive(Drop)]
pub(crate) struct Given {
    lines: Lines,
    at: usize,
}

impl Model for Given {
    ghost use Rattle.std.specs.Prelude.{ℕ, ◌≤◌, List, drop, length};

    ghost Value = { List ℕ };

    ghost view = { λ g. drop g.at g.lines.items };

    ghost invariant = { λ g. g.at ≤ length g.lines.items };
}

impl Given {
    pub(crate) fn new(lines: Lines) -> Given
        ensures { result ≡ lines.items }
    {
        Given { lines, at: 0 }
    }

    pub(crate) fn is_empty(&self) -> bool
        ensures { MatchBool result (self.now ≡ []) (0 < length self.now) }
    {
        self.at >= self.lines.len()
    }

    // Moves bytes from the front into that of `buf`, and answers how many.
    pub(crate) fn give(&mut self, buf: &mut [u8]) -> usize
        ensures count { result ≡ min (length buf.old) (length self.old) }
        ensures given { buf.new ≡ take result self.old ++ drop result buf.old }
        ensures left { self.new ≡ drop result self.old }
    {
        let unread = &self.lines.as_slice()[self.at..];
        let n = buf.len().min(unread.len());
        buf[..n].copy_from_slice(&unread[..n]);
        self.at += n;
        n
    }
}
