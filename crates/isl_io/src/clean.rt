//! A source and a sink that never fail.

ghost use Rattle.std.specs.Prelude.{◌≡◌, ◌<◌, ◌≤◌, ◌++◌, length, take, drop, min, IfOk, Some, None};
ghost use Rattle.std.specs.Io.KnownBytes.{ReadConsumes};

use crate::unread::Unread;
use crate::{Failed, Sink, Source};
use std::marker::Model;

/// A source over bytes in memory that never fails.
#[derive(Drop)]
pub struct CleanSource {
    left: Unread,
    most: usize,
}

impl Model for CleanSource {
    ghost use Rattle.std.specs.Prelude.{◌<◌};
    ghost use Rattle.isl_io.specs.Outside.{CleanFeed};

    ghost Value = { CleanFeed };

    ghost view = { λ s. record { left = s.left; most = s.most } };

    ghost invariant = { λ s. 0 < s.most };
}

impl CleanSource {
    /// Gives `bytes`, at most `most` of them at a read.
    pub fn new(bytes: Vec<u8>, most: usize) -> CleanSource
        requires { 0 < most }
        ensures { result ≡ record { left = bytes.items; most = most } }
    {
        CleanSource {
            left: Unread::new(bytes),
            most,
        }
    }
}

impl Source for CleanSource {
    ghost left = { λ s. Some s.left };

    ghost faults = { λ _. 0 };

    fn read(&mut self, buf: &mut [u8]) -> Result<usize, Failed>
        requires { 0 < length buf.old }
        ensures bytes { ReadConsumes (Some self.old.left) (Some self.new.left) result buf.new }
        ensures count { result
            ≡ Ok (min self.old.most (min (length buf.old) (length self.old.left))) }
        ensures given { IfOk result (λ n. buf.new ≡ take n self.old.left ++ drop n buf.old) }
        ensures taken { IfOk result (λ n. self.new ≡ record self.old { left = drop n self.old.left }) }
    {
        Ok(self.left.give(self.most, buf))
    }
}

/// A sink that takes each piece whole, keeps nothing, and never fails.
#[derive(Clone, Copy, Default, PartialEq, Eq)]
pub struct CleanSink;

impl CleanSink {
    /// There is one clean sink, since it keeps nothing.
    pub fn new() -> CleanSink {
        CleanSink
    }
}

impl Sink for CleanSink {
    ghost written = { λ _. None };

    ghost faults = { λ _. 0 };

    fn write(&mut self, piece: &[u8]) -> Result<usize, Failed>
        requires { 0 < length piece.now }
        ensures { result ≡ Ok (length piece.now) }
    {
        Ok(piece.len())
    }
}
