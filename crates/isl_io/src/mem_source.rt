//! A source over bytes in memory, in small pieces and with failing calls.

ghost use Rattle.std.specs.Prelude.{◌≡◌, ◌↔◌, ◌<◌, ◌≤◌, ◌++◌, length, take, drop, min, IfOk, OnErr, IsErr, Contains, Some};
ghost use Rattle.std.specs.Io.KnownBytes.{ReadConsumes};
ghost use Rattle.isl_math.specs.Count.{risen};

use crate::unread::Unread;
use crate::{Failed, Source};
use std::marker::Model;

/// A source that gives bytes in memory in pieces, and fails at the calls that it was told to.
#[derive(Drop)]
pub struct MemSource {
    left: Unread,
    most: usize,
    fails: Vec<u64>,
    calls: u64,
    faults: u64,
}

impl Model for MemSource {
    ghost use Rattle.std.specs.Prelude.{◌<◌};
    ghost use Rattle.isl_io.specs.Outside.{Feed};

    ghost Value = { Feed };

    ghost view = { λ s. record {
      left = s.left;
      most = s.most;
      fails = s.fails.items;
      calls = s.calls;
      faults = s.faults;
    } };

    ghost invariant = { λ s. 0 < s.most };
}

impl MemSource {
    /// Gives `bytes`, at most `most` of them at a read. The reads are numbered from 0, and those whose
    /// numbers are in `fails` fail; the number stands still at its last value.
    pub fn new(bytes: Vec<u8>, most: usize, fails: Vec<u64>) -> MemSource
        requires { 0 < most }
        ensures { result ≡ record {
          left = bytes.items;
          most = most;
          fails = fails.items;
          calls = 0;
          faults = 0;
        } }
    {
        MemSource {
            left: Unread::new(bytes),
            most,
            fails,
            calls: 0,
            faults: 0,
        }
    }
}

impl Source for MemSource {
    ghost left = { λ s. Some s.left };

    ghost faults = { λ s. s.faults };

    fn read(&mut self, buf: &mut [u8]) -> Result<usize, Failed>
        requires { 0 < length buf.old }
        ensures bytes { ReadConsumes (Some self.old.left) (Some self.new.left) result buf.new }
        ensures no_fewer_faults { self.old.faults ≤ self.new.faults }

        // The listed calls fail and no others.
        ensures fails { IsErr result ↔ Contains self.old.fails self.old.calls }
        ensures count { IfOk result (λ n. n
            ≡ min self.old.most (min (length buf.old) (length self.old.left))) }
        ensures given { IfOk result (λ n. buf.new ≡ take n self.old.left ++ drop n buf.old) }
        ensures taken { IfOk result (λ n. self.new
            ≡ record self.old { left = drop n self.old.left; calls = risen self.old.calls }) }
        ensures failed { OnErr result (self.new
            ≡ record self.old { calls = risen self.old.calls; faults = risen self.old.faults }) }
        ensures untouched { OnErr result (buf.new ≡ buf.old) }
    {
        let call = self.calls;
        self.calls = call.saturating_add(1);
        if self.fails.contains(&call) {
            self.faults = self.faults.saturating_add(1);
            return Err(Failed);
        }
        Ok(self.left.give(self.most, buf))
    }
}
