//! A sink into memory, in small pieces and with failing calls.

ghost use Rattle.std.specs.Prelude.{◌≡◌, ◌↔◌, ◌⊎◌, ◌<◌, ◌≤◌, [], ◌++◌, length, take, min, IfOk, OnErr, IsErr, Contains, Some};
ghost use Rattle.isl_math.specs.Count.{risen};
ghost use Rattle.isl_io.specs.Outside.{room_left};

use crate::{Failed, Sink};
use std::alloc::{AllocError, Global};
use std::marker::Model;

/// A sink that keeps what is written, in memory that it took at once, and fails at the calls that it was
/// told to.
#[derive(Drop)]
pub struct MemSink {
    bytes: Vec<u8>,
    room: usize,
    most: usize,
    fails: Vec<u64>,
    calls: u64,
    faults: u64,
}

impl Model for MemSink {
    ghost use Rattle.std.specs.Prelude.{◌≤◌, ◌<◌, vec_len, vec_capacity};
    ghost use Rattle.isl_io.specs.Outside.{Store};

    ghost Value = { Store };

    ghost view = { λ s. record {
      written = s.bytes.items;
      room = s.room;
      most = s.most;
      fails = s.fails.items;
      calls = s.calls;
      faults = s.faults;
    } };

    ghost invariant = { λ s.
        (vec_len s.bytes ≤ s.room) × (s.room ≤ vec_capacity s.bytes) × (0 < s.most) };
}

impl MemSink {
    /// Takes memory for `room` bytes, all that it will ever need. A write takes at most `most` bytes, and
    /// no more than fit; with no room left it fails. The writes are numbered from 0, and those whose numbers
    /// are in `fails` fail too; the number stands still at its last value.
    pub fn new(
        alloc: Global,
        room: usize,
        most: usize,
        fails: Vec<u64>,
    ) -> Result<MemSink, AllocError>
        requires { 0 < most }
        ensures { IfOk result (λ sink. sink ≡ record {
          written = [];
          room = room;
          most = most;
          fails = fails.items;
          calls = 0;
          faults = 0;
        }) }
    {
        let bytes = Vec::with_capacity(alloc, room)?;
        Ok(MemSink {
            bytes,
            room,
            most,
            fails,
            calls: 0,
            faults: 0,
        })
    }

    /// What was written.
    pub fn bytes(&self) -> &[u8]
        ensures { result.now ≡ self.now.written }
    {
        &self.bytes
    }
}

impl Sink for MemSink {
    ghost written = { λ s. Some s.written };

    ghost faults = { λ s. s.faults };

    fn write(&mut self, piece: &[u8]) -> Result<usize, Failed>
        requires { 0 < length piece.now }
        ensures fits { IfOk result (λ n. (0 < n) × (n ≤ length piece.now)) }
        ensures no_fewer_faults { self.old.faults ≤ self.new.faults }

        // The listed calls fail, and those with no room left, and no others.
        ensures fails { IsErr result
            ↔ (Contains self.old.fails self.old.calls ⊎ (room_left self.old ≡ 0)) }
        ensures count { IfOk result (λ n. n
            ≡ min self.old.most (min (length piece.now) (room_left self.old))) }
        ensures taken { IfOk result (λ n. self.new ≡ record self.old {
          written = self.old.written ++ take n piece.now;
          calls = risen self.old.calls;
        }) }
        ensures failed { OnErr result (self.new
            ≡ record self.old { calls = risen self.old.calls; faults = risen self.old.faults }) }
    {
        let call = self.calls;
        self.calls = call.saturating_add(1);
        let room_left = self.room - self.bytes.len();
        if self.fails.contains(&call) || room_left == 0 {
            self.faults = self.faults.saturating_add(1);
            return Err(Failed);
        }
        let n = self.most.min(piece.len()).min(room_left);
        self.bytes.extend_from_slice(&piece[..n]).unwrap();
        Ok(n)
    }
}
