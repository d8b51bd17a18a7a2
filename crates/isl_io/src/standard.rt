//! The standard streams. What they give and show is outside of what is proved.

ghost use Rattle.std.specs.Prelude.{◌≡◌, ◌<◌, ◌≤◌, ℕ, length, take, None, IfOk, OnErr, MatchResult};
ghost use Rattle.std.specs.Io.KnownBytes.{ReadConsumes, Appends};
ghost use Rattle.isl_math.specs.Count.{risen};

use crate::{Failed, Sink, Source};
use std::io::{Read, Write};
use std::marker::Model;

/// Standard input, or another reader. It tells no bytes.
#[derive(Drop)]
pub struct StdSource<R> {
    reader: R,
    faults: u64,
}

impl<R> Model for StdSource<R> {
    ghost use Rattle.isl_io.specs.Outside.{Edge};

    ghost Value = { Edge R };

    ghost view = { λ s. record { inner = s.reader; faults = s.faults } };
}

impl<R: Read> StdSource<R> {
    pub fn new(reader: R) -> StdSource<R>
        ensures { result ≡ record { inner = reader; faults = 0 } }
    {
        StdSource { reader, faults: 0 }
    }
}

impl<R: Read> Source for StdSource<R> {
    ghost left = { λ _. None };

    ghost faults = { λ s. s.faults };

    fn read(&mut self, buf: &mut [u8]) -> Result<usize, Failed>
        requires { 0 < length buf.old }
        ensures fits { IfOk result (λ n. n ≤ length buf.new) }
        ensures passed_on { ReadConsumes (R.remaining self.old.inner) (R.remaining self.new.inner) result buf.new }
        ensures no_fewer_faults { self.old.faults ≤ self.new.faults }
        ensures counted { MatchResult result
            (λ _. self.new.faults ≡ self.old.faults)
            (λ _. self.new.faults ≡ risen self.old.faults) }
    {
        match self.reader.read(buf) {
            Ok(n) => Ok(n),
            Err(_) => {
                self.faults = self.faults.saturating_add(1);
                Err(Failed)
            }
        }
    }
}

/// Standard output or standard error, or another writer. It tells no bytes. Each write is flushed.
#[derive(Drop)]
pub struct StdSink<W> {
    writer: W,
    faults: u64,
}

impl<W> Model for StdSink<W> {
    ghost use Rattle.isl_io.specs.Outside.{Edge};

    ghost Value = { Edge W };

    ghost view = { λ s. record { inner = s.writer; faults = s.faults } };
}

impl<W: Write> StdSink<W> {
    pub fn new(writer: W) -> StdSink<W>
        ensures { result ≡ record { inner = writer; faults = 0 } }
    {
        StdSink { writer, faults: 0 }
    }
}

impl<W: Write> Sink for StdSink<W> {
    ghost written = { λ _. None };

    ghost faults = { λ s. s.faults };

    /// A write that takes nothing fails, and so does one whose bytes can't be flushed.
    fn write(&mut self, piece: &[u8]) -> Result<usize, Failed>
        requires { 0 < length piece.now }
        ensures fits { IfOk result (λ n. (0 < n) × (n ≤ length piece.now)) }
        ensures passed_on { IfOk result (λ n.
            Appends (W.contents self.old.inner) (W.contents self.new.inner) (take n piece.now)) }
        ensures passed_on_in_part { OnErr result ((n : ℕ)
            × Appends (W.contents self.old.inner) (W.contents self.new.inner) (take n piece.now)) }
        ensures no_fewer_faults { self.old.faults ≤ self.new.faults }
        ensures counted { MatchResult result
            (λ _. self.new.faults ≡ self.old.faults)
            (λ _. self.new.faults ≡ risen self.old.faults) }
    {
        let taken = match self.writer.write(piece) {
            Ok(n) => n,
            Err(_) => 0,
        };
        if taken == 0 || self.writer.flush().is_err() {
            self.faults = self.faults.saturating_add(1);
            return Err(Failed);
        }
        Ok(taken)
    }
}
