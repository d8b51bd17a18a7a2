//! A source of bytes and a sink for bytes, as generic code sees them.

ghost use Rattle.std.specs.Prelude.{◌≡◌, ◌<◌, ◌≤◌, List, ℕ, length, Option, IfOk, OnOk, OnErr};
ghost use Rattle.std.specs.Io.KnownBytes.{ReadConsumes, WriteAppends};
ghost use Rattle.isl_math.specs.Count.{Rose};

/// A read or a write failed.
#[derive(Clone, Copy, PartialEq, Eq)]
pub struct Failed;

/// Gives bytes, one piece after another.
///
/// A source may tell which bytes it will give, as one over memory does, or not, as standard input does.
/// A source that tells them goes on telling them.
pub trait Source {
    /// The bytes that reads will give from here on, where they are told.
    ghost left: { Self → Option (List ℕ) };

    /// How often a read has failed. The count may stand still at the last value of a `u64`.
    ghost faults: { Self → ℕ };

    /// Moves bytes that are left into the front of `buf`, which is not empty, and answers how many.
    /// `Ok(0)` says that nothing is left. A read that fails takes no byte.
    fn read(&mut self, buf: &mut [u8]) -> Result<usize, Failed>
        requires { 0 < length buf.old }
        ensures fits { IfOk result (λ n. n ≤ length buf.new) }
        ensures bytes { ReadConsumes (left self.old) (left self.new) result buf.new }
        ensures kept { OnOk result (faults self.new ≡ faults self.old) }
        ensures no_fewer_faults { faults self.old ≤ faults self.new }
        ensures fault { OnErr result (Rose (faults self.old) (faults self.new)) };
}

/// Takes bytes, one piece after another.
///
/// A sink may tell which bytes were written to it, as one over memory does, or not, as standard output does.
/// A sink that tells them goes on telling them.
pub trait Sink {
    /// The bytes that were written so far, where they are told.
    ghost written: { Self → Option (List ℕ) };

    /// How often a write has failed. The count may stand still at the last value of a `u64`.
    ghost faults: { Self → ℕ };

    /// Appends a front of `piece`, which is not empty, and answers its length, which is at least 1.
    /// A write that fails appends no byte.
    fn write(&mut self, piece: &[u8]) -> Result<usize, Failed>
        requires { 0 < length piece.now }
        ensures fits { IfOk result (λ n. (0 < n) × (n ≤ length piece.now)) }
        ensures bytes { WriteAppends (written self.old) (written self.new) result piece.now }
        ensures kept { OnOk result (faults self.new ≡ faults self.old) }
        ensures no_fewer_faults { faults self.old ≤ faults self.new }
        ensures fault { OnErr result (Rose (faults self.old) (faults self.new)) };
}
