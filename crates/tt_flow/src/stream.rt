//! Streams of bytes: what is read from and written to, with a count of faults.
ghost use Rattle.std.specs.Prelude.{◌≡◌, ℕ, List, take, OnOk, OnErr};
ghost use Rattle.std.specs.declared.option.Option.{Option};
ghost use Rattle.std.specs.Io.{ReadsAtMost};
ghost use Rattle.std.specs.Io.KnownBytes.{ReadConsumes, Appends};
ghost use Rattle.tt_disk.specs.Faults.{HasCause};

use tt_disk::Failed;

/// A stream of bytes that comes in.
pub trait Source {
    /// What is left, where the source tells it.
    ghost left: { Self → Option (List ℕ) };

    /// The count of failures. It never falls, and rises where a call of the source fails, as that of a volume does.
    ghost faults: { Self → ℕ };

    /// The count is exact: it stays where a call is answered.
    ghost exact: { Type 0 };

    /// Fills the buffer's front, and answers how many bytes it gave. At a buffer that isn't empty, 0 comes at the end of input
    /// alone. A call that fails takes nothing.
    fn take(&mut self, buf: &mut [u8]) -> Result<usize, Failed>
        ensures bound { ReadsAtMost result buf.new }
        ensures bytes { ReadConsumes (left self.old) (left self.new) result buf.new }
        ensures cause { HasCause exact (faults self.old) (faults self.new) result };
}

/// A stream of bytes that goes out.
pub trait Sink {
    /// What was appended, where the sink tells it.
    ghost given: { Self → Option (List ℕ) };

    /// The count of failures. It never falls, and rises where a call of the sink fails, as that of a volume does.
    ghost faults: { Self → ℕ };

    /// The count is exact: it stays where a call is answered.
    ghost exact: { Type 0 };

    /// Appends the piece. A call that fails has appended a prefix of it.
    fn put(&mut self, piece: &[u8]) -> Result<(), Failed>
        ensures whole { OnOk result (Appends (given self.old) (given self.new) piece.now) }
        ensures prefix { OnErr result ((n : ℕ) × Appends (given self.old) (given self.new) (take n piece.now)) }
        ensures cause { HasCause exact (faults self.old) (faults self.new) result };
}
