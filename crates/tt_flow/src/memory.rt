//! Streams in memory, whose calls fail where they are told to.
ghost use Rattle.std.specs.Prelude.{◌≡◌, ◌==◌, ◌≤◌, ◌/◌, ◌++◌, ◌⊎◌, ℕ, List, [], Some, true, false, IsOk, IsErr, OnErr, OnOk, IfOk, length, take, min, vec_len};
ghost use Rattle.std.specs.List.{list_any};
ghost use Rattle.std.specs.Io.{ReadsAtMost};
ghost use Rattle.std.specs.Io.KnownBytes.{ReadConsumes};
ghost use Rattle.tt_disk.specs.Faults.{HasCause};
ghost use Rattle.tt_disk.specs.Failing.{fails_at, fails_next, calls_made, IsCounted};

use crate::{Sink, Source};
use std::alloc::Global;
use tt_disk::{Failed, FailingCalls};

/// Gives the bytes of a list. The calls of chosen numbers fail, where the first call is 0.
#[derive(Drop)]
pub struct MemSource {
    bytes: Vec<u8>,
    // How many bytes were taken.
    at: usize,
    calls: FailingCalls,
    ghost within: { at ≤ vec_len bytes },
}

impl MemSource {
    ghost use Rattle.tt_flow.specs.Memory.{source_calls};

    /// A source of these bytes, of which the calls of these numbers fail, and take nothing.
    pub fn new(bytes: Vec<u8>, failing: Vec<u64>) -> MemSource
        ensures left { ⟦<MemSource as Source>⟧.left result ≡ Some bytes.items }
        ensures plan { (n : ℕ) → fails_at (source_calls result) n ≡ list_any (λ call. call == n) failing.items }
        ensures calls { calls_made (source_calls result) ≡ 0 }
        ensures faults { ⟦<MemSource as Source>⟧.faults result ≡ 0 }
    {
        MemSource {
            bytes,
            at: 0,
            calls: FailingCalls::at_calls(failing),
        }
    }
}

impl Source for MemSource {
    ghost use Rattle.tt_flow.specs.Memory.{source_left, source_calls, source_faults};
    ghost use Rattle.std.specs.Prelude.{Some};

    ghost left = { λ s. Some (source_left s) };

    ghost faults = { λ s. source_faults s };

    ghost exact = { Unit {0} };

    fn take(&mut self, buf: &mut [u8]) -> Result<usize, Failed>
        ensures bound { ReadsAtMost result buf.new }
        ensures bytes { ReadConsumes (Some (source_left self.old)) (Some (source_left self.new)) result buf.new }
        ensures cause { HasCause (Unit {0}) (source_faults self.old) (source_faults self.new) result }
        ensures counted { IsCounted (source_calls self.old) (source_calls self.new) result }
        ensures unplanned { fails_next (source_calls self.old) ≡ false → IsOk result }
        // It fills the buffer where so many bytes are left.
        ensures full { IfOk result (λ n. n ≡ min (length buf.new) (length (source_left self.old))) }
    {
        let fails = self.calls.begin();
        let answer = self.give(buf, fails);
        self.calls.end(answer)
    }
}

impl MemSource {
    ghost use Rattle.tt_flow.specs.Memory.{source_left};

    // Takes without the count of calls.
    fn give(&mut self, buf: &mut [u8], fails: bool) -> Result<usize, Failed>
        ensures bound { ReadsAtMost result buf.new }
        ensures bytes { ReadConsumes (Some (source_left self.old)) (Some (source_left self.new)) result buf.new }
        ensures calls { self.new.calls ≡ self.old.calls }
        ensures planned { fails ≡ true → IsErr result }
        ensures unplanned { fails ≡ false → IsOk result }
        ensures full { IfOk result (λ n. n ≡ min (length buf.new) (length (source_left self.old))) }
    {
        if fails {
            return Err(Failed);
        }
        let count = buf.len().min(self.bytes.len() - self.at);
        buf[..count].copy_from_slice(&self.bytes[self.at..self.at + count]);
        self.at += count;
        Ok(count)
    }
}

/// Keeps the bytes that it is given. The calls of chosen numbers fail, where the first call is 0.
#[derive(Drop)]
pub struct MemSink {
    bytes: Vec<u8>,
    calls: FailingCalls,
}

impl MemSink {
    ghost use Rattle.tt_flow.specs.Memory.{sink_calls};

    /// A sink that was given nothing. Its calls of these numbers fail, and append the first half of their piece where memory allows.
    pub fn new(alloc: Global, failing: Vec<u64>) -> MemSink
        ensures given { ⟦<MemSink as Sink>⟧.given result ≡ Some [] }
        ensures plan { (n : ℕ) → fails_at (sink_calls result) n ≡ list_any (λ call. call == n) failing.items }
        ensures calls { calls_made (sink_calls result) ≡ 0 }
        ensures faults { ⟦<MemSink as Sink>⟧.faults result ≡ 0 }
    {
        MemSink {
            bytes: Vec::new(alloc),
            calls: FailingCalls::at_calls(failing),
        }
    }

    /// The bytes that were given.
    pub fn bytes(&self) -> &[u8]
        ensures { ⟦<MemSink as Sink>⟧.given self.now ≡ Some result.now }
    {
        &self.bytes
    }
}

impl Sink for MemSink {
    ghost use Rattle.tt_flow.specs.Memory.{sink_given, sink_calls, sink_faults, AppendsPiece, AppendsPrefix, IsHalfGiven};
    ghost use Rattle.std.specs.Prelude.{Some};

    ghost given = { λ s. Some (sink_given s) };

    ghost faults = { λ s. sink_faults s };

    ghost exact = { Unit {0} };

    fn put(&mut self, piece: &[u8]) -> Result<(), Failed>
        ensures whole { OnOk result (AppendsPiece piece.now self.old self.new) }
        ensures prefix { OnErr result (AppendsPrefix piece.now self.old self.new) }
        ensures cause { HasCause (Unit {0}) (sink_faults self.old) (sink_faults self.new) result }
        ensures counted { IsCounted (sink_calls self.old) (sink_calls self.new) result }
        // A call that is to fail appends the first half of its piece, where memory allows; any other that fails appends nothing.
        ensures half { fails_next (sink_calls self.old) ≡ true → IsHalfGiven piece.now self.old self.new }
        ensures none { fails_next (sink_calls self.old) ≡ false → OnErr result (sink_given self.new ≡ sink_given self.old) }
    {
        let fails = self.calls.begin();
        let answer = self.append(piece, fails);
        self.calls.end(answer)
    }
}

impl MemSink {
    ghost use Rattle.tt_flow.specs.Memory.{sink_given, IsHalfGiven};

    // Puts without the count of calls.
    fn append(&mut self, piece: &[u8], fails: bool) -> Result<(), Failed>
        ensures whole { OnOk result (sink_given self.new ≡ sink_given self.old ++ piece.now) }
        ensures calls { self.new.calls ≡ self.old.calls }
        ensures planned { fails ≡ true → IsErr result }
        ensures half { fails ≡ true → IsHalfGiven piece.now self.old self.new }
        ensures none { fails ≡ false → OnErr result (sink_given self.new ≡ sink_given self.old) }
    {
        if fails {
            let _ = self.bytes.extend_from_slice(&piece[..piece.len() / 2]);
            return Err(Failed);
        }
        self.bytes.extend_from_slice(piece).map_err(|_| Failed)
    }
}
