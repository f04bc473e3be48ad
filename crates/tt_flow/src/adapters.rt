//! Readers and writers of std as streams. A call that was interrupted is made again, and each piece that is written is flushed.
ghost use Rattle.std.specs.Prelude.{◌≡◌, ◌≤◌, ◌<◌, ℕ, List, length, take, OnErr};
ghost use Rattle.std.specs.Io.{ReadsAtMost};
ghost use Rattle.std.specs.Io.KnownBytes.{ReadConsumes, Appends};

use crate::{Sink, Source};
use std::io::{ErrorKind, Read, Write};
use tt_disk::Failed;

/// A source over a reader. Reads that were interrupted are tried again.
#[derive(Drop)]
pub struct ReadSource<R> {
    reader: R,
    faults: u64,
}

/// A sink over a writer. Writes that were interrupted or short go on, and each piece is flushed.
#[derive(Drop)]
pub struct WriteSink<W> {
    writer: W,
    faults: u64,
}

impl<R: Read> ReadSource<R> {
    /// A source of the bytes that the reader has left.
    pub fn new(reader: R) -> ReadSource<R>
        ensures left { ⟦<ReadSource<R> as Source>⟧.left result ≡ R.remaining reader }
        ensures faults { ⟦<ReadSource<R> as Source>⟧.faults result ≡ 0 }
    {
        ReadSource { reader, faults: 0 }
    }
}

impl<R: Read> Source for ReadSource<R> {
    ghost left = { λ s. R.remaining s.reader };

    ghost faults = { λ s. s.faults };

    ghost exact = { Unit {0} };

    fn take(&mut self, buf: &mut [u8]) -> Result<usize, Failed> {
        match read_once(&mut self.reader, buf) {
            Ok(count) => Ok(count),
            Err(failed) => {
                self.faults = self.faults.saturating_add(1);
                Err(failed)
            }
        }
    }
}

impl<W: Write> WriteSink<W> {
    /// A sink that appends to what the writer holds.
    pub fn new(writer: W) -> WriteSink<W>
        ensures given { ⟦<WriteSink<W> as Sink>⟧.given result ≡ W.contents writer }
        ensures faults { ⟦<WriteSink<W> as Sink>⟧.faults result ≡ 0 }
    {
        WriteSink { writer, faults: 0 }
    }
}

impl<W: Write> Sink for WriteSink<W> {
    ghost given = { λ s. W.contents s.writer };

    ghost faults = { λ s. s.faults };

    ghost exact = { Unit {0} };

    fn put(&mut self, piece: &[u8]) -> Result<(), Failed> {
        let count = write_piece(&mut self.writer, piece);
        if count < piece.len() || self.writer.flush().is_err() {
            self.faults = self.faults.saturating_add(1);
            return Err(Failed);
        }
        Ok(())
    }
}

// Reads once, in as many tries as it takes where reads are interrupted.
fn read_once<R: Read>(reader: &mut R, buf: &mut [u8]) -> Result<usize, Failed>
    ensures bound { ReadsAtMost result buf.new }
    ensures bytes { ReadConsumes (R.remaining reader.old) (R.remaining reader.new) result buf.new }
{
    'tries: for _ in 0..u64::MAX {
        match reader.read(buf) {
            Ok(count) => return Ok(count),
            Err(error) => {
                if error.kind() != ErrorKind::Interrupted {
                    return Err(Failed);
                }
            }
        }
    }
    Err(Failed)
}

// Writes the piece, in as many calls as it takes, and answers how many bytes of it were written: all, unless a call failed.
fn write_piece<W: Write>(writer: &mut W, piece: &[u8]) -> usize
    ensures within { result ≤ length piece.now }
    ensures bytes { Appends (W.contents writer.old) (W.contents writer.new) (take result piece.now) }
{
    let mut at = 0;
    'calls: for _ in 0..u64::MAX {
        if at == piece.len() {
            return at;
        }
        match writer.write(&piece[at..]) {
            Ok(0) => return at,
            Ok(count) => at += count,
            Err(error) => {
                if error.kind() != ErrorKind::Interrupted {
                    return at;
                }
            }
        }
    }
    at
}
