//! The lines of a script, read from a source in pieces.
//!
//! The bytes that were taken and not yet given lie in a buffer, in one piece. A call gives the line that they begin with, and
//! takes more only where they have no line feed. Of a line that is too long no byte is kept.
ghost use Rattle.std.specs.Prelude.{◌≡◌, ◌≢◌, ◌≤◌, ◌<◌, ◌+◌, ◌-◌, ◌++◌, ℕ, List, [], Option, Some, None, Ok, OnOk, MatchOption, length, take};
ghost use Rattle.std.specs.Str.Lines.{strip_carriage_return};
ghost use Rattle.std.specs.Io.KnownBytes.{IsAtEnd};
ghost use Rattle.tt_disk.specs.Faults.{HasCause};
ghost use Rattle.tt_flow.specs.PutsLine.{PutsLine};
ghost use Rattle.tt_flow.specs.LineBuf.{line_most};
ghost use Rattle.tt_flow.specs.Script.{script_most, buffer_size};

use crate::line_buf::LINE_MOST;
use crate::{LineBuf, Source};
use memchr::memchr;
use tt_disk::Failed;

// How many bytes of a script are taken.
const SCRIPT_MOST: u64 = 1 << 30;

// How many bytes are taken at once, at most.
const BUFFER: usize = 8192;

/// What was read.
#[derive(Clone, Copy, Debug, PartialEq, Eq)]
pub enum LineRead {
    /// A line, which now stands in the `LineBuf`.
    Line,
    /// A line of more than 4,096 bytes, which was skipped.
    TooLong,
    /// The input has ended, and each of its lines was given.
    End,
    /// More than 1,073,741,824 bytes came, and each line that ended within so many was given.
    ScriptTooLong,
}

// What is known of the source.
#[derive(Clone, Copy)]
enum Input {
    Open,
    Ended,
    Over,
}

// What a take from the source came to.
#[derive(Clone, Copy)]
enum Filled {
    More,
    NoMore,
    TooMany,
}

/// Reads the lines of a script, of 1,073,741,824 bytes at most, from a source.
#[derive(Drop)]
pub struct LineReader {
    buffer: [u8; 8192],
    // The bytes that were taken and not given lie from start to end.
    start: usize,
    end: usize,
    taken: u64,
    // Bytes of the line that stands at the start were dropped, since it is too long.
    skipping: bool,
    input: Input,
    ghost ordered: { start ≤ end },
    ghost within: { end ≤ buffer_size },
    ghost most: { taken ≤ script_most },
}

impl LineReader {
    ghost use Rattle.tt_flow.specs.Lines.{HasGiven, Reads, HoldsLine, IsLine, IsOver, HasNoFeed, bytes_to_come, kept_bytes, ReadsOn};
    ghost use Rattle.tt_flow.specs.Pieces.{IsFirstFeed, ChangesOnlyBuffer, KeepsGiven, GivesLine, ReadsPiece, IsPieceLine, Fills, ReadsPieceOn, FillsOn, TakesOn, TakesPastOn, HasNoMore};

    /// A reader that has read nothing.
    pub fn new() -> LineReader
        ensures { (script : List ℕ) → HasGiven script [] result script }
    {
        LineReader {
            buffer: [0; BUFFER],
            start: 0,
            end: 0,
            taken: 0,
            skipping: false,
            input: Input::Open,
        }
    }

    /// Reads the next line. It takes from the source only where no whole line is left of what was taken. After an `Err` it can be
    /// called again; after `ScriptTooLong` it answers the same from then on.
    pub fn next<S: Source>(
        &mut self,
        source: &mut S,
        line: &mut LineBuf,
    ) -> Result<LineRead, Failed>
        // What each answer says of the script, where the source tells what it has left.
        ensures read { ReadsOn self.old (S.left source.old) result line.new self.new (S.left source.new) }
        ensures buffered { HoldsLine self.old → source.new ≡ source.old }
        ensures fewer { IsLine result → bytes_to_come self.new < bytes_to_come self.old }
        ensures over { IsOver self.old → result ≡ Ok LineRead.ScriptTooLong }
        ensures stays { result ≡ Ok LineRead.ScriptTooLong → IsOver self.new }
        ensures cause { HasCause S.exact (S.faults source.old) (S.faults source.new) result }
    {
        if let Input::Over = self.input {
            return Ok(LineRead::ScriptTooLong);
        }
        match self.feed_from(0) {
            Some(at) => Ok(self.give(at, line)),
            None => self.next_taken(source, line),
        }
    }

    // Reads the next line, of which no line feed was taken yet.
    fn next_taken<S: Source>(
        &mut self,
        source: &mut S,
        line: &mut LineBuf,
    ) -> Result<LineRead, Failed>
        requires { HasNoFeed (kept_bytes self.old) }
        ensures read { ReadsOn self.old (S.left source.old) result line.new self.new (S.left source.new) }
        ensures fewer { IsLine result → bytes_to_come self.new < bytes_to_come self.old }
        ensures stays { result ≡ Ok LineRead.ScriptTooLong → IsOver self.new }
        ensures cause { HasCause S.exact (S.faults source.old) (S.faults source.new) result }
    {
        'pieces: loop {
            if let Some(answer) = self.next_piece(source, line)? {
                return Ok(answer);
            }
        }
    }

    // Takes once, and gives the line that then ended, if one did.
    fn next_piece<S: Source>(
        &mut self,
        source: &mut S,
        line: &mut LineBuf,
    ) -> Result<Option<LineRead>, Failed>
        requires { HasNoFeed (kept_bytes self.old) }
        ensures read { ReadsPieceOn self.old (S.left source.old) result line.new self.new (S.left source.new) }
        ensures goes_on { result ≡ Ok None → HasNoFeed (kept_bytes self.new) × (self.old.taken < self.new.taken) }
        ensures bound { OnOk result (bytes_to_come self.new ≤ bytes_to_come self.old) }
        ensures fewer { IsPieceLine result → bytes_to_come self.new < bytes_to_come self.old }
        ensures stays { result ≡ Ok (Some LineRead.ScriptTooLong) → IsOver self.new }
        ensures cause { HasCause S.exact (S.faults source.old) (S.faults source.new) result }
    {
        let searched = self.drop_long();
        match self.fill(source)? {
            Filled::More => match self.feed_from(searched) {
                Some(at) => Ok(Some(self.give(at, line))),
                None => Ok(None),
            },
            Filled::NoMore => Ok(Some(self.give_last(line))),
            Filled::TooMany => Ok(Some(LineRead::ScriptTooLong)),
        }
    }

    // Where the first line feed of the kept bytes stands, of which so many were searched before.
    fn feed_from(&self, searched: usize) -> Option<usize>
        requires within { searched ≤ length (kept_bytes self.now) }
        requires none { HasNoFeed (take searched (kept_bytes self.now)) }
        ensures { MatchOption result (HasNoFeed (kept_bytes self.now)) (IsFirstFeed (kept_bytes self.now)) }
    {
        let kept = &self.buffer[self.start..self.end];
        match memchr(b'\n', &kept[searched..]) {
            Some(further) => Some(searched + further),
            None => None,
        }
    }

    // Gives the line whose line feed stands here.
    fn give(&mut self, at: usize, line: &mut LineBuf) -> LineRead
        requires { IsFirstFeed (kept_bytes self.old) at }
        ensures read { GivesLine self.old result line.new self.new }
        ensures is_line { IsLine (Ok result) }
        ensures fewer { bytes_to_come self.new < bytes_to_come self.old }
    {
        let body = without_return(&self.buffer[self.start..self.start + at]);
        let answer = put_line(body, self.skipping, line);
        self.start += at + 1;
        self.skipping = false;
        answer
    }

    // At the end of input, gives the last line, if it had no line feed.
    fn give_last(&mut self, line: &mut LineBuf) -> LineRead
        requires ended { self.old.input ≡ Input.Ended }
        requires none { HasNoFeed (kept_bytes self.old) }
        ensures read { GivesLine self.old result line.new self.new }
        ensures not_over { result ≢ LineRead.ScriptTooLong }
        ensures bound { bytes_to_come self.new ≤ bytes_to_come self.old }
        ensures fewer { IsLine (Ok result) → bytes_to_come self.new < bytes_to_come self.old }
    {
        if self.start == self.end && !self.skipping {
            return LineRead::End;
        }
        let answer = put_line(&self.buffer[self.start..self.end], self.skipping, line);
        self.start = self.end;
        self.skipping = false;
        answer
    }

    // Of a line that is too long whatever follows it keeps no byte. Answers how many bytes it keeps.
    fn drop_long(&mut self) -> usize
        requires { HasNoFeed (kept_bytes self.old) }
        ensures count { result ≡ length (kept_bytes self.new) }
        ensures given { KeepsGiven self.old self.new }
        ensures none { HasNoFeed (kept_bytes self.new) }
        ensures few { self.new.end - self.new.start < line_most + 2 }
        ensures taken { self.new.taken ≡ self.old.taken }
        ensures bound { bytes_to_come self.new ≤ bytes_to_come self.old }
    {
        let kept = self.end - self.start;
        if !self.skipping && kept <= LINE_MOST + 1 {
            return kept;
        }
        self.start = 0;
        self.end = 0;
        self.skipping = true;
        0
    }

    // Takes from the source, and puts it after the kept bytes.
    fn fill<S: Source>(&mut self, source: &mut S) -> Result<Filled, Failed>
        requires none { HasNoFeed (kept_bytes self.old) }
        requires few { self.old.end - self.old.start < line_most + 2 }
        ensures read { FillsOn self.old (S.left source.old) result self.new (S.left source.new) }
        ensures kept { (bytes : List ℕ) × (kept_bytes self.new ≡ kept_bytes self.old ++ bytes) }
        ensures bound { bytes_to_come self.new ≤ bytes_to_come self.old }
        ensures more { result ≡ Ok Filled.More → self.old.taken < self.new.taken }
        ensures no_more { result ≡ Ok Filled.NoMore → HasNoMore self.old self.new }
        ensures too_many { result ≡ Ok Filled.TooMany → IsOver self.new }
        ensures cause { HasCause S.exact (S.faults source.old) (S.faults source.new) result }
    {
        match self.input {
            Input::Ended => Ok(Filled::NoMore),
            Input::Over => Ok(Filled::TooMany),
            Input::Open if self.taken == SCRIPT_MOST => self.take_past(source),
            Input::Open => {
                self.make_room();
                self.take_more(source)
            }
        }
    }

    // Makes room after the kept bytes.
    fn make_room(&mut self)
        requires { self.old.end - self.old.start < line_most + 2 }
        ensures kept { kept_bytes self.new ≡ kept_bytes self.old }
        ensures room { self.new.end < buffer_size }
        ensures unchanged { ChangesOnlyBuffer self.old self.new }
        ensures bound { bytes_to_come self.new ≤ bytes_to_come self.old }
    {
        if self.start == self.end {
            self.start = 0;
            self.end = 0;
        } else if self.end == BUFFER {
            self.buffer.copy_within(self.start..self.end, 0);
            self.end -= self.start;
            self.start = 0;
        }
    }

    // Takes as much as there is room for.
    fn take_more<S: Source>(&mut self, source: &mut S) -> Result<Filled, Failed>
        requires open { self.old.input ≡ Input.Open }
        requires room { self.old.end < buffer_size }
        requires most { self.old.taken < script_most }
        ensures took { TakesOn self.old (S.left source.old) result self.new (S.left source.new) }
        ensures end { result ≡ Ok Filled.NoMore → IsAtEnd (S.left source.new) }
        ensures bound { bytes_to_come self.new ≤ bytes_to_come self.old }
        ensures cause { HasCause S.exact (S.faults source.old) (S.faults source.new) result }
    {
        let room = (BUFFER - self.end).min((SCRIPT_MOST - self.taken) as usize);
        let count = source.take(&mut self.buffer[self.end..self.end + room])?;
        if count == 0 {
            self.input = Input::Ended;
            return Ok(Filled::NoMore);
        }
        self.end += count;
        self.taken += count as u64;
        Ok(Filled::More)
    }

    // Takes one byte more than a script has.
    fn take_past<S: Source>(&mut self, source: &mut S) -> Result<Filled, Failed>
        requires { self.old.input ≡ Input.Open }
        ensures took { TakesPastOn self.old (S.left source.old) result self.new (S.left source.new) }
        ensures end { result ≡ Ok Filled.NoMore → IsAtEnd (S.left source.new) }
        ensures bound { bytes_to_come self.new ≤ bytes_to_come self.old }
        ensures cause { HasCause S.exact (S.faults source.old) (S.faults source.new) result }
    {
        let mut one = [0];
        if source.take(&mut one)? == 0 {
            self.input = Input::Ended;
            return Ok(Filled::NoMore);
        }
        self.input = Input::Over;
        Ok(Filled::TooMany)
    }
}

// A line without the one carriage return at its end, if it has one.
fn without_return(line: &[u8]) -> &[u8]
    ensures { result.now ≡ strip_carriage_return line.now }
{
    let length = line.len();
    if length > 0 && line[length - 1] == b'\r' {
        return &line[..length - 1];
    }
    line
}

// Puts the line, unless it is too long or bytes of it were dropped.
fn put_line(body: &[u8], skipping: bool, line: &mut LineBuf) -> LineRead
    ensures { PutsLine body.now skipping result line.new }
{
    if skipping || body.len() > LINE_MOST {
        return LineRead::TooLong;
    }
    line.set(body);
    LineRead::Line
}

#[cfg(test)]
mod tests;
