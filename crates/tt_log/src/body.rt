//! The body of a batch, entry by entry: entries without a Switch, or one Switch alone.
ghost use Rattle.std.specs.Prelude.{◌≡◌, ◌<◌, ◌≤◌, ◌+◌, length, drop, IfOk, IfSome, if◌then◌else◌};
ghost use Rattle.tt_record.specs.declared.entry.Entry.TheVariants.{Switch};
ghost use Rattle.tt_record.specs.Entry.{BeginsWith, length_of};
ghost use Rattle.tt_value.specs.BigEndianLaws.{AreBytes};
ghost use Rattle.tt_record.specs.Read.{entry_at, entries_of};
ghost use Rattle.tt_log.specs.Body.{SoFar, IsStep, body_in, switch_of};
ghost use Rattle.tt_log.specs.Walk.{switches_to};

use std::alloc::{AllocError, Global};
use tt_record::{Entry, LOG_FILES_END, read_entry};

#[derive(Clone, Copy, Debug, PartialEq, Eq)]
pub(crate) enum Body {
    Entries { total: u64 },
    NextFile,
    Bad,
}

// What a body of the one Switch is.
fn classify_switch(number: u32, file: u32) -> Body
    ensures { result ≡ (if switches_to number (Switch file) then Body.NextFile else Body.Bad) }
{
    if number >= LOG_FILES_END - 1 {
        return Body::Bad;
    }
    if file != number + 1 {
        return Body::Bad;
    }
    Body::NextFile
}

// The bytes from an offset on.
fn behind(bytes: &[u8], at: usize) -> &[u8]
    requires { at ≤ length bytes.now }
    ensures { result.now ≡ drop at bytes.now }
{
    &bytes[at..]
}

// The entry at an offset, and its length.
pub(crate) fn read_entry_at(
    alloc: Global,
    bytes: &[u8],
    at: usize,
) -> Result<Option<(Entry, usize)>, AllocError>
    requires { at ≤ length bytes.now }
    ensures first { IfOk result (λ o. o ≡ entry_at (drop at bytes.now)) }
    ensures within { IfOk result (λ o. IfSome o (λ p. (1 ≤ p.1) × (at + p.1 ≤ length bytes.now))) }
    ensures long { IfOk result (λ o. IfSome o (λ p. p.1 ≡ length_of p.0)) }
    ensures begins { IfOk result (λ o. IfSome o (λ p. BeginsWith (drop at bytes.now) p.0)) }
{
    read_entry(alloc, behind(bytes, at))
}

// The file that a Switch names.
fn next_file_of(entry: &Entry) -> Option<u32>
    ensures { result ≡ switch_of entry.now }
{
    match entry {
        Entry::Switch { file } => Some(*file),
        _ => None,
    }
}

// What is known of a body behind one more entry: what it is, or where the next entry begins.
#[derive(Clone, Copy, Debug, PartialEq, Eq)]
enum Step {
    Ends(Body),
    Goes(usize),
}

// Reads one more entry of a body.
fn read_step(alloc: Global, number: u32, bytes: &[u8], at: usize) -> Result<Step, AllocError>
    requires inside { at < length bytes.now }
    requires so_far { SoFar bytes.now at }
    ensures { IfOk result (λ step. IsStep number bytes.now at step) }
{
    let Some((entry, n)) = read_entry_at(alloc, bytes, at)? else {
        return Ok(Step::Ends(Body::Bad));
    };
    let Some(file) = next_file_of(&entry) else {
        return Ok(Step::Goes(at + n));
    };
    if at > 0 {
        return Ok(Step::Ends(Body::Bad));
    }
    if n < bytes.len() {
        return Ok(Step::Ends(Body::Bad));
    }
    Ok(Step::Ends(classify_switch(number, file)))
}

// What a batch's body is, in the file of this number.
pub(crate) fn body_of(alloc: Global, number: u32, bytes: &[u8]) -> Result<Body, AllocError>
    ensures body { IfOk result (λ body. body ≡ body_in number (entries_of bytes.now)) }
    ensures bytes { AreBytes bytes.now }
{
    let mut at = 0;
    'entries: while at < bytes.len() {
        match read_step(alloc, number, bytes, at)? {
            Step::Ends(body) => return Ok(body),
            Step::Goes(next) => at = next,
        }
    }
    Ok(Body::Entries {
        total: bytes.len() as u64,
    })
}
