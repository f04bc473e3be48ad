//! Where the entries of a body start: a position from which a log is opened must be one of these offsets, or the end.
ghost use Rattle.std.specs.Prelude.{◌≡◌, ◌<◌, ◌≤◌, List, length, drop, IfOk, IfErr, IfSome, Some, None};
ghost use Rattle.tt_record.specs.Read.{entry_at, entries_of};
ghost use Rattle.tt_record.specs.declared.entry.Entry.{Entry};
ghost use Rattle.tt_log.specs.Opening.{HasEntry, TellsStart, starts_at};

use crate::body::read_entry_at;
use crate::refusal::LogRefusal;
use std::alloc::{AllocError, Global};

// The length of the entry at an offset.
fn entry_length_at(alloc: Global, bytes: &[u8], at: usize) -> Result<Option<usize>, AllocError>
    requires { at ≤ length bytes.now }
    ensures some { IfOk result (λ o. IfSome o (λ n. HasEntry bytes.now at n)) }
    ensures none { IfOk result (λ o. o ≡ None → entry_at (drop at bytes.now) ≡ None) }
{
    match read_entry_at(alloc, bytes, at)? {
        Some((_, n)) => Ok(Some(n)),
        None => Ok(None),
    }
}

// Whether one of the entries of a body starts at an offset.
fn starts_in(alloc: Global, bytes: &[u8], wanted: usize) -> Result<bool, AllocError>
    requires { wanted < length bytes.now }
    ensures { IfOk result (λ b. (es : List Entry) → entries_of bytes.now ≡ Some es → b ≡ starts_at wanted 0 es) }
{
    let mut at = 0;
    'entries: while at < wanted {
        match entry_length_at(alloc, bytes, at)? {
            Some(n) => at += n,
            None => return Ok(false),
        }
    }
    Ok(at == wanted)
}

// Whether one of the entries of a body starts at an offset of the file, where the body's first one stands at another.
pub(crate) fn body_starts(
    alloc: Global,
    bytes: &[u8],
    offset: u32,
    wanted: u32,
) -> Result<bool, LogRefusal>
    ensures starts { IfOk result (λ starts. TellsStart wanted offset bytes.now starts) }
    ensures refused { IfErr result (λ e. e ≡ LogRefusal.NoMemory) }
{
    if wanted < offset {
        return Ok(false);
    }
    let at = (wanted - offset) as usize;
    if at >= bytes.len() {
        return Ok(false);
    }
    match starts_in(alloc, bytes, at) {
        Ok(starts) => Ok(starts),
        Err(_) => Err(LogRefusal::NoMemory),
    }
}
