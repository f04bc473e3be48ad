//! What is handed the entries of a log while the log is opened, so that each file is read once.
ghost use Rattle.std.specs.Prelude.{◌+◌, ◌≤◌, [], ◌∷◌, List, length, IfOk, OnOk};
ghost use Rattle.tt_value.specs.declared.position.Position.{Position};
ghost use Rattle.tt_record.specs.declared.entry.Entry.{Entry};
ghost use Rattle.tt_record.specs.Entry.{IsEntry};
ghost use Rattle.tt_log.specs.Limits.{file_most};
ghost use Rattle.tt_log.specs.Visitor.{Visits, VisitsBody, VisitsNext};

use crate::body::read_entry_at;
use std::alloc::{AllocError, Global};
use tt_record::Entry;
use tt_value::Position;

/// What takes the entries of a log, each with its position, one after another.
pub trait EntryVisitor {
    /// It stands for these entries, which it has taken.
    ghost visited: { Self → List (Position × Entry) → Type 0 };

    /// Visits one more entry. Where memory is wanting, what it stands for isn't known any more.
    fn visit(&mut self, at: Position, entry: Entry) -> Result<(), AllocError>
        requires entry { IsEntry entry }
        ensures visited { OnOk result (Visits (visited self.old) (visited self.new) ((at, entry) ∷ [])) };
}

// Keeps nothing.
#[derive(Debug, Drop)]
pub(crate) struct Ignorer;

impl EntryVisitor for Ignorer {
    ghost visited = { λ dropper ps. Unit {0} };

    fn visit(&mut self, _: Position, _: Entry) -> Result<(), AllocError> {
        Ok(())
    }
}

// Hands over the entry at an offset of a body, and answers how many bytes it has; `None` where no entry begins.
fn visit_entry<T: EntryVisitor>(
    alloc: Global,
    bytes: &[u8],
    at: usize,
    place: Position,
    visitor: &mut T,
) -> Result<Option<usize>, AllocError>
    requires { at ≤ length bytes.now }
    ensures visits { IfOk result (VisitsNext T.visited visitor.old visitor.new bytes.now at place) }
{
    match read_entry_at(alloc, bytes, at)? {
        Some((entry, n)) => {
            visitor.visit(place, entry)?;
            Ok(Some(n))
        }
        None => Ok(None),
    }
}

// Hands over the entries of a body, of which the first stands at this offset of its file.
pub(crate) fn visit_body<T: EntryVisitor>(
    alloc: Global,
    bytes: &[u8],
    file: u32,
    offset: u32,
    visitor: &mut T,
) -> Result<(), AllocError>
    requires room { offset + length bytes.now ≤ file_most }
    ensures given { OnOk result (VisitsBody T.visited visitor.old visitor.new file offset bytes.now) }
{
    let mut at = 0;
    'entries: while at < bytes.len() {
        let place = Position {
            file,
            offset: offset + at as u32,
        };
        match visit_entry(alloc, bytes, at, place, visitor)? {
            Some(n) => at += n,
            None => return Ok(()),
        }
    }
    Ok(())
}
