//! The entries of a log file, from its first gate to its last. Each batch is read once, and its entries are handed to a
//! visitor before the next one is read.
ghost use Rattle.std.specs.Prelude.{◌≡◌, ◌<◌, ◌≤◌, ◌+◌, ◌||◌, ◌==◌, length, IfOk, IfErr, IsErrOf, OnOk};
ghost use Rattle.tt_disk.specs.Calls.{KeepsFiles};
ghost use Rattle.tt_gate.specs.Calls.{RoseWhereOn};
ghost use Rattle.tt_gate.specs.Limits.{longest_file};
ghost use Rattle.tt_log.specs.Batch.{IsHeaded};
ghost use Rattle.tt_log.specs.Calls.{OfFile, VisitsFileOn};
ghost use Rattle.tt_log.specs.File.{IsBehind, IsFileEnd, IsReached, IsInRange, HasRead, StepsWithin, Closes, ClosesIfEnded};
ghost use Rattle.tt_log.specs.Limits.{file_most};
ghost use Rattle.tt_log.specs.Visitor.{VisitsBatch, VisitsBody};
ghost use Rattle.tt_log.specs.Walk.{file_read};
ghost use Rattle.tt_log.specs.declared.refusal.LogRefusal.TheVariants.{Failed};

use crate::batch::{Batch, check_header, read_batch};
use crate::entry_offsets::body_starts;
use crate::refusal::LogRefusal;
use crate::visitor::{EntryVisitor, visit_body};
use std::alloc::Global;
use tt_disk::Volume;

// What was found of a file.
#[derive(Clone, Copy, Debug)]
pub(crate) struct FileEnd {
    // How many bytes its entries have, the Switch not counted.
    pub total: u32,
    // Whether a Switch ends them.
    pub switched: bool,
    // Whether the offset that was asked for is the start of an entry, or the end of all.
    pub is_place: bool,
    // Where the gate behind them lies. It is closed, unless a Switch stands behind it.
    pub gate: u64,
}

// How far a file was read.
#[derive(Clone, Copy, Debug)]
pub(crate) struct FileCursor {
    gate: u64,
    offset: u32,
    // Whether an entry that was read starts at the offset that was asked for.
    starts: bool,
}

#[derive(Clone, Copy, Debug)]
pub(crate) enum BatchStep {
    On(FileCursor),
    Ends(FileEnd),
}

// Hands over the entries of a batch of these bytes, and goes on behind it.
fn deliver_batch<T: EntryVisitor>(
    alloc: Global,
    number: u32,
    wanted: u32,
    at: FileCursor,
    body: &[u8],
    visitor: &mut T,
) -> Result<FileCursor, LogRefusal>
    requires inside { at.gate + 9 + length body.now < longest_file }
    requires room { at.offset + length body.now ≤ file_most }
    ensures behind { IfOk result (λ next. IsBehind wanted at body.now next) }
    ensures given { OnOk result (VisitsBody T.visited visitor.old visitor.new number at.offset body.now) }
    ensures refused { IfErr result (λ e. e ≡ LogRefusal.NoMemory) }
{
    if let Err(_) = visit_body(alloc, body, number, at.offset, visitor) {
        return Err(LogRefusal::NoMemory);
    }
    match body_starts(alloc, body, at.offset, wanted) {
        Ok(starts) => Ok(FileCursor {
            gate: at.gate + 9 + body.len() as u64,
            offset: at.offset + body.len() as u32,
            starts: at.starts || starts,
        }),
        Err(refusal) => Err(refusal),
    }
}

fn end_at(at: FileCursor, wanted: u32, switched: bool) -> FileEnd
    ensures total { result.total ≡ at.offset }
    ensures switched { result.switched ≡ switched }
    ensures place { result.is_place ≡ (at.starts || (at.offset == wanted)) }
    ensures gate { result.gate ≡ at.gate }
{
    FileEnd {
        total: at.offset,
        switched,
        is_place: at.starts || at.offset == wanted,
        gate: at.gate,
    }
}

// Reads one batch more.
fn read_next_batch<V: Volume, T: EntryVisitor>(
    alloc: Global,
    volume: &mut V,
    number: u32,
    wanted: u32,
    at: FileCursor,
    visitor: &mut T,
) -> Result<BatchStep, LogRefusal>
    requires headed { OfFile V.Volume number volume.old (λ file. IsHeaded number file) }
    requires gate { (0 < at.gate) × (at.gate < longest_file) }
    requires reached { OfFile V.Volume number volume.old (λ file. IsReached wanted number file at) }
    requires room { at.offset ≤ file_most }
    ensures exact { OfFile V.Volume number volume.old (λ file. HasRead wanted number file result) }
    ensures closed { OfFile V.Volume number volume.old (λ file. IfOk result (ClosesIfEnded file)) }
    ensures within { IfOk result (λ went. StepsWithin number at.gate went) }
    ensures given { OfFile V.Volume number volume.old (VisitsBatch number T.visited visitor.old visitor.new at result) }
    ensures keeps { KeepsFiles V.Volume volume.old volume.new }
    ensures cause { RoseWhereOn V.Volume volume.old volume.new (IsErrOf result Failed) }
{
    match read_batch(alloc, volume, number, at.gate, at.offset) {
        Ok(Batch::Closed) => Ok(BatchStep::Ends(end_at(at, wanted, false))),
        Ok(Batch::Switched) => Ok(BatchStep::Ends(end_at(at, wanted, true))),
        Ok(Batch::Entries { body }) => match deliver_batch(
            alloc, number, wanted, at, &body, visitor,
        ) {
            Ok(next) => Ok(BatchStep::On(next)),
            Err(refusal) => Err(refusal),
        },
        Err(refusal) => Err(refusal),
    }
}

// Reads the batches, from the first gate on.
fn read_batches<V: Volume, T: EntryVisitor>(
    alloc: Global,
    volume: &mut V,
    number: u32,
    wanted: u32,
    visitor: &mut T,
) -> Result<FileEnd, LogRefusal>
    requires headed { OfFile V.Volume number volume.old (λ file. IsHeaded number file) }
    ensures exact { OfFile V.Volume number volume.old (λ file. IsFileEnd wanted (file_read number file) result) }
    ensures given { VisitsFileOn V.Volume T.EntryVisitor number volume.old visitor.old visitor.new result }
    ensures closed { OfFile V.Volume number volume.old (λ file. IfOk result (Closes file)) }
    ensures within { IfOk result (λ end. IsInRange number end) }
    ensures keeps { KeepsFiles V.Volume volume.old volume.new }
    ensures cause { RoseWhereOn V.Volume volume.old volume.new (IsErrOf result Failed) }
{
    let mut at = FileCursor {
        gate: 16,
        offset: 0,
        starts: false,
    };
    'batches: loop {
        match read_next_batch(alloc, volume, number, wanted, at, visitor) {
            Ok(BatchStep::On(next)) => at = next,
            Ok(BatchStep::Ends(end)) => return Ok(end),
            Err(refusal) => return Err(refusal),
        }
    }
}

// Reads a file, hands over its entries, and finds whether an offset is the start of one of them or their end.
pub(crate) fn read_file<V: Volume, T: EntryVisitor>(
    alloc: Global,
    volume: &mut V,
    number: u32,
    wanted: u32,
    visitor: &mut T,
) -> Result<FileEnd, LogRefusal>
    ensures exact { OfFile V.Volume number volume.old (λ file. IsFileEnd wanted (file_read number file) result) }
    ensures given { VisitsFileOn V.Volume T.EntryVisitor number volume.old visitor.old visitor.new result }
    ensures closed { OfFile V.Volume number volume.old (λ file. IfOk result (Closes file)) }
    ensures within { IfOk result (λ end. IsInRange number end) }
    ensures keeps { KeepsFiles V.Volume volume.old volume.new }
    ensures cause { RoseWhereOn V.Volume volume.old volume.new (IsErrOf result Failed) }
{
    match check_header(volume, number) {
        Ok(()) => read_batches(alloc, volume, number, wanted, visitor),
        Err(refusal) => Err(refusal),
    }
}
