//! A pass over the forced entries of a log in their order. It reads each file once, batch by batch, and holds one body.
ghost use Rattle.std.specs.Prelude.{◌≡◌, ◌<◌, ◌≤◌, ◌+◌, ◌-◌, [], length, not, true, false, IfOk, IfErr, IfSome, OnOk, IsErrOf};
ghost use Rattle.tt_disk.specs.Calls.{KeepsFiles};
ghost use Rattle.tt_disk.specs.Volume.{Files};
ghost use Rattle.tt_gate.specs.Limits.{first_gate_at, longest_file};
ghost use Rattle.tt_record.specs.declared.entry.Entry.{Entry};
ghost use Rattle.tt_record.specs.Entry.{IsEntry};
ghost use Rattle.tt_record.specs.Limits.{log_files_end};
ghost use Rattle.tt_log.specs.Limits.{file_most, last_log_file};
ghost use Rattle.tt_log.specs.Walk.{is_from};
ghost use Rattle.tt_log.specs.declared.refusal.LogRefusal.TheVariants.{Failed};

use crate::batch::{Batch, check_header, read_batch};
use crate::body::read_entry_at;
use crate::log::Log;
use crate::refusal::LogRefusal;
use std::alloc::Global;
use tt_disk::Volume;
use tt_record::Entry;
use tt_value::Position;

/// A pass over the forced entries of a log, from a position on. It reads each file once, batch by batch.
#[derive(Debug, Drop)]
pub struct Scan {
    from: Position,
    file: u32,
    // Whether the file's header was read.
    begun: bool,
    // The next gate of the file.
    gate: u64,
    // Where the next entry stands in the file.
    offset: u32,
    // The body of the batch before the gate, and where its next entry begins.
    body: Vec<u8>,
    at: usize,
    ghost inside: { at ≤ length body.items },
    ghost gates: { (first_gate_at ≤ gate) × (gate < longest_file) },
    ghost offsets: { offset + (length body.items - at) ≤ file_most },
}

// What was read next.
#[derive(Clone, Copy, Debug, PartialEq, Eq)]
enum Loaded {
    // Entries.
    Body,
    // The Switch: the next file is to be read.
    Switched,
    // Nothing: the log ends here.
    Nothing,
}

fn is_before(at: Position, from: Position) -> bool
    ensures { (entry : Entry) → result ≡ not (is_from from (at, entry)) }
{
    at.file < from.file || (at.file == from.file && at.offset < from.offset)
}

impl Scan {
    ghost use Rattle.tt_gate.specs.Calls.{RoseWhereOn};
    ghost use Rattle.tt_log.specs.Calls.{OfFiles, FailsOn, FailsOrWantsMemoryOn};
    ghost use Rattle.tt_log.specs.Scan.{IsGoing, IsScanning, IsUsedUp, HasMore, StaysInBatch, StepsOn, LoadsOn, EndsOn, GoesOnOn, GivesOn, GivesHereOn};
    ghost use Rattle.tt_log.specs.Scan.{TakesAhead, TakesHere, first_position_of, most_left};

    // A scan that hasn't read anything.
    pub(crate) fn new(alloc: Global, from: Position) -> Scan
        ensures from { result.from ≡ from }
        ensures file { result.file ≡ from.file }
        ensures begun { result.begun ≡ false }
        ensures gate { result.gate ≡ first_gate_at }
        ensures offset { result.offset ≡ 0 }
        ensures body { result.body.items ≡ [] }
        ensures at { result.at ≡ 0 }
    {
        Scan {
            from,
            file: from.file,
            begun: false,
            gate: 16,
            offset: 0,
            body: Vec::new(alloc),
            at: 0,
        }
    }

    // Reads the header of the file, if it wasn't read.
    fn enter<V: Volume>(&mut self, volume: &mut V) -> Result<(), LogRefusal>
        requires file { self.old.file < log_files_end }
        requires going { OfFiles V.Volume volume.old (λ files. IsGoing self.old files) }
        ensures steps { StepsOn V.Volume self.old self.new volume.old volume.new }
        ensures begun { OnOk result (self.new.begun ≡ true) }
        ensures still { StaysInBatch self.old self.new }
        ensures at { self.new.at ≡ self.old.at }
        ensures offset { self.new.offset ≡ self.old.offset }
        ensures refused { FailsOn V.Volume result }
        ensures cause { RoseWhereOn V.Volume volume.old volume.new (IsErrOf result Failed) }
    {
        if self.begun {
            return Ok(());
        }
        match check_header(volume, self.file) {
            Ok(()) => {
                self.begun = true;
                Ok(())
            }
            Err(refusal) => Err(refusal),
        }
    }

    // Goes on in the next file.
    fn switch_file(&mut self)
        requires file { self.old.file < last_log_file }
        ensures file { self.new.file ≡ self.old.file + 1 }
        ensures begun { self.new.begun ≡ false }
        ensures gate { self.new.gate ≡ first_gate_at }
        ensures offset { self.new.offset ≡ 0 }
        ensures at { self.new.at ≡ length self.new.body.items }
        ensures body { self.new.body ≡ self.old.body }
        ensures from { self.new.from ≡ self.old.from }
    {
        self.file += 1;
        self.begun = false;
        self.gate = 16;
        self.offset = 0;
        self.at = self.body.len();
    }

    // Goes on in the body of the batch behind the gate.
    fn fill(&mut self, body: Vec<u8>)
        requires none { IsUsedUp self.old }
        requires inside { self.old.gate + 9 + length body.items < longest_file }
        requires room { self.old.offset + length body.items ≤ file_most }
        ensures file { self.new.file ≡ self.old.file }
        ensures begun { self.new.begun ≡ self.old.begun }
        ensures gate { self.new.gate ≡ self.old.gate + 9 + length body.items }
        ensures offset { self.new.offset ≡ self.old.offset }
        ensures body { self.new.body.items ≡ body.items }
        ensures at { self.new.at ≡ 0 }
        ensures from { self.new.from ≡ self.old.from }
    {
        self.gate += 9 + body.len() as u64;
        self.body = body;
        self.at = 0;
    }

    // Reads what stands behind the gate, where all entries before it were given.
    fn load<V: Volume>(&mut self, volume: &mut V) -> Result<Loaded, LogRefusal>
        requires file { self.old.file < log_files_end }
        requires begun { self.old.begun ≡ true }
        requires none { IsUsedUp self.old }
        requires going { OfFiles V.Volume volume.old (λ files. IsGoing self.old files) }
        ensures steps { StepsOn V.Volume self.old self.new volume.old volume.new }
        ensures loads { IfOk result (LoadsOn V.Volume self.old self.new volume.old) }
        ensures still { IfErr result (λ e. self.new ≡ self.old) }
        ensures refused { FailsOrWantsMemoryOn V.Volume result }
        ensures cause { RoseWhereOn V.Volume volume.old volume.new (IsErrOf result Failed) }
    {
        let alloc = *self.body.allocator();
        match read_batch(alloc, volume, self.file, self.gate, self.offset) {
            Ok(Batch::Closed) => Ok(Loaded::Nothing),
            Ok(Batch::Switched) => {
                self.switch_file();
                Ok(Loaded::Switched)
            }
            Ok(Batch::Entries { body }) => {
                self.fill(body);
                Ok(Loaded::Body)
            }
            Err(refusal) => Err(refusal),
        }
    }

    // Reads the header where it wasn't read, and then what stands behind the gate.
    fn enter_and_load<V: Volume>(&mut self, volume: &mut V) -> Result<Loaded, LogRefusal>
        requires file { self.old.file < log_files_end }
        requires none { IsUsedUp self.old }
        requires going { OfFiles V.Volume volume.old (λ files. IsGoing self.old files) }
        ensures steps { StepsOn V.Volume self.old self.new volume.old volume.new }
        ensures loads { IfOk result (LoadsOn V.Volume self.old self.new volume.old) }
        ensures refused { FailsOrWantsMemoryOn V.Volume result }
        ensures cause { RoseWhereOn V.Volume volume.old volume.new (IsErrOf result Failed) }
    {
        match self.enter(volume) {
            Ok(()) => self.load(volume),
            Err(refusal) => Err(refusal),
        }
    }

    // Reads on until there are entries, or until the log ends.
    fn refill<V: Volume>(&mut self, volume: &mut V) -> Result<bool, LogRefusal>
        requires file { self.old.file < log_files_end }
        requires none { IsUsedUp self.old }
        requires going { OfFiles V.Volume volume.old (λ files. IsGoing self.old files) }
        ensures steps { StepsOn V.Volume self.old self.new volume.old volume.new }
        ensures some { IfOk result (λ more. more ≡ true → HasMore self.new) }
        ensures nothing { IfOk result (λ more. more ≡ false → EndsOn V.Volume self.old volume.old) }
        ensures fewer { IfOk result (λ more. more ≡ true → most_left self.new < most_left self.old) }
        ensures refused { FailsOrWantsMemoryOn V.Volume result }
        ensures cause { RoseWhereOn V.Volume volume.old volume.new (IsErrOf result Failed) }
    {
        'files: loop {
            match self.enter_and_load(volume) {
                Ok(Loaded::Body) => return Ok(true),
                Ok(Loaded::Nothing) => return Ok(false),
                Ok(Loaded::Switched) => {}
                Err(refusal) => return Err(refusal),
            }
        }
    }

    // Sees to it that an entry is at hand; `false` where the log ends.
    fn more<V: Volume>(&mut self, volume: &mut V) -> Result<bool, LogRefusal>
        requires file { self.old.file < log_files_end }
        requires going { OfFiles V.Volume volume.old (λ files. IsGoing self.old files) }
        ensures steps { StepsOn V.Volume self.old self.new volume.old volume.new }
        ensures some { IfOk result (λ more. more ≡ true → HasMore self.new) }
        ensures nothing { IfOk result (λ more. more ≡ false → EndsOn V.Volume self.old volume.old) }
        ensures fewer { IfOk result (λ more. more ≡ true → most_left self.new ≤ most_left self.old) }
        ensures refused { FailsOrWantsMemoryOn V.Volume result }
        ensures cause { RoseWhereOn V.Volume volume.old volume.new (IsErrOf result Failed) }
    {
        if self.at < self.body.len() {
            return Ok(true);
        }
        self.refill(volume)
    }

    // Passes over an entry of so many bytes.
    fn pass(&mut self, n: usize)
        requires { self.old.at + n ≤ length self.old.body.items }
        ensures at { self.new.at ≡ self.old.at + n }
        ensures offset { self.new.offset ≡ self.old.offset + n }
        ensures still { StaysInBatch self.old self.new }
        ensures begun { self.new.begun ≡ self.old.begun }
        ensures from { self.new.from ≡ self.old.from }
    {
        self.at += n;
        self.offset += n as u32;
    }

    // Visits the entry that is at hand.
    fn take(&mut self) -> Result<(Position, Entry), LogRefusal>
        requires some { HasMore self.old }
        ensures takes { (files : Files) → IsGoing self.old files → TakesAhead self.old self.new files result }
        ensures still { IfErr result (λ e. self.new ≡ self.old) }
        ensures unfailed { IsErrOf result Failed → ⊥ }
        ensures entry { IfOk result (λ p. IsEntry p.1) }
        ensures fewer { OnOk result (most_left self.new < most_left self.old) }
        ensures from { self.new.from ≡ self.old.from }
        ensures file { self.new.file ≡ self.old.file }
    {
        let alloc = *self.body.allocator();
        match read_entry_at(alloc, &self.body, self.at) {
            Ok(Some((entry, n))) => {
                let at = Position {
                    file: self.file,
                    offset: self.offset,
                };
                self.pass(n);
                Ok((at, entry))
            }
            Ok(None) => Err(LogRefusal::BadBatch {
                file: self.file,
                at: self.gate,
            }),
            Err(_) => Err(LogRefusal::NoMemory),
        }
    }

    // Visits the entry that is at hand; `None` where it stands before the scan's first position.
    fn take_from(&mut self) -> Result<Option<(Position, Entry)>, LogRefusal>
        requires some { HasMore self.old }
        ensures takes { (files : Files) → IsGoing self.old files → TakesHere self.old self.new files result }
        ensures still { IfErr result (λ e. self.new ≡ self.old) }
        ensures unfailed { IsErrOf result Failed → ⊥ }
        ensures entry { IfOk result (λ o. IfSome o (λ p. IsEntry p.1)) }
        ensures fewer { OnOk result (most_left self.new < most_left self.old) }
        ensures from { self.new.from ≡ self.old.from }
        ensures file { self.new.file ≡ self.old.file }
    {
        match self.take() {
            Ok((at, entry)) => {
                if is_before(at, self.from) {
                    return Ok(None);
                }
                Ok(Some((at, entry)))
            }
            Err(refusal) => Err(refusal),
        }
    }

    /// The next forced entry at or behind the scan's first position, with its position; `None` where none is left,
    /// which is at the end of what is forced. No file changes. After a refusal all that was left to give is
    /// still left.
    /// Over every volume, what it gives is in an entry's ranges, and leaves less to read: so a pass ends.
    ///
    /// The volume and the log must be those that the scan was made for, and no entry may have been forced since.
    pub fn next<V: Volume>(
        &mut self,
        log: &Log,
        volume: &mut V,
    ) -> Result<Option<(Position, Entry)>, LogRefusal>
        requires scanning { OfFiles V.Volume volume.old (λ files. IsScanning self.old log.now files) }
        ensures scanning { OfFiles V.Volume volume.new (λ files. IsScanning self.new log.now files) }
        ensures gives { GivesOn V.Volume log.now self.old volume.old self.new volume.new result }
        ensures entry { IfOk result (λ o. IfSome o (λ p. IsEntry p.1)) }
        ensures fewer { IfOk result (λ o. IfSome o (λ p. most_left self.new < most_left self.old)) }
        ensures refused { FailsOrWantsMemoryOn V.Volume result }
        ensures from { first_position_of self.new ≡ first_position_of self.old }
        ensures keeps { KeepsFiles V.Volume volume.old volume.new }
        ensures cause { RoseWhereOn V.Volume volume.old volume.new (IsErrOf result Failed) }
    {
        if self.file > log.current() {
            return Ok(None);
        }
        self.find(volume)
    }

    // The next entry at or behind the first position, where the scan isn't past the log's current file.
    fn find<V: Volume>(&mut self, volume: &mut V) -> Result<Option<(Position, Entry)>, LogRefusal>
        requires file { self.old.file < log_files_end }
        requires going { OfFiles V.Volume volume.old (λ files. IsGoing self.old files) }
        ensures goes_on { GoesOnOn V.Volume self.old volume.old self.new volume.new }
        ensures gives { GivesHereOn V.Volume self.old volume.old self.new volume.new result }
        ensures entry { IfOk result (λ o. IfSome o (λ p. IsEntry p.1)) }
        ensures fewer { IfOk result (λ o. IfSome o (λ p. most_left self.new < most_left self.old)) }
        ensures refused { FailsOrWantsMemoryOn V.Volume result }
        ensures from { self.new.from ≡ self.old.from }
        ensures keeps { KeepsFiles V.Volume volume.old volume.new }
        ensures cause { RoseWhereOn V.Volume volume.old volume.new (IsErrOf result Failed) }
    {
        'entries: loop {
            match self.more(volume) {
                Ok(true) => {}
                Ok(false) => return Ok(None),
                Err(refusal) => return Err(refusal),
            }
            match self.take_from() {
                Ok(None) => {}
                Ok(found) => return Ok(found),
                Err(refusal) => return Err(refusal),
            }
        }
    }
}
