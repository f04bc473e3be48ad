//! The log: a buffer of entries before numbered files.
//!
//! An entry is put into the buffer. A force writes what is buffered as one batch behind those of the current file, so a crash
//! leaves all of it or nothing. Where an entry has no room in the current file, all before it are forced, the next file is made,
//! and a Switch to it ends the old one: so the walk from the first file on finds each file, and no entry stands behind one that
//! may be lost. An entry that finds no room in the buffer forces those before it.
ghost use Rattle.std.specs.Prelude.{◌≡◌, ◌+◌, ◌<◌, ◌≤◌, ◌∷◌, ◌++◌, ◌↔◌, [], length, take, true, false};
ghost use Rattle.std.specs.Prelude.{OnOk, IfOk, IfErr, IsErrOf, IsSome, IsTrue};
ghost use Rattle.tt_disk.specs.Calls.{KeepsFiles, ChangesOnly};
ghost use Rattle.tt_disk.specs.declared.volume.Name.TheVariants.{Log as LogFile};
ghost use Rattle.tt_record.specs.declared.entry.Entry.TheVariants.{Switch};
ghost use Rattle.tt_record.specs.Entry.{entry_bytes, length_of, IsEntry, IsBody};
ghost use Rattle.tt_record.specs.Limits.{log_files_end};
ghost use Rattle.tt_record.specs.Place.{position};
ghost use Rattle.tt_log.specs.Limits.{log_names_end, file_least, file_most, buffer_least, buffer_most};
ghost use Rattle.tt_log.specs.Walk.{is_at_or_next};

use crate::header::header;
use crate::opening::find_entries;
use crate::placement::all_fit;
use crate::refusal::LogRefusal;
use crate::scan::Scan;
use crate::truncation::remove_logs;
use crate::visitor::{EntryVisitor, Ignorer};
use std::alloc::Global;
use tt_disk::{Failed, Name, Volume};
use tt_gate::GateFile;
use tt_record::{Entry, entry_length, place_entry, write_entry};
use tt_value::{List, Position};

/// The log from its first file on. What isn't forced yet is in the buffer.
///
/// The volume that the calls are given must be the one that the log was opened in, and no other call may have changed a log file
/// since. After a call that failed the value still says which entries aren't forced, but a file may have a part of what was
/// written: the log has to be opened again.
#[derive(Debug, Drop)]
pub struct Log {
    // The number of the file that it begins with, and of the one that it adds to.
    first_file: u32,
    current_file: u32,
    file: GateFile,
    // How many bytes the entries have that are forced into the current file.
    forced_bytes: u32,
    // The entries that aren't forced yet, and how many bytes they take.
    buffer: Vec<u8>,
    buffered: usize,
    // Behind the last entry that was forced.
    force: Position,
    // How many bytes the entries of a file may have.
    file_size: u32,
    ghost named: { file.name ≡ LogFile current_file },
    ghost numbers: { current_file < log_files_end },
    ghost ordered: { first_file ≤ current_file },
    ghost room: { buffered ≤ length buffer.items },
    ghost offsets: { forced_bytes + buffered ≤ file_most },
    ghost sizes: { file_size ≤ file_most },
    ghost wide: { buffer_least ≤ length buffer.items },
    ghost long: { file_least ≤ file_size },
    ghost buffers: { length buffer.items ≤ buffer_most },
    ghost forced: { is_at_or_next force (position current_file forced_bytes) ≡ true },
}

impl Log {
    ghost use Rattle.tt_disk.specs.Volume.{Files};
    ghost use Rattle.tt_gate.specs.Calls.{HasCauseOn, RoseWhereOn};
    ghost use Rattle.tt_log.specs.Calls.{IsOpenOn, IsEmptyOn, OpensOn, OpeningRefusedOn, AppendsOn, ForcesOn, LeavesOn, MovesOn, RemovesOn};
    ghost use Rattle.tt_log.specs.Calls.{CrashLeavesEmptyOn, CrashLeavesNoEntryOn, KeepsForcedOn, KeepsForcedSinceOn, KeepsLogsOn, HasLogsOn};
    ghost use Rattle.tt_log.specs.Calls.{ForcesAllOn, SwitchesFileOn, MakesRoomOn, AddsFileOn, ChangesLogsOn, ChangesTwoLogsOn, HasNoLogAboveOn, VisitsLogOn};
    ghost use Rattle.tt_log.specs.Log.{IsFresh, Appends, Forces, MakesRoom, SwitchesFile, BeginsFrom, HasRoomFor, Puts, IsWhole};
    ghost use Rattle.tt_log.specs.Log.{current_file_of, file_size_of, first_file_of, force_position_of, forces_earlier, has_unforced, place_for, unforced, unforced_with, write_position_of};
    ghost use Rattle.tt_log.specs.Placement.{all_placed};
    ghost use Rattle.tt_log.specs.Scan.{Scans, first_position_of};
    ghost use Rattle.tt_log.specs.Walk.{is_switch};

    /// Removes every log file and makes an empty first one.
    pub fn make<V: Volume>(volume: &mut V) -> Result<(), Failed>
        ensures made { OnOk result (IsEmptyOn V.Volume volume.new) }
        ensures settled { OnOk result (CrashLeavesEmptyOn V.Volume volume.new) }
        ensures alone { OnOk result (HasNoLogAboveOn V.Volume 0 volume.new) }
        ensures others { ChangesLogsOn V.Volume 0 log_names_end volume.old volume.new }
        // However it ends, a crash leaves no log but the empty one, provided that before the call it could leave a first file
        // no longer than a new one.
        ensures short { CrashLeavesNoEntryOn V.Volume volume.old volume.new }
        ensures cause { HasCauseOn V.Volume volume.old volume.new result }
    {
        remove_logs(volume, 0, 1 << 32)?;
        let _ = GateFile::make(volume, Name::Log(0), &header(0))?;
        Ok(())
    }

    /// Opens the log for adding to it: walks through the files from that of a position on, and takes the buffer. No file
    /// changes. Sizes are in bytes; that of a file counts its entries alone.
    ///
    /// A missing or wrong file is refused as `Gap`, a batch that may not stand where it does as `BadBatch` with its
    /// gate, whichever comes first on the walk; then a position that is neither the start of an entry of its file nor
    /// the end of that file's entries, as `BadBatch` at 0.
    pub fn start<V: Volume>(
        alloc: Global,
        volume: &mut V,
        from: Position,
        log_file_size: u32,
        log_buf_size: u32,
    ) -> Result<Log, LogRefusal>
        requires file_size { (file_least ≤ log_file_size) × (log_file_size ≤ file_most) }
        requires buffer_size { (buffer_least ≤ log_buf_size) × (log_buf_size ≤ buffer_most) }
        ensures opened { IfOk result (λ log. OpensOn V.Volume from volume.old log volume.new) }
        ensures fresh { IfOk result (λ log. IsFresh from.file log_file_size log_buf_size log) }
        ensures empty { IfOk result (λ log. unforced log ≡ []) }
        ensures refused { IfErr result (λ e. OpeningRefusedOn V.Volume from volume.old e) }
        ensures keeps { KeepsFiles V.Volume volume.old volume.new }
        ensures cause { RoseWhereOn V.Volume volume.old volume.new (IsErrOf result LogRefusal.Failed) }
    {
        Log::start_with(
            alloc,
            volume,
            from,
            log_file_size,
            log_buf_size,
            &mut Ignorer,
        )
    }

    /// Opens the log as `start` does, and hands each entry from the first one of that file on to a visitor. So a file is read
    /// once.
    pub fn start_with<V: Volume, T: EntryVisitor>(
        alloc: Global,
        volume: &mut V,
        from: Position,
        log_file_size: u32,
        log_buf_size: u32,
        visitor: &mut T,
    ) -> Result<Log, LogRefusal>
        requires file_size { (file_least ≤ log_file_size) × (log_file_size ≤ file_most) }
        requires buffer_size { (buffer_least ≤ log_buf_size) × (log_buf_size ≤ buffer_most) }
        ensures opened { IfOk result (λ log. OpensOn V.Volume from volume.old log volume.new) }
        ensures taken { VisitsLogOn V.Volume T.EntryVisitor from.file volume.old visitor.old visitor.new result }
        ensures fresh { IfOk result (λ log. IsFresh from.file log_file_size log_buf_size log) }
        ensures empty { IfOk result (λ log. unforced log ≡ []) }
        ensures refused { IfErr result (λ e. OpeningRefusedOn V.Volume from volume.old e) }
        ensures keeps { KeepsFiles V.Volume volume.old volume.new }
        ensures cause { RoseWhereOn V.Volume volume.old volume.new (IsErrOf result LogRefusal.Failed) }
    {
        let end = match find_entries(alloc, volume, from, visitor) {
            Ok(end) => end,
            Err(refusal) => return Err(refusal),
        };
        let buffer = match vec![in alloc; 0; log_buf_size as usize] {
            Ok(buffer) => buffer,
            Err(_) => return Err(LogRefusal::NoMemory),
        };
        Ok(Log {
            first_file: from.file,
            current_file: end.at.file,
            file: GateFile::at_end(Name::Log(end.at.file), end.gate),
            forced_bytes: end.at.offset,
            buffer,
            buffered: 0,
            force: end.at,
            file_size: log_file_size,
        })
    }

    /// The end of the last entry.
    pub fn write_position(&self) -> Position
        ensures { result ≡ write_position_of self.now }
    {
        Position {
            file: self.current_file,
            offset: self.forced_bytes + self.buffered as u32,
        }
    }

    /// The end of the last entry that is forced.
    pub fn force_position(&self) -> Position
        ensures { result ≡ force_position_of self.now }
    {
        self.force
    }

    /// A pass over the forced entries at or behind a position. It takes no memory.
    pub fn scan(&self, from: Position) -> Scan
        ensures from { first_position_of result ≡ from }

        // What it gives is what is forced from that position on, where the log begins no later than with its file.
        ensures scans { (now : Files) → IsWhole self.now now → Scans self.now from now result }
    {
        Scan::new(*self.buffer.allocator(), from)
    }

    /// Whether entries of these lengths, in bytes, all get a place behind the last entry, each behind the one before:
    /// `false` exactly where a file's number would be 1,000,000 or more.
    pub fn fits(&self, lengths: &List<u64>) -> bool
        ensures { result ≡ all_placed (write_position_of self.now) (file_size_of self.now) lengths.now }
    {
        all_fit(self.write_position(), lengths.as_slice(), self.file_size)
    }

    /// Whether there is a place for this one entry.
    pub fn has_place(&self, entry: &Entry) -> bool
        requires { IsEntry entry.now }
        ensures { IsTrue result ↔ IsSome (place_for self.now entry.now) }
    {
        place_entry(self.write_position(), entry_length(entry), self.file_size).is_some()
    }

    /// Adds an entry, and answers its position. Where it begins no new file and the buffer has room for it, there is no
    /// call on the volume, and none fails.
    ///
    /// Where it fails, the entry isn't among those that wait to be forced: these are as they were, or all forced. The
    /// positions, files and sizes are as they were, but the force position where all are forced.
    pub fn append<V: Volume>(&mut self, volume: &mut V, entry: &Entry) -> Result<Position, Failed>
        requires plain { is_switch entry.now ≡ false }
        requires entry { IsEntry entry.now }
        requires place { IsSome (place_for self.old entry.now) }
        requires open { IsOpenOn V.Volume self.old volume.old }
        ensures appended { Appends entry.now self.old self.new result }
        ensures entries { AppendsOn V.Volume entry.now self.old volume.old self.new volume.new result }
        ensures leaves { LeavesOn V.Volume self.old volume.old self.new volume.new result }
        ensures others { ChangesTwoLogsOn V.Volume (current_file_of self.old) volume.old volume.new }
        ensures moves { MovesOn V.Volume (forces_earlier self.old entry.now) volume.old volume.new result }
    {
        self.make_room(volume, entry)?;
        let at = self.write_position();
        self.put(entry);
        Ok(at)
    }

    /// Forces the log: writes what isn't forced yet. Where all is, there is no call on the volume, and none fails.
    ///
    /// Where it fails, the value says the same as before: what wasn't forced still isn't.
    pub fn force<V: Volume>(&mut self, volume: &mut V) -> Result<(), Failed>
        requires open { IsOpenOn V.Volume self.old volume.old }
        ensures forced { Forces self.old self.new result }
        ensures entries { OnOk result (ForcesOn V.Volume self.old volume.old self.new volume.new) }
        ensures leaves { LeavesOn V.Volume self.old volume.old self.new volume.new result }
        ensures others { ChangesOnly V.Volume (LogFile (current_file_of self.old)) volume.old volume.new }
        ensures moves { MovesOn V.Volume (has_unforced self.old) volume.old volume.new result }
    {
        self.write_out(volume)?;
        Ok(())
    }

    /// Removes every log file below this number, and every one above the current file. Where the log began before this
    /// file, it begins at it from then on.
    pub fn remove_below<V: Volume>(&mut self, volume: &mut V, file: u32) -> Result<(), Failed>
        requires file { file ≤ current_file_of self.old }
        requires open { IsOpenOn V.Volume self.old volume.old }
        ensures begins { BeginsFrom file self.old self.new }
        ensures open { IsOpenOn V.Volume self.new volume.new }
        ensures forced { KeepsForcedSinceOn V.Volume self.old volume.old self.new volume.new }

        // Where a crash could leave just the forced entries, one leaves now just those from the new first file on, whether
        // all went well or not.
        ensures kept { KeepsForcedOn V.Volume self.old volume.old self.new volume.new }
        ensures removes { RemovesOn V.Volume file self.old volume.old volume.new result }

        // From this number to the current file each stays as it is, however it ends.
        ensures stay { KeepsLogsOn V.Volume file (current_file_of self.old) volume.old volume.new }
        ensures there { HasLogsOn V.Volume (first_file_of self.new) (current_file_of self.new) volume.new }
        ensures cause { HasCauseOn V.Volume volume.old volume.new result }
    {
        self.first_file = self.first_file.max(file);
        remove_logs(volume, 0, file as u64)?;
        remove_logs(volume, self.current_file + 1, 1 << 32)
    }

    // The number of the file to which entries are added.
    pub(crate) fn current(&self) -> u32
        ensures number { result ≡ current_file_of self.now }
        ensures below { result < log_files_end }
    {
        self.current_file
    }

    // Makes room for an entry: goes on in the next file where this one is full, or forces where the buffer is.
    fn make_room<V: Volume>(&mut self, volume: &mut V, entry: &Entry) -> Result<(), Failed>
        requires entry { IsEntry entry.now }
        requires place { IsSome (place_for self.old entry.now) }
        requires open { IsOpenOn V.Volume self.old volume.old }
        ensures made { MakesRoom entry.now self.old self.new result }
        ensures waiting { OnOk result (unforced self.new ≡ unforced_with self.old entry.now) }
        ensures found { OnOk result (MakesRoomOn V.Volume self.old entry.now volume.old volume.new) }
        ensures files { OnOk result (AddsFileOn V.Volume (current_file_of self.new) volume.old volume.new) }
        ensures leaves { LeavesOn V.Volume self.old volume.old self.new volume.new result }
        ensures others { ChangesTwoLogsOn V.Volume (current_file_of self.old) volume.old volume.new }
        ensures moves { MovesOn V.Volume (forces_earlier self.old entry.now) volume.old volume.new result }
    {
        let length = entry_length(entry);
        if self.forced_bytes as u64 + self.buffered as u64 + length > self.file_size as u64 {
            self.switch_file(volume)?;
            return Ok(());
        }
        if self.buffered as u64 + length > self.buffer.len() as u64 {
            self.write_out(volume)?;
            return Ok(());
        }
        Ok(())
    }

    // Puts an entry into the buffer.
    fn put(&mut self, entry: &Entry)
        requires entry { IsEntry entry.now }
        requires room { HasRoomFor entry.now self.old }
        ensures { Puts entry.now self.old self.new }
    {
        self.buffered = append_entry_bytes(&mut self.buffer, self.buffered, entry);
    }

    // Goes on in the next file: what isn't forced is, the next file is made, and the old one gets a Switch to it.
    fn switch_file<V: Volume>(&mut self, volume: &mut V) -> Result<(), Failed>
        requires next { current_file_of self.old + 1 < log_files_end }
        requires open { IsOpenOn V.Volume self.old volume.old }
        ensures switched { SwitchesFile self.old self.new result }
        ensures done { OnOk result (SwitchesFileOn V.Volume self.old volume.old volume.new) }
        ensures leaves { LeavesOn V.Volume self.old volume.old self.new volume.new result }
        ensures others { ChangesTwoLogsOn V.Volume (current_file_of self.old) volume.old volume.new }
        ensures cause { HasCauseOn V.Volume volume.old volume.new result }
    {
        self.write_out(volume)?; // before the next file is made
        let next = self.current_file + 1;
        let file = GateFile::make(volume, Name::Log(next), &header(next))?;
        let switch = switch_to(next);
        self.file.append_batch(volume, &switch)?;
        self.file = file;
        self.current_file = next;
        self.forced_bytes = 0;
        Ok(())
    }

    // Writes what isn't forced yet.
    fn write_out<V: Volume>(&mut self, volume: &mut V) -> Result<(), Failed>
        requires open { IsOpenOn V.Volume self.old volume.old }
        ensures forced { Forces self.old self.new result }
        ensures done { OnOk result (ForcesAllOn V.Volume self.old volume.old volume.new) }
        ensures leaves { LeavesOn V.Volume self.old volume.old self.new volume.new result }
        ensures others { ChangesOnly V.Volume (LogFile (current_file_of self.old)) volume.old volume.new }
        ensures moves { MovesOn V.Volume (has_unforced self.old) volume.old volume.new result }
    {
        let end = self.write_position();
        if self.buffered == 0 {
            self.force = end;
            return Ok(());
        }
        let body = front(&self.buffer, self.buffered);
        self.file.append_batch(volume, body)?;
        self.forced_bytes += self.buffered as u32;
        self.buffered = 0;
        self.force = end;
        Ok(())
    }
}

// The one entry that ends a file.
fn switch_to(next: u32) -> [u8; 5]
    ensures bytes { result ≡ entry_bytes (Switch next) }
    ensures body { IsBody result (Switch next ∷ []) }
{
    let mut bytes = [0; 5];
    let _ = write_entry(&Entry::Switch { file: next }, &mut bytes);
    bytes
}

// Writes an entry behind the first bytes of a buffer, and answers where it ends.
fn append_entry_bytes(buffer: &mut [u8], used: usize, entry: &Entry) -> usize
    requires entry { IsEntry entry.now }
    requires room { used + length_of entry.now ≤ length buffer.old }
    ensures end { result ≡ used + length_of entry.now }
    ensures bytes { take result buffer.new ≡ take used buffer.old ++ entry_bytes entry.now }
{
    used + write_entry(entry, &mut buffer[used..])
}

// The first bytes.
fn front(bytes: &[u8], n: usize) -> &[u8]
    requires { n ≤ length bytes.now }
    ensures { result.now ≡ take n bytes.now }
{
    &bytes[..n]
}
