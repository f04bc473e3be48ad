//! A file of a header and batches, each of which a crash leaves whole or not at all.
//!
//! A batch lies behind a gate of one byte, and counts only where the gate is open. Its bytes, its
//! length and the closed gate behind it are written and synced first, and the gate is opened by a
//! write of one byte, which is synced too. A reader goes from gate to gate up to the first closed
//! one, and so never looks at bytes that a crash may have torn.
ghost use Rattle.std.specs.Prelude.{◌≡◌, ◌+◌, ◌^◌, ◌<◌, ◌≤◌, Option, List, [], ◌∷◌, ◌++◌, ℕ, length, OnOk, OnErr, IfOk, IsErrOf, IfErr};
ghost use Rattle.tt_disk.specs.Calls.{KeepsFiles, ChangesOnly, SettlesFile};
ghost use Rattle.tt_gate.specs.Limits.{longest_file};

use crate::walk::{check_header, last_gate};
use tt_disk::{Failed, Name, Volume};

/// Why a file of batches can't be read.
#[derive(Clone, Copy, Debug, PartialEq, Eq)]
pub enum GateRefusal {
    /// The file isn't there.
    Absent,
    /// The file has fewer than 17 bytes, or doesn't begin with the header that was asked for.
    BadHeader,
    /// At this offset, in bytes, the file has no gate, or one that says of a batch that is not
    /// whole: it has no byte, or no gate lies behind it in the file.
    BadBatch { at: u64 },
    /// A call of the volume failed, and the volume counted it.
    Failed,
}

impl From<Failed> for GateRefusal {
    ghost use Rattle.std.specs.Prelude.{◌≡◌};
    ghost use Rattle.tt_gate.specs.declared.gate.GateRefusal.TheVariants.{Failed};

    ghost from_gives = { λ _ e. e ≡ Failed };

    fn from(_: Failed) -> Self {
        GateRefusal::Failed
    }
}

/// What a gate says of what lies behind it.
#[derive(Clone, Copy, Debug, PartialEq, Eq)]
pub enum Gate {
    /// The file's batches end here, whatever follows: the byte isn't 1.
    Closed,
    /// A whole batch, with a body of this many bytes, at least 1. The body begins 9 bytes behind
    /// the gate, and the next gate follows it.
    Full { length: u64 },
}

/// The end of a file of batches, to which batches are added.
///
/// The file has a header of 16 bytes, and from offset 16 on its gates. A gate is one byte. Behind
/// one that is 1 lie the length of a body in 8 bytes, the highest first, the body, and the next
/// gate. Any other byte ends the batches.
///
/// A batch is staged piece by piece behind the closed gate, where it counts for nothing, and
/// `finish` opens the gate once all of it is synced. So a crash leaves each batch whole or not at
/// all.
///
/// The volume that the calls are given must be the one that the file was made or found in, or in
/// which its closed gate lies where `at_end` was told, and no other call may have changed the file
/// since.
///
/// Where a call fails, the value still stands for the same gate. After `stage` it can be used on as
/// before. After `finish` and `append_batch` the file may have the new batch or a part of one: it
/// has to be found again before more is added to it. No call takes memory.
#[derive(Debug, Drop)]
pub struct GateFile {
    name: Name,
    // The offset of the closed gate behind the last batch.
    gate: u64,
    // How many bytes are staged, from 9 bytes behind the gate on.
    staged: u64,
    // Whether the file was synced since it was found. What is found may be in a cache alone, and a
    // batch that is written behind others than those on the disk would break them.
    synced: bool,
    ghost in_range: { gate + staged ≤ longest_file },
}

impl GateFile {
    ghost use Rattle.std.specs.Prelude.{true};
    ghost use Rattle.tt_gate.specs.Calls.{HasCauseOn, RoseWhereOn};
    ghost use Rattle.tt_gate.specs.Calls.{IsReadyOn, IsLaidOn, HasBytesOn, ReadsOn, IsWholeOn, RefusalHoldsOn, KeepsBatchesOn, StagesOn, KeepsStagedOn, StagedLiesOn};
    ghost use Rattle.tt_gate.specs.Calls.{AddsBatchOn, AddsStagedOn, StaysAtMostOn, CrashKeepsBatchesOn, CrashLeavesFormerOn, CrashLeavesOneMoreOn};
    ghost use Rattle.tt_gate.specs.Calls.{CrashAddsStagedOn, SyncedLeavesBatchOn, CrashLeavesFormerOrMoreOn};
    ghost use Rattle.tt_gate.specs.Limits.{new_file_length};
    ghost use Rattle.tt_gate.specs.GateFile.{IsEnd, IsFresh, IsLaid, IsSynced, MayStage, StandsStill};
    ghost use Rattle.tt_gate.specs.GateFile.{name_of, gate_offset_of, staged_bytes_of};

    /// Makes the file, with this header and no batch, and syncs it. A file of this name that is
    /// there is emptied first.
    ///
    /// Where it fails, a crash may leave the former file, no file, any part of the new one, or any
    /// bytes.
    pub fn make<V: Volume>(
        volume: &mut V,
        name: Name,
        header: &[u8; 16],
    ) -> Result<GateFile, Failed>
        ensures ready { IfOk result (λ file. IsReadyOn V.Volume file volume.new) }
        ensures done { OnOk result (ReadsOn V.Volume name header.now [] volume.new) }
        ensures bytes { OnOk result (HasBytesOn V.Volume name (header.now ++ 0 ∷ []) volume.new) }
        ensures settled { SettlesFile V.Volume name volume.new result }
        ensures fresh { IfOk result (λ file. IsFresh name file) }
        ensures synced { IfOk result (λ file. IsSynced file) }

        // Where it fails, a crash leaves no more than a new file has, if it couldn't leave more before.
        ensures short { StaysAtMostOn V.Volume new_file_length name volume.old volume.new }
        ensures others { ChangesOnly V.Volume name volume.old volume.new }
        ensures cause { HasCauseOn V.Volume volume.old volume.new result }
    {
        volume.create(name)?;
        volume.write_at(name, 0, header)?;
        volume.write_at(name, 16, &[0])?;
        volume.sync(name)?;
        Ok(GateFile {
            name,
            gate: 16,
            staged: 0,
            synced: true,
        })
    }

    /// Finds the end of the batches of a file with this header. No file changes, and of what it
    /// finds nothing needs to be on the disk yet: the first `stage` syncs it.
    ///
    /// It is refused as `Absent` before `BadHeader`, and as that before `BadBatch`, which has the
    /// offset of the first gate that is damaged.
    pub fn find_end<V: Volume>(
        volume: &mut V,
        name: Name,
        header: &[u8; 16],
    ) -> Result<GateFile, GateRefusal>
        ensures found { OnOk result (IsWholeOn V.Volume name header.now volume.old) }
        ensures fresh { IfOk result (λ file. IsFresh name file) }
        ensures refused { IfErr result (λ e. RefusalHoldsOn V.Volume name header.now volume.old e) }
        ensures ready { IfOk result (λ file. IsReadyOn V.Volume file volume.new) }
        ensures keeps { KeepsFiles V.Volume volume.old volume.new }
        ensures cause { RoseWhereOn V.Volume volume.old volume.new (IsErrOf result GateRefusal.Failed) }
    {
        check_header(volume, name, header)?;
        let gate = last_gate(volume, name)?;
        Ok(GateFile::at_end(name, gate))
    }

    /// The end of the batches of a file whose closed gate is known to lie at this offset, in bytes,
    /// at most 2^62. Going from gate to gate with `gate_at`, from offset 16 on, finds it where the
    /// answer is `Closed`. It isn't looked at: no call of a volume is made. Of what the file has
    /// nothing needs to be on the disk yet: the first `stage` syncs it.
    pub fn at_end(name: Name, gate: u64) -> GateFile
        requires range { gate ≤ longest_file }
        // Where it lies there, the file is whole, and stands as the value says.
        ensures laid { (now : Name → Option (List ℕ)) → IsEnd (now name) gate → IsLaid result now }
        ensures fresh { IsFresh name result }
        ensures unsynced { ¬ IsSynced result }
    {
        GateFile {
            name,
            gate,
            staged: 0,
            synced: false,
        }
    }

    /// Adds these bytes to what is staged for the next batch. A file that was found is synced
    /// before its first byte is written.
    ///
    /// The file has the same batches afterwards. A crash leaves these, or what one before the call
    /// could leave. Where it fails, just what was staged before is, and the value can be used on.
    pub fn stage<V: Volume>(&mut self, volume: &mut V, piece: &[u8]) -> Result<(), Failed>
        requires ready { IsReadyOn V.Volume self.old volume.old }
        ensures ready { IsReadyOn V.Volume self.new volume.new }
        ensures staged { OnOk result (StagesOn V.Volume self.old volume.old piece.now self.new volume.new) }
        ensures count { OnOk result (staged_bytes_of self.new ≡ staged_bytes_of self.old + length piece.now) }
        ensures synced { OnOk result (IsSynced self.new) }
        ensures kept { OnErr result (KeepsStagedOn V.Volume self.old volume.old self.new volume.new) }
        ensures still { OnErr result (StandsStill self.old self.new) }
        ensures name { name_of self.new ≡ name_of self.old }
        ensures gate { gate_offset_of self.new ≡ gate_offset_of self.old }
        ensures same { KeepsBatchesOn V.Volume (name_of self.old) volume.old volume.new }
        ensures crash { CrashLeavesFormerOn V.Volume (name_of self.old) volume.old volume.new }
        ensures others { ChangesOnly V.Volume (name_of self.old) volume.old volume.new }
        ensures cause { HasCauseOn V.Volume volume.old volume.new result }
    {
        self.sync_found(volume)?;
        self.add_piece(volume, piece)
    }

    /// Makes a batch of what is staged, which is at least one byte, and syncs it. Then nothing is
    /// staged.
    ///
    /// Where it answers `Ok`, a crash leaves the batch. Where it fails, a crash leaves the former
    /// batches, or these and the whole new one, and the value is as it was.
    pub fn finish<V: Volume>(&mut self, volume: &mut V) -> Result<(), Failed>
        requires staged { 0 < staged_bytes_of self.old }
        requires ready { IsReadyOn V.Volume self.old volume.old }
        ensures ready { OnOk result (IsReadyOn V.Volume self.new volume.new) }
        ensures done { OnOk result (AddsStagedOn V.Volume self.old volume.old volume.new) }
        ensures settled { SettlesFile V.Volume (name_of self.old) volume.new result }
        ensures fresh { OnOk result (staged_bytes_of self.new ≡ 0) }
        ensures synced { IsSynced self.old → IsSynced self.new }
        ensures name { name_of self.new ≡ name_of self.old }
        ensures unchanged { OnErr result (self.new ≡ self.old) }
        ensures crash { CrashLeavesOneMoreOn V.Volume self.old volume.old volume.new }
        ensures others { ChangesOnly V.Volume (name_of self.old) volume.old volume.new }
        ensures cause { HasCauseOn V.Volume volume.old volume.new result }
    {
        self.close_batch(volume)
    }

    /// Makes a batch of what is staged and these bytes behind it, which are at least one, and syncs
    /// it. Then nothing is staged.
    ///
    /// Where it answers `Ok`, a crash leaves the batch. Where it fails, a crash leaves the former
    /// batches, these and the whole new one, or what one before the call could leave.
    pub fn append_batch<V: Volume>(&mut self, volume: &mut V, body: &[u8]) -> Result<(), Failed>
        requires body { 0 < length body.now }
        requires ready { IsReadyOn V.Volume self.old volume.old }
        ensures ready { OnOk result (IsReadyOn V.Volume self.new volume.new) }
        ensures done { OnOk result (AddsBatchOn V.Volume self.old body.now volume.old volume.new) }
        ensures settled { SettlesFile V.Volume (name_of self.old) volume.new result }
        ensures fresh { OnOk result (staged_bytes_of self.new ≡ 0) }
        ensures synced { OnOk result (IsSynced self.new) }
        ensures name { name_of self.new ≡ name_of self.old }

        // After a failure, what was staged before still is, and the body too or not.
        ensures gate { OnErr result (gate_offset_of self.new ≡ gate_offset_of self.old) }
        ensures still { OnErr result (MayStage self.old body.now self.new) }

        // A value that says after a failure that its file was synced says so rightly.
        ensures truth { OnErr result
            (SyncedLeavesBatchOn V.Volume self.old volume.old body.now self.new volume.new) }
        ensures crash { CrashLeavesFormerOrMoreOn V.Volume self.old body.now volume.old volume.new }
        ensures others { ChangesOnly V.Volume (name_of self.old) volume.old volume.new }
        ensures cause { HasCauseOn V.Volume volume.old volume.new result }
    {
        self.stage(volume, body)?;
        self.finish(volume)
    }

    // Syncs a file that was found, before the first write to it.
    fn sync_found<V: Volume>(&mut self, volume: &mut V) -> Result<(), Failed>
        requires ready { IsReadyOn V.Volume self.old volume.old }
        ensures ready { IsReadyOn V.Volume self.new volume.new }
        ensures done { OnOk result (IsSynced self.new) }
        ensures unchanged { OnErr result (self.new ≡ self.old) }
        ensures same { StandsStill self.old self.new }

        // A file that was synced since it was found isn't synced again.
        ensures quiet { IsSynced self.old → volume.new ≡ volume.old }
        ensures keeps { KeepsFiles V.Volume volume.old volume.new }
        ensures cause { HasCauseOn V.Volume volume.old volume.new result }
    {
        if self.synced {
            return Ok(());
        }
        volume.sync(self.name)?;
        self.synced = true;
        Ok(())
    }

    // Adds to what is staged, where the file was synced.
    fn add_piece<V: Volume>(&mut self, volume: &mut V, piece: &[u8]) -> Result<(), Failed>
        requires laid { IsLaidOn V.Volume self.old volume.old }
        ensures laid { IsLaidOn V.Volume self.new volume.new }
        ensures staged { OnOk result (StagesOn V.Volume self.old volume.old piece.now self.new volume.new) }
        ensures count { OnOk result (staged_bytes_of self.new ≡ staged_bytes_of self.old + length piece.now) }
        ensures kept { OnErr result (KeepsStagedOn V.Volume self.old volume.old self.new volume.new) }
        ensures unchanged { OnErr result (self.new ≡ self.old) }
        ensures name { name_of self.new ≡ name_of self.old }
        ensures gate { gate_offset_of self.new ≡ gate_offset_of self.old }
        ensures still { self.new.synced ≡ self.old.synced }
        ensures same { KeepsBatchesOn V.Volume (name_of self.old) volume.old volume.new }
        ensures crash { CrashKeepsBatchesOn V.Volume (name_of self.old) volume.old volume.new }
        ensures others { ChangesOnly V.Volume (name_of self.old) volume.old volume.new }
        ensures cause { HasCauseOn V.Volume volume.old volume.new result }
    {
        self.make_place(volume)?;
        volume.write_at(self.name, self.gate + 9 + self.staged, piece)?;
        self.staged += piece.len() as u64;
        Ok(())
    }

    // Writes eight zero bytes behind the gate, where nothing is staged: the length's place, so that
    // the first piece isn't written past the file's end.
    fn make_place<V: Volume>(&self, volume: &mut V) -> Result<(), Failed>
        requires laid { IsLaidOn V.Volume self.now volume.old }
        ensures lies { OnOk result (StagedLiesOn V.Volume self.now volume.old volume.new) }
        ensures same { KeepsBatchesOn V.Volume (name_of self.now) volume.old volume.new }
        ensures crash { CrashKeepsBatchesOn V.Volume (name_of self.now) volume.old volume.new }
        ensures fails { OnErr result (staged_bytes_of self.now ≡ 0) }
        ensures others { ChangesOnly V.Volume (name_of self.now) volume.old volume.new }
        ensures cause { HasCauseOn V.Volume volume.old volume.new result }
    {
        if self.staged > 0 {
            return Ok(());
        }
        volume.write_at(self.name, self.gate + 1, &[0; 8])
    }

    // Makes a batch of what is staged, where the file was synced. The length and the next gate are
    // on the disk before the gate is opened: while a written range isn't synced a crash may leave
    // any bytes in it, so a gate that is written with them could stand open before a false length.
    fn close_batch<V: Volume>(&mut self, volume: &mut V) -> Result<(), Failed>
        requires staged { 0 < staged_bytes_of self.old }
        requires laid { IsLaidOn V.Volume self.old volume.old }
        ensures laid { OnOk result (IsLaidOn V.Volume self.new volume.new) }
        ensures done { OnOk result (AddsStagedOn V.Volume self.old volume.old volume.new) }
        ensures settled { SettlesFile V.Volume (name_of self.old) volume.new result }
        ensures fresh { OnOk result (staged_bytes_of self.new ≡ 0) }
        ensures unchanged { OnErr result (self.new ≡ self.old) }
        ensures name { name_of self.new ≡ name_of self.old }
        ensures still { self.new.synced ≡ self.old.synced }

        // Where a crash before could leave these batches alone, one now leaves the former batches,
        // or these and the new one.
        ensures crash { CrashAddsStagedOn V.Volume self.old volume.old volume.new }
        ensures others { ChangesOnly V.Volume (name_of self.old) volume.old volume.new }
        ensures cause { HasCauseOn V.Volume volume.old volume.new result }
    {
        let end = self.gate + 9 + self.staged;
        volume.write_at(self.name, self.gate + 1, &self.staged.to_be_bytes())?;
        volume.write_at(self.name, end, &[0])?;
        volume.sync(self.name)?;
        volume.write_at(self.name, self.gate, &[1])?;
        volume.sync(self.name)?;
        self.gate = end;
        self.staged = 0;
        Ok(())
    }
}
