//! A volume in memory, of which a crash can be tried at any moment and whose calls fail where it is told to.
//!
//! A test makes a volume, runs what it tests, and asks by `leave` for volumes that a crash may leave. `memory/files.rt` has the
//! calls on the files, `memory/file.rt` a file with the steps since its last sync, `memory/failing.rt` which calls fail,
//! `memory/leave.rt` what a crash leaves, and `memory/picks.rt` the numbers that choose among it.
ghost use Rattle.std.specs.Prelude.{◌≡◌, ◌==◌, ◌+◌, ◌^◌, ◌≤◌, nat_le, [], List, ℕ, Option, Some, None, IsSome, IsOk, true, false, length, OnOk, OnErr, IfOk, IfSome, option_map};
ghost use Rattle.std.specs.List.{list_any};
ghost use Rattle.tt_disk.specs.Faults.{HasCause};
ghost use Rattle.tt_disk.specs.Failing.{fails_at, fails_next, calls_made, calls_failed, calls_unnoted, IsCounted};
ghost use Rattle.tt_disk.specs.Memory.{files_of, outcomes_of, calls_of, IsPending, ReachesAll, KeepsAll, KeepsOthers};
ghost use Rattle.tt_disk.specs.Volume.{File, size_of, written, Torn, CreatedFrom, Removed, Steps, Keeps, IsSettled, Gives, IsNextLog};

mod failing;
mod file;
mod files;
mod leave;
mod picks;

use crate::{Failed, Name, Volume};
pub use failing::FailingCalls;
use file::MemFile;
use files::{create_file, next_log_file, read_file, remove_file, size_file, sync_file, write_file};
use leave::left_files;
use std::alloc::{AllocError, Global};

/// Files in memory, with what a crash may leave of each, and with calls that fail where it is told to.
///
/// A call that fails is counted as a fault, and the count stops at the greatest `u64`. A call that is to fail does
/// nothing that a read shows, but a crash may leave it done in whole or in part. Want of memory fails a call too.
#[derive(Drop)]
pub struct MemVolume {
    alloc: Global,
    files: Vec<MemFile>,
    calls: FailingCalls,
}

impl MemVolume {
    ghost use Rattle.tt_disk.specs.Leave.{least_left};

    /// A volume with no files, no calls and no faults. None of its calls fails but for want of memory.
    pub fn new(alloc: Global) -> Self
        ensures empty { (n : Name) (c : File) → outcomes_of result n c → c ≡ None }
        ensures plan { (number : ℕ) → fails_at (calls_of result) number ≡ false }
        ensures calls { calls_made (calls_of result) ≡ 0 }
        ensures faults { calls_failed (calls_of result) ≡ 0 }
    {
        MemVolume::with_calls(alloc, FailingCalls::never())
    }

    /// A volume with no files, no calls and no faults. Its call of this number, the first being 0, and all later ones
    /// fail.
    pub fn failing_from(alloc: Global, call: u64) -> Self
        ensures empty { (n : Name) (c : File) → outcomes_of result n c → c ≡ None }
        ensures plan { (number : ℕ) → fails_at (calls_of result) number ≡ nat_le call number }
        ensures calls { calls_made (calls_of result) ≡ 0 }
        ensures faults { calls_failed (calls_of result) ≡ 0 }
    {
        MemVolume::with_calls(alloc, FailingCalls::from_call(call))
    }

    /// A volume with no files, no calls and no faults. Its calls of these numbers fail, the first being 0.
    pub fn failing_at(alloc: Global, calls: Vec<u64>) -> Self
        ensures empty { (n : Name) (c : File) → outcomes_of result n c → c ≡ None }
        ensures plan { (number : ℕ) → fails_at (calls_of result) number ≡ list_any (λ call. call == number) calls.items }
        ensures calls { calls_made (calls_of result) ≡ 0 }
        ensures faults { calls_failed (calls_of result) ≡ 0 }
    {
        MemVolume::with_calls(alloc, FailingCalls::at_calls(calls))
    }

    /// One outcome of a crash at this moment, as a volume of its own: all of it settled, with no calls and no faults,
    /// and no call of it is to fail. This volume is unchanged. The only error is want of memory.
    ///
    /// At pick 0 each file is as its last sync left it, cut to the least length since: created files are absent, removed
    /// files are back, and one that was emptied has no bytes. At pick 1 the files are as a read gives them. Any other
    /// pick makes numbers of its own, which choose for each call since a file's last sync how much of it was done and
    /// which bytes it left; the same pick gives the same outcome.
    pub fn leave(&self, alloc: Global, pick: u64) -> Result<MemVolume, AllocError>
        ensures left { IfOk result (λ left. (n : Name) → outcomes_of self.now n (files_of left n)) }
        ensures settled { IfOk result (λ left. (n : Name) → IsSettled n (files_of left) (outcomes_of left)) }
        ensures least { pick ≡ 0 → IfOk result (λ left. (n : Name) → files_of left n ≡ least_left self.now n) }
        ensures as_read { pick ≡ 1 → IfOk result (λ left. (n : Name) → files_of left n ≡ files_of self.now n) }
        ensures plan { IfOk result (λ left. (number : ℕ) → fails_at (calls_of left) number ≡ false) }
        ensures calls { IfOk result (λ left. calls_made (calls_of left) ≡ 0) }
        ensures faults { IfOk result (λ left. calls_failed (calls_of left) ≡ 0) }
    {
        Ok(MemVolume {
            alloc,
            files: left_files(alloc, &self.files, pick)?,
            calls: FailingCalls::never(),
        })
    }

    /// How many calls of `Volume` were made, those that failed included. It stops at the greatest `u64`.
    pub fn calls(&self) -> u64
        ensures { result ≡ calls_made (calls_of self.now) }
    {
        self.calls.made()
    }

    /// How many calls that failed left a crash nothing of what they would have changed, for want of memory or since a write would
    /// have ended past 2^62. It stops at the greatest `u64`.
    pub fn unnoted(&self) -> u64
        ensures { result ≡ calls_unnoted (calls_of self.now) }
    {
        self.calls.unnoted()
    }

    fn with_calls(alloc: Global, calls: FailingCalls) -> Self
        ensures empty { (n : Name) (c : File) → outcomes_of result n c → c ≡ None }
        ensures calls { calls_of result ≡ calls }
    {
        MemVolume {
            alloc,
            files: Vec::new(alloc),
            calls,
        }
    }
}

impl Volume for MemVolume {
    ghost use Rattle.std.specs.Prelude.{ℕ};
    ghost use Rattle.tt_disk.specs.Files.{found, now_may};
    ghost use Rattle.tt_disk.specs.Memory.{files_of, outcomes_of, calls_of};
    ghost use Rattle.tt_disk.specs.Failing.{calls_failed};

    ghost told = { Unit {0} };

    ghost now = { λ m. files_of m };

    ghost may = { λ m. outcomes_of m };

    ghost faults = { λ m. calls_failed (calls_of m) };

    ghost exact = { Unit {0} };

    ghost reads = { λ _ m name. now_may (found m.files.items name) };

    fn size(&mut self, name: Name) -> Result<Option<u64>, Failed>
        ensures bound { IfOk result (λ o. IfSome o (λ n. n ≤ 2 ^ 62)) }
        ensures size { IfOk result (λ o. o ≡ option_map length (files_of self.old name)) }
        ensures keeps { Keeps
            (files_of self.old) (files_of self.new) (outcomes_of self.old) (outcomes_of self.new) }
        ensures reaches { KeepsAll (outcomes_of self.old) (outcomes_of self.new) }
        ensures cause { HasCause (Unit {0})
            (calls_failed (calls_of self.old)) (calls_failed (calls_of self.new)) result }
        ensures counted { IsCounted (calls_of self.old) (calls_of self.new) result }
        ensures unplanned { fails_next (calls_of self.old) ≡ false
            → size_of (files_of self.old name) ≤ 2 ^ 62 → IsOk result }
    {
        let fails = self.calls.begin();
        let answer = size_file(&self.files, name, fails);
        self.calls.end(answer)
    }

    fn next_log(&mut self, from: u32) -> Result<Option<u32>, Failed>
        ensures bound { IfOk result (λ o. IfSome o (λ n. from ≤ n)) }
        ensures next { IfOk result (λ o. IsNextLog (files_of self.old) from o) }
        ensures keeps { Keeps
            (files_of self.old) (files_of self.new) (outcomes_of self.old) (outcomes_of self.new) }
        ensures reaches { KeepsAll (outcomes_of self.old) (outcomes_of self.new) }
        ensures cause { HasCause (Unit {0})
            (calls_failed (calls_of self.old)) (calls_failed (calls_of self.new)) result }
        ensures counted { IsCounted (calls_of self.old) (calls_of self.new) result }
        ensures unplanned { fails_next (calls_of self.old) ≡ false → IsOk result }
    {
        let fails = self.calls.begin();
        let answer = next_log_file(&self.files, from, fails);
        self.calls.end(answer)
    }

    fn create(&mut self, name: Name) -> Result<(), Failed>
        ensures created { OnOk result (files_of self.new name ≡ Some []) }
        ensures steps { Steps (CreatedFrom (files_of self.old name)) name
            (files_of self.old) (files_of self.new) (outcomes_of self.old) (outcomes_of self.new) }
        ensures reaches { OnOk result (ReachesAll (CreatedFrom (files_of self.old name)) name
            (outcomes_of self.old) (outcomes_of self.new)) }
        ensures pending { IsPending (CreatedFrom (files_of self.old name)) name self.old self.new }
        ensures cause { HasCause (Unit {0})
            (calls_failed (calls_of self.old)) (calls_failed (calls_of self.new)) result }
        ensures counted { IsCounted (calls_of self.old) (calls_of self.new) result }
    {
        let fails = self.calls.begin();
        let answer = create_file(self.alloc, &mut self.files, name, fails);
        self.calls.end_change(answer)
    }

    fn read_at(&mut self, name: Name, at: u64, buf: &mut [u8]) -> Result<usize, Failed>
        requires there { IsSome (files_of self.old name) }
        requires within { at ≤ size_of (files_of self.old name) }
        ensures bound { IfOk result (λ n. n ≤ length buf.new) }
        ensures bytes { IfOk result (λ n. Gives (files_of self.old name) at buf.new n) }
        ensures keeps { Keeps
            (files_of self.old) (files_of self.new) (outcomes_of self.old) (outcomes_of self.new) }
        ensures reaches { KeepsAll (outcomes_of self.old) (outcomes_of self.new) }
        ensures cause { HasCause (Unit {0})
            (calls_failed (calls_of self.old)) (calls_failed (calls_of self.new)) result }
        ensures counted { IsCounted (calls_of self.old) (calls_of self.new) result }
        ensures unplanned { fails_next (calls_of self.old) ≡ false → IsOk result }
    {
        let fails = self.calls.begin();
        let answer = read_file(&self.files, name, at, buf, fails);
        self.calls.end(answer)
    }

    fn write_at(&mut self, name: Name, at: u64, bytes: &[u8]) -> Result<(), Failed>
        requires there { IsSome (files_of self.old name) }
        requires within { at ≤ size_of (files_of self.old name) }
        ensures bound { OnOk result (at + length bytes.now ≤ 2 ^ 62) }
        ensures written { OnOk result (files_of self.new name ≡ written at bytes.now (files_of self.old name)) }
        ensures steps { Steps (Torn at (length bytes.now)) name
            (files_of self.old) (files_of self.new) (outcomes_of self.old) (outcomes_of self.new) }
        ensures reaches { OnOk result (ReachesAll (Torn at (length bytes.now)) name
            (outcomes_of self.old) (outcomes_of self.new)) }
        ensures pending { IsPending (Torn at (length bytes.now)) name self.old self.new }
        ensures cause { HasCause (Unit {0})
            (calls_failed (calls_of self.old)) (calls_failed (calls_of self.new)) result }
        ensures counted { IsCounted (calls_of self.old) (calls_of self.new) result }
    {
        let fails = self.calls.begin();
        let answer = write_file(&mut self.files, name, at, bytes, fails);
        self.calls.end_change(answer)
    }

    fn sync(&mut self, name: Name) -> Result<(), Failed>
        requires there { IsSome (files_of self.old name) }
        ensures settled { OnOk result (IsSettled name (files_of self.new) (outcomes_of self.new)) }
        ensures keeps { Keeps
            (files_of self.old) (files_of self.new) (outcomes_of self.old) (outcomes_of self.new) }
        ensures others { KeepsOthers name (outcomes_of self.old) (outcomes_of self.new) }
        ensures unsettled { OnErr result (KeepsAll (outcomes_of self.old) (outcomes_of self.new)) }
        ensures cause { HasCause (Unit {0})
            (calls_failed (calls_of self.old)) (calls_failed (calls_of self.new)) result }
        ensures counted { IsCounted (calls_of self.old) (calls_of self.new) result }
    {
        let fails = self.calls.begin();
        let answer = sync_file(self.alloc, &mut self.files, name, fails);
        self.calls.end(answer)
    }

    fn remove(&mut self, name: Name) -> Result<(), Failed>
        requires there { IsSome (files_of self.old name) }
        ensures removed { OnOk result (files_of self.new name ≡ None) }
        ensures steps { Steps Removed name
            (files_of self.old) (files_of self.new) (outcomes_of self.old) (outcomes_of self.new) }
        ensures reaches { OnOk result (ReachesAll Removed name
            (outcomes_of self.old) (outcomes_of self.new)) }
        ensures pending { IsPending Removed name self.old self.new }
        ensures cause { HasCause (Unit {0})
            (calls_failed (calls_of self.old)) (calls_failed (calls_of self.new)) result }
        ensures counted { IsCounted (calls_of self.old) (calls_of self.new) result }
    {
        let fails = self.calls.begin();
        let answer = remove_file(&mut self.files, name, fails);
        self.calls.end_change(answer)
    }
}

#[cfg(test)]
mod tests;
