//! A volume as the layers above see it: what its files are, and what a crash may leave of each.
//!
//! A file is created, written and synced, and then a crash leaves it as it reads. Until the sync a crash may leave each step
//! since the last one done in whole, in part or not at all.
ghost use Rattle.std.specs.Prelude.{◌≡◌, ◌+◌, ◌^◌, ◌≤◌, ℕ, List, length, Option, IsSome, IfOk, IfSome, OnOk, Some, None, [], option_map};
ghost use Rattle.tt_disk.specs.declared.volume.Name.{Name};
ghost use Rattle.tt_disk.specs.Faults.{HasCause};
ghost use Rattle.tt_disk.specs.Volume.{size_of, written, Torn, CreatedFrom, Removed, Steps, Keeps, IsSettled, Gives, IsNextLog};

/// A call failed, by the volume's fault: the volume counted it.
#[derive(Clone, Copy, Debug, PartialEq, Eq)]
pub struct Failed;

/// Which file of a database.
#[derive(Clone, Copy, Debug, PartialEq, Eq)]
pub enum Name {
    /// A checkpoint of the data store, 0 or 1.
    Ds(u8),
    /// The log of this number.
    Log(u32),
    /// The image of the backup set of this number.
    SetImage(u32),
    /// The log of the backup set of this number.
    SetLog(u32),
}

/// The files of a database by their names. Offsets and lengths are in bytes.
///
/// Until a file is synced, a crash may leave any bytes where it was written, a length between the least and the
/// greatest that it had, the file absent where it was created, and back where it was removed. Each file is left by
/// itself. A call that fails is counted; it may be done in whole, in part or not at all, as a crash later shows.
pub trait Volume {
    /// The files can be known. A volume over a real folder tells nothing of them.
    ghost told: { Type 0 };

    /// The files as a read gives them.
    ghost now: { Self → Name → Option (List ℕ) };

    /// What a crash at this moment may leave of each file.
    ghost may: { Self → Name → Option (List ℕ) → Type 0 };

    /// The count of failures. It never falls, and rises where a call of the volume fails, by one or more and up to the
    /// greatest `u64`.
    ghost faults: { Self → ℕ };

    /// The count is exact: it stays where a call is answered.
    ghost exact: { Type 0 };

    /// How long a file is, at most 2^62, or `None` where it isn't there. A longer file is `Failed`. No file changes.
    fn size(&mut self, name: Name) -> Result<Option<u64>, Failed>
        ensures bound { IfOk result (λ o. IfSome o (λ n. n ≤ 2 ^ 62)) }
        ensures size { told → IfOk result (λ o. o ≡ option_map length (now self.old name)) }
        ensures keeps { told → Keeps (now self.old) (now self.new) (may self.old) (may self.new) }
        ensures cause { HasCause exact (faults self.old) (faults self.new) result };

    /// The least number from this one on of a log that is there, or `None` where there is none. No file changes.
    fn next_log(&mut self, from: u32) -> Result<Option<u32>, Failed>
        ensures bound { IfOk result (λ o. IfSome o (λ n. from ≤ n)) }
        ensures next { told → IfOk result (λ o. IsNextLog (now self.old) from o) }
        ensures keeps { told → Keeps (now self.old) (now self.new) (may self.old) (may self.new) }
        ensures cause { HasCause exact (faults self.old) (faults self.new) result };

    /// Makes an empty file, or empties the one that is there. Where none is there, a crash leaves what one before could
    /// leave, or the empty file. The other files stay as they are.
    fn create(&mut self, name: Name) -> Result<(), Failed>
        ensures created { told → OnOk result (now self.new name ≡ Some []) }
        ensures steps { told → Steps (CreatedFrom (now self.old name)) name (now self.old) (now self.new) (may self.old) (may self.new) }
        ensures cause { HasCause exact (faults self.old) (faults self.new) result };

    /// Fills the buffer from an offset on, as far as the file goes, and answers how many bytes it gave. No file
    /// changes.
    fn read_at(&mut self, name: Name, at: u64, buf: &mut [u8]) -> Result<usize, Failed>
        requires there { told → IsSome (now self.old name) }
        requires within { told → at ≤ size_of (now self.old name) }
        ensures bound { IfOk result (λ n. n ≤ length buf.new) }
        ensures bytes { told → IfOk result (λ n. Gives (now self.old name) at buf.new n) }
        ensures keeps { told → Keeps (now self.old) (now self.new) (may self.old) (may self.new) }
        ensures cause { HasCause exact (faults self.old) (faults self.new) result };

    /// Writes over what is there, and past the end. Until a sync, a crash may leave any bytes in the range. A write
    /// that would end past 2^62 is `Failed`. The other files stay as they are.
    fn write_at(&mut self, name: Name, at: u64, bytes: &[u8]) -> Result<(), Failed>
        requires there { told → IsSome (now self.old name) }
        requires within { told → at ≤ size_of (now self.old name) }
        ensures bound { OnOk result (at + length bytes.now ≤ 2 ^ 62) }
        ensures written { told → OnOk result (now self.new name ≡ written at bytes.now (now self.old name)) }
        ensures steps { told → Steps (Torn at (length bytes.now)) name (now self.old) (now self.new) (may self.old) (may self.new) }
        ensures cause { HasCause exact (faults self.old) (faults self.new) result };

    /// Settles a file: after it, a crash leaves the file as a read gives it. Where it fails, it settles nothing.
    fn sync(&mut self, name: Name) -> Result<(), Failed>
        requires there { told → IsSome (now self.old name) }
        ensures settled { told → OnOk result (IsSettled name (now self.new) (may self.new)) }
        ensures keeps { told → Keeps (now self.old) (now self.new) (may self.old) (may self.new) }
        ensures cause { HasCause exact (faults self.old) (faults self.new) result };

    /// Takes a file away. It may be back after a crash until its name is created and synced again.
    fn remove(&mut self, name: Name) -> Result<(), Failed>
        requires there { told → IsSome (now self.old name) }
        ensures removed { told → OnOk result (now self.new name ≡ None) }
        ensures steps { told → Steps Removed name (now self.old) (now self.new) (may self.old) (may self.new) }
        ensures cause { HasCause exact (faults self.old) (faults self.new) result };

    /// The files as they read are what a crash may leave.
    ghost reads: { told → (volume : Self) (name : Name) → may volume name (now volume name) };
}
