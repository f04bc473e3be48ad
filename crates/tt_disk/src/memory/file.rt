//! One file in memory. A call that changes it notes its step first, and is then done, unless it is to fail; a sync forgets the
//! steps. So what a crash may leave follows from what the last sync left and the steps since.
ghost use Rattle.std.specs.Prelude.{◌≡◌, ◌+◌, ◌≤◌, [], List, ℕ, Option, Some, None, IsSome, IsErr, IsTrue, length, OnOk, OnErr};
ghost use Rattle.tt_disk.specs.Failing.{IfNoted};
ghost use Rattle.tt_disk.specs.Steps.{contents, Leads};
ghost use Rattle.tt_disk.specs.Volume.{File, size_of, overwritten, written, Torn, Created, CreatedFrom, Made, Removed};

use super::failing::Failure;
use crate::Name;
use std::alloc::{AllocError, Global};

// A step of a call that changes a file.
#[derive(Clone, Copy, Debug)]
pub(super) enum Step {
    // A create of a file that was there.
    Create,
    // A create of a file that wasn't there.
    Make,
    Write { at: u64, len: u64 },
    Remove,
}

// A file as a read gives it, as the last sync left it, and the steps since then that were done or may have been.
#[derive(Drop)]
pub(super) struct MemFile {
    pub(super) name: Name,
    pub(super) bytes: Option<Vec<u8>>,
    pub(super) settled: Option<Vec<u8>>,
    pub(super) steps: Vec<Step>,
    // What a read gives is among what these steps may lead to.
    ghost led: { ∥ Leads steps.items (contents settled) (contents bytes) ∥₁ },
}

impl MemFile {
    ghost use Rattle.tt_disk.specs.File.{file_may, FileSteps, Reaches};

    // Makes it, or empties it. Where the call is to fail, a crash may leave it done all the same.
    pub(super) fn create(&mut self, alloc: Global, fails: bool) -> Result<(), Failure>
        ensures done { OnOk result (contents self.new.bytes ≡ Some []) }
        ensures steps { FileSteps (CreatedFrom (contents self.old.bytes)) self.old self.new }
        ensures reaches { IfNoted result (Reaches (CreatedFrom (contents self.old.bytes)) self.old self.new) }
        ensures planned { IsTrue fails → IsErr result }
    {
        match &self.bytes {
            Some(_) => self.empty(alloc, fails),
            None => self.make(alloc, fails),
        }
    }

    fn make(&mut self, alloc: Global, fails: bool) -> Result<(), Failure>
        ensures done { OnOk result (contents self.new.bytes ≡ Some []) }
        ensures steps { FileSteps Made self.old self.new }
        ensures reaches { IfNoted result (Reaches Made self.old self.new) }
        ensures planned { IsTrue fails → IsErr result }
    {
        if self.steps.push(Step::Make).is_err() {
            return Err(Failure::NotNoted);
        }
        if fails {
            return Err(Failure::Noted);
        }
        self.bytes = Some(Vec::new(alloc));
        Ok(())
    }

    fn empty(&mut self, alloc: Global, fails: bool) -> Result<(), Failure>
        ensures done { OnOk result (contents self.new.bytes ≡ Some []) }
        ensures steps { FileSteps Created self.old self.new }
        ensures reaches { IfNoted result (Reaches Created self.old self.new) }
        ensures planned { IsTrue fails → IsErr result }
    {
        if self.steps.push(Step::Create).is_err() {
            return Err(Failure::NotNoted);
        }
        if fails {
            return Err(Failure::Noted);
        }
        self.bytes = Some(Vec::new(alloc));
        Ok(())
    }

    pub(super) fn write_at(&mut self, at: u64, bytes: &[u8], fails: bool) -> Result<(), Failure>
        requires there { IsSome (contents self.old.bytes) }
        requires within { at ≤ size_of (contents self.old.bytes) }
        ensures done { OnOk result (contents self.new.bytes ≡ written at bytes.now (contents self.old.bytes)) }
        ensures steps { FileSteps (Torn at (length bytes.now)) self.old self.new }
        ensures reaches { IfNoted result (Reaches (Torn at (length bytes.now)) self.old self.new) }
        ensures planned { IsTrue fails → IsErr result }
    {
        let len = bytes.len() as u64;
        if self.steps.push(Step::Write { at, len }).is_err() {
            return Err(Failure::NotNoted);
        }
        if fails {
            return Err(Failure::Noted);
        }
        match &mut self.bytes {
            Some(content) => overwrite(content, at as usize, bytes).map_err(|_| Failure::Noted),
            None => Err(Failure::NotNoted),
        }
    }

    pub(super) fn sync(&mut self, alloc: Global) -> Result<(), AllocError>
        ensures name { self.new.name ≡ self.old.name }
        ensures unchanged { contents self.new.bytes ≡ contents self.old.bytes }
        ensures settled { OnOk result ((c : File) → file_may self.new c → c ≡ contents self.new.bytes) }
        ensures crash { (c : File) → file_may self.new c → file_may self.old c }
        ensures unsettled { OnErr result ((c : File) → file_may self.old c → file_may self.new c) }
    {
        self.settled = match &self.bytes {
            Some(content) => Some(content.to_vec(alloc)?),
            None => None,
        };
        self.steps.clear();
        Ok(())
    }

    pub(super) fn remove(&mut self, fails: bool) -> Result<(), Failure>
        ensures done { OnOk result (contents self.new.bytes ≡ None) }
        ensures steps { FileSteps Removed self.old self.new }
        ensures reaches { IfNoted result (Reaches Removed self.old self.new) }
        ensures planned { IsTrue fails → IsErr result }
    {
        if self.steps.push(Step::Remove).is_err() {
            return Err(Failure::NotNoted);
        }
        if fails {
            return Err(Failure::Noted);
        }
        self.bytes = None;
        Ok(())
    }
}

// Writes over a file's bytes from an offset on.
fn overwrite(content: &mut Vec<u8>, at: usize, bytes: &[u8]) -> Result<(), AllocError>
    requires { at ≤ length content.old.items }
    ensures ok { OnOk result (content.new.items ≡ overwritten at bytes.now content.old.items) }
    ensures err { OnErr result (content.new.items ≡ content.old.items) }
{
    let room = content.len() - at;
    if bytes.len() <= room {
        content[at..at + bytes.len()].copy_from_slice(bytes);
    } else {
        content.extend_from_slice(&bytes[room..])?;
        content[at..at + room].copy_from_slice(&bytes[..room]);
    }
    Ok(())
}
