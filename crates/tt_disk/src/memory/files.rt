//! The files of a volume in memory, an entry for each name that was ever created. The first entry of a name counts.
//!
//! The functions here are the calls of a volume without the count of calls. A call that is to fail, by `fails`, does nothing
//! that a read shows; one that changes a file notes its step all the same, so a crash may leave it done.
ghost use Rattle.std.specs.Prelude.{◌≡◌, ◌+◌, ◌^◌, ◌≤◌, [], ℕ, None, Some, IsSome, IsOk, IsErr, IsTrue, true, false, MatchOption, length, OnOk, OnErr, IfOk, IfSome, option_map};
ghost use Rattle.tt_disk.specs.Failing.{IfNoted};
ghost use Rattle.tt_disk.specs.Files.{same_name, found, IsAt, files_now, files_may, is_below, IsLogFrom, KeepsIn, StepsIn};
ghost use Rattle.tt_disk.specs.Memory.{ReachesIn, KeepsAll, KeepsOthers};
ghost use Rattle.tt_disk.specs.Volume.{size_of, written, Torn, CreatedFrom, Removed, IsSettled, Gives, IsNextLog};

use super::failing::Failure;
use super::file::MemFile;
use crate::{Failed, LONGEST, Name};
use std::alloc::Global;

pub(super) fn size_file(files: &[MemFile], name: Name, fails: bool) -> Result<Option<u64>, Failed>
    ensures bound { IfOk result (λ o. IfSome o (λ n. n ≤ 2 ^ 62)) }
    ensures size { IfOk result (λ o. o ≡ option_map length (files_now files.now name)) }
    ensures planned { IsTrue fails → IsErr result }
    ensures unplanned { fails ≡ false → size_of (files_now files.now name) ≤ 2 ^ 62 → IsOk result }
{
    if fails {
        return Err(Failed);
    }
    match length_of(files, name) {
        Some(length) if length > LONGEST => Err(Failed),
        size => Ok(size),
    }
}

pub(super) fn next_log_file(
    files: &[MemFile],
    from: u32,
    fails: bool,
) -> Result<Option<u32>, Failed>
    ensures bound { IfOk result (λ o. IfSome o (λ n. from ≤ n)) }
    ensures next { IfOk result (λ o. IsNextLog (files_now files.now) from o) }
    ensures planned { IsTrue fails → IsErr result }
    ensures unplanned { fails ≡ false → IsOk result }
{
    if fails {
        return Err(Failed);
    }
    Ok(least_log(files, from))
}

pub(super) fn create_file(
    alloc: Global,
    files: &mut Vec<MemFile>,
    name: Name,
    fails: bool,
) -> Result<(), Failure>
    ensures done { OnOk result (files_now files.new.items name ≡ Some []) }
    ensures steps { StepsIn (CreatedFrom (files_now files.old.items name)) name files.old.items files.new.items }
    ensures reaches { IfNoted result (ReachesIn (CreatedFrom (files_now files.old.items name)) name files.old.items files.new.items) }
    ensures planned { IsTrue fails → IsErr result }
{
    match find_file(files, name) {
        Some(i) => files[i].create(alloc, fails),
        None => {
            let mut file = MemFile {
                name,
                bytes: None,
                settled: None,
                steps: Vec::new(alloc),
            };
            let result = file.create(alloc, fails);
            if files.push(file).is_err() {
                return Err(Failure::NotNoted);
            }
            result
        }
    }
}

pub(super) fn read_file(
    files: &[MemFile],
    name: Name,
    at: u64,
    buf: &mut [u8],
    fails: bool,
) -> Result<usize, Failed>
    requires there { IsSome (files_now files.now name) }
    requires within { at ≤ size_of (files_now files.now name) }
    ensures bound { IfOk result (λ n. n ≤ length buf.new) }
    ensures bytes { IfOk result (λ n. Gives (files_now files.now name) at buf.new n) }
    ensures planned { IsTrue fails → IsErr result }
    ensures unplanned { fails ≡ false → IsOk result }
{
    if fails {
        return Err(Failed);
    }
    match find_file(files, name) {
        Some(i) => match &files[i].bytes {
            Some(content) => Ok(read_content(content, at as usize, buf)),
            None => Err(Failed),
        },
        None => Err(Failed),
    }
}

pub(super) fn write_file(
    files: &mut Vec<MemFile>,
    name: Name,
    at: u64,
    bytes: &[u8],
    fails: bool,
) -> Result<(), Failure>
    requires there { IsSome (files_now files.old.items name) }
    requires within { at ≤ size_of (files_now files.old.items name) }
    ensures bound { OnOk result (at + length bytes.now ≤ 2 ^ 62) }
    ensures done { OnOk result (files_now files.new.items name ≡ written at bytes.now (files_now files.old.items name)) }
    ensures steps { StepsIn (Torn at (length bytes.now)) name files.old.items files.new.items }
    ensures reaches { IfNoted result (ReachesIn (Torn at (length bytes.now)) name files.old.items files.new.items) }
    ensures planned { IsTrue fails → IsErr result }
{
    let len = bytes.len() as u64;
    if len > LONGEST || at > LONGEST - len {
        return Err(Failure::NotNoted);
    }
    match find_file(files, name) {
        Some(i) => files[i].write_at(at, bytes, fails),
        None => Err(Failure::NotNoted),
    }
}

pub(super) fn sync_file(
    alloc: Global,
    files: &mut Vec<MemFile>,
    name: Name,
    fails: bool,
) -> Result<(), Failed>
    ensures settled { OnOk result (IsSettled name (files_now files.new.items) (files_may files.new.items)) }
    ensures keeps { KeepsIn files.old.items files.new.items }
    ensures others { KeepsOthers name (files_may files.old.items) (files_may files.new.items) }
    ensures unsettled { OnErr result (KeepsAll (files_may files.old.items) (files_may files.new.items)) }
    ensures planned { IsTrue fails → IsErr result }
{
    if fails {
        return Err(Failed);
    }
    match find_file(files, name) {
        Some(i) => match files[i].sync(alloc) {
            Ok(()) => Ok(()),
            Err(_) => Err(Failed),
        },
        None => Err(Failed),
    }
}

pub(super) fn remove_file(files: &mut Vec<MemFile>, name: Name, fails: bool) -> Result<(), Failure>
    ensures done { OnOk result (files_now files.new.items name ≡ None) }
    ensures steps { StepsIn Removed name files.old.items files.new.items }
    ensures reaches { IfNoted result (ReachesIn Removed name files.old.items files.new.items) }
    ensures planned { IsTrue fails → IsErr result }
{
    match find_file(files, name) {
        Some(i) => files[i].remove(fails),
        None => Err(Failure::NotNoted),
    }
}

fn find_file(files: &[MemFile], name: Name) -> Option<usize>
    ensures { MatchOption result (found files.now name ≡ None) (λ i. IsAt files.now name i) }
{
    for (i, file) in files.iter().enumerate() {
        if same_name(file.name, name) {
            return Some(i);
        }
    }
    None
}

fn same_name(a: Name, b: Name) -> bool
    ensures { result ≡ same_name a b }
{
    match (a, b) {
        (Name::Ds(a), Name::Ds(b)) => a == b,
        (Name::Log(a), Name::Log(b)) => a == b,
        (Name::SetImage(a), Name::SetImage(b)) => a == b,
        (Name::SetLog(a), Name::SetLog(b)) => a == b,
        _ => false,
    }
}

fn length_of(files: &[MemFile], name: Name) -> Option<u64>
    ensures { result ≡ option_map length (files_now files.now name) }
{
    match find_file(files, name) {
        Some(i) => match &files[i].bytes {
            Some(content) => Some(content.len() as u64),
            None => None,
        },
        None => None,
    }
}

fn least_log(files: &[MemFile], from: u32) -> Option<u32>
    ensures bound { IfSome result (λ n. from ≤ n) }
    ensures next { IsNextLog (files_now files.now) from result }
{
    let mut least = None;
    for file in files {
        least = lesser_log(files, file.name, from, least);
    }
    least
}

// The lesser of the least log so far and the log of this name, if it is one that is there and not below `from`.
fn lesser_log(files: &[MemFile], name: Name, from: u32, least: Option<u32>) -> Option<u32>
    ensures there { IfSome least (IsLogFrom (files_now files.now) from)
        → IfSome result (IsLogFrom (files_now files.now) from) }
    ensures below { (k : ℕ) → is_below k result ≡ true → is_below k least ≡ true }
    ensures own { (k : ℕ) → from ≤ k → is_below k result ≡ true → same_name name (Name.Log k) ≡ true
        → files_now files.now (Name.Log k) ≡ None }
{
    let Name::Log(n) = name else {
        return least;
    };
    if n < from {
        return least;
    }
    if !is_below(n, least) {
        return least;
    }
    if length_of(files, name).is_none() {
        return least;
    }
    Some(n)
}

fn is_below(n: u32, least: Option<u32>) -> bool
    ensures { result ≡ is_below n least }
{
    match least {
        Some(m) => n < m,
        None => true,
    }
}

fn read_content(content: &[u8], at: usize, buf: &mut [u8]) -> usize
    requires { at ≤ length content.now }
    ensures bound { result ≤ length buf.new }
    ensures bytes { Gives (Some content.now) at buf.new result }
{
    let rest = &content[at..];
    let count = rest.len().min(buf.len());
    buf[..count].copy_from_slice(&rest[..count]);
    count
}
