//! The pages of a checkpoint file. Page i lies at 64 + 8,192 * i, whatever pages there are.
//!
//! Pages are written behind a closed gate, where a crash may leave any bytes of them, and nothing is
//! synced here: `finish_image` syncs them before it opens the gate. Copies of pages that follow each
//! other lie side by side in memory as in the file, so each run of them is one call on the volume.
ghost use Rattle.std.specs.Prelude.{◌≡◌, ◌≢◌, ◌<◌, ◌≤◌, ◌+◌, ◌-◌, ◌++◌, length, take, drop, replicate, slice_index, IsSome, OnOk};
ghost use Rattle.tt_disk.specs.Calls.{KeepsFiles, ChangesOnly, HasFile, HasOffset};
ghost use Rattle.tt_image.specs.Calls.{MakesPagesOn, ReadsPaddedOn, HasPageStart, CrashLeavesShutOn};
ghost use Rattle.tt_disk.specs.Faults.{HasCause};
ghost use Rattle.tt_disk.specs.Volume.{Keeps, bytes_of, size_of};
ghost use Rattle.tt_disk.specs.Volume.{OnlyAt};
ghost use Rattle.tt_cells.specs.Limits.{page_size};
ghost use Rattle.tt_cells.specs.Copies.{AreWhole, pages_of};
ghost use Rattle.tt_image.specs.Head.{page_start};
ghost use Rattle.tt_image.specs.Pages.{padded, page_of, page_at, EndsRun};
ghost use Rattle.tt_image.specs.Pages.{AreFrom, BeginWithin, with_pages};
ghost use Rattle.tt_image.specs.Crash.{LeavesShut};

use crate::head::HEAD_BYTES;
use tt_cells::{PAGE_BYTES, PageCopies, PageCopy};
use tt_disk::{Failed, Name, Volume};

/// Writes the first `count` of these pages behind a closed gate, one after the other. Each begins
/// within the file that those before it leave. Nothing is synced: what a read gives of the pages is
/// what `finish_image` will sync. Pages that follow each other, each next to the one before, are
/// written by one call.
///
/// A crash leaves the gate closed, also where it fails.
pub fn write_pages<V: Volume>(
    volume: &mut V,
    name: Name,
    copies: &PageCopies,
    count: u32,
) -> Result<(), Failed>
    requires count { count ≤ length copies.now.copies }
    requires shut { CrashLeavesShutOn V.Volume name volume.old }
    requires within { V.told → BeginWithin (size_of (V.now volume.old name)) (take count copies.now.copies) }
    ensures written { MakesPagesOn V.Volume name volume.old volume.new (take count copies.now.copies) result }
    ensures shut { CrashLeavesShutOn V.Volume name volume.new }
    ensures others { ChangesOnly V.Volume name volume.old volume.new }
    ensures cause { HasCause V.exact (V.faults volume.old) (V.faults volume.new) result }
{
    // That each copy has a page's bytes is said where they are counted.
    let _all = copies.len();
    let mut from = 0;
    while from < count {
        let run = run_length(copies, from, count);
        match write_run(volume, name, copies, from, run) {
            Ok(()) => {}
            Err(Failed) => return Err(Failed),
        }
        from += run;
    }
    Ok(())
}

/// Reads a page into a copy, which gets its number. What lies past the file's end reads as zeros. No
/// file changes. Where it fails, the copy's bytes may be any.
pub fn read_page<V: Volume>(
    volume: &mut V,
    name: Name,
    page: u32,
    into: &mut PageCopy,
) -> Result<(), Failed>
    requires bytes { length into.old.bytes ≡ page_size }
    requires within { HasPageStart V.Volume name page volume.old }
    ensures page { V.told → OnOk result (into.new.bytes ≡ page_of page (V.now volume.old name)) }
    ensures number { OnOk result (into.new.page ≡ page) }
    ensures bytes { length into.new.bytes ≡ page_size }
    ensures keeps { KeepsFiles V.Volume volume.old volume.new }
    ensures cause { HasCause V.exact (V.faults volume.old) (V.faults volume.new) result }
{
    read_padded(volume, name, start_of(page), into.bytes.as_mut_slice())?;
    into.page = page;
    Ok(())
}

// How many copies from one on, and before the end, are of pages that follow each other. It is as many
// as there are.
fn run_length(copies: &PageCopies, from: u32, end: u32) -> u32
    requires some { from < end }
    requires end { end ≤ length copies.now.copies }
    ensures some { 1 ≤ result }
    ensures within { from + result ≤ end }
    ensures run { AreFrom (page_at from copies.now.copies) (take result (drop from copies.now.copies)) }
    ensures longest { from + result < end → EndsRun from result copies.now.copies }
{
    let first = copies.page(from);
    for count in 1..end - from {
        if copies.page(from + count) as u64 != first as u64 + count as u64 {
            return count;
        }
    }
    end - from
}

// Writes copies of pages that follow each other behind a closed gate, by one call.
fn write_run<V: Volume>(
    volume: &mut V,
    name: Name,
    copies: &PageCopies,
    from: u32,
    count: u32,
) -> Result<(), Failed>
    requires some { 1 ≤ count }
    requires count { from + count ≤ length copies.now.copies }
    requires whole { AreWhole copies.now.copies }
    requires run { AreFrom (page_at from copies.now.copies) (take count (drop from copies.now.copies)) }
    requires shut { CrashLeavesShutOn V.Volume name volume.old }
    requires within { HasPageStart V.Volume name (page_at from copies.now.copies) volume.old }
    ensures written { MakesPagesOn V.Volume name volume.old volume.new (take count (drop from copies.now.copies)) result }
    ensures shut { CrashLeavesShutOn V.Volume name volume.new }
    ensures others { ChangesOnly V.Volume name volume.old volume.new }
    ensures cause { HasCause V.exact (V.faults volume.old) (V.faults volume.new) result }
{
    volume.write_at(
        name,
        start_of(copies.page(from)),
        copies.bytes_of_run(from, count),
    )
}

// Where a page begins.
fn start_of(page: u32) -> u64
    ensures { result ≡ page_start page }
{
    HEAD_BYTES as u64 + PAGE_BYTES as u64 * page as u64
}

// Reads so many bytes of a file, with zeros past its end.
fn read_padded<V: Volume>(
    volume: &mut V,
    name: Name,
    at: u64,
    bytes: &mut [u8],
) -> Result<(), Failed>
    requires there { HasFile V.Volume name volume.old }
    requires within { HasOffset V.Volume name at volume.old }
    ensures bytes { ReadsPaddedOn V.Volume name at volume.old bytes.old bytes.new result }
    ensures keeps { KeepsFiles V.Volume volume.old volume.new }
    ensures cause { HasCause V.exact (V.faults volume.old) (V.faults volume.new) result }
{
    let given = volume.read_at(name, at, bytes)?;
    blank_from(bytes, given);
    Ok(())
}

// Puts zeros over all bytes from one on.
fn blank_from(bytes: &mut [u8], from: usize)
    requires { from ≤ length bytes.old }
    ensures { bytes.new ≡ take from bytes.old ++ replicate (length bytes.old - from) 0 }
{
    bytes[from..].fill(0);
}
