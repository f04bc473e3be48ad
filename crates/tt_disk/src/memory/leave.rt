//! What a crash leaves of a volume in memory: of each file by itself, and chosen by a number, the pick.
//!
//! At pick 0 it is the least: what the last sync left, cut to the least length since. At pick 1 it is what a read gives. At any
//! other pick each step since the last sync is done in whole, in part or not at all, as the numbers drawn from the pick say.
ghost use Rattle.std.specs.Prelude.{◌≡◌, ◌+◌, ◌≤◌, List, ℕ, Option, true, length, take, drop, OnOk, IfOk, map};
ghost use Rattle.tt_disk.specs.Steps.{Does, Leads, contents};
ghost use Rattle.tt_disk.specs.File.{file_may};
ghost use Rattle.tt_disk.specs.Leave.{least_of, was_emptied, each_contents, AreLeft};
ghost use Rattle.tt_disk.specs.Volume.{File, TornBytes};

use super::file::{MemFile, Step};
use super::picks::{ByteSource, Picks};
use std::alloc::{AllocError, Global};

pub(super) fn left_files(
    alloc: Global,
    files: &[MemFile],
    pick: u64,
) -> Result<Vec<MemFile>, AllocError>
    ensures left { IfOk result (λ left. AreLeft files.now left.items) }
    ensures least { pick ≡ 0 → IfOk result (λ left. each_contents left.items ≡ map least_of files.now) }
    ensures as_read { pick ≡ 1 → IfOk result (λ left. each_contents left.items ≡ each_contents files.now) }
{
    let mut left = Vec::new(alloc);
    for (i, file) in files.iter().enumerate() {
        left.push(left_file(alloc, file, pick, i as u64)?)?;
    }
    Ok(left)
}

fn left_file(alloc: Global, file: &MemFile, pick: u64, index: u64) -> Result<MemFile, AllocError>
    ensures name { IfOk result (λ left. left.name ≡ file.now.name) }
    ensures left { IfOk result (λ left. file_may file.now (contents left.bytes)) }
    ensures settled { IfOk result (λ left. (c : File) → file_may left c → c ≡ contents left.bytes) }
    ensures least { pick ≡ 0 → IfOk result (λ left. contents left.bytes ≡ least_of file.now) }
    ensures as_read { pick ≡ 1 → IfOk result (λ left. contents left.bytes ≡ contents file.now.bytes) }
{
    let bytes = if pick == 1 {
        copy_of(alloc, &file.bytes)?
    } else if pick == 0 {
        least_content(alloc, file)?
    } else {
        after_steps(
            alloc,
            &file.settled,
            &file.steps,
            bytes_of(&file.bytes),
            Picks::new(pick, index),
        )?
    };
    let settled = copy_of(alloc, &bytes)?;
    Ok(MemFile {
        name: file.name,
        bytes,
        settled,
        steps: Vec::new(alloc),
    })
}

fn least_content(alloc: Global, file: &MemFile) -> Result<Option<Vec<u8>>, AllocError>
    ensures least { IfOk result (λ left. contents left ≡ least_of file.now) }
    ensures left { IfOk result (λ left. file_may file.now (contents left)) }
{
    if file.settled.is_some() && was_emptied(&file.steps) {
        Ok(Some(Vec::new(alloc)))
    } else {
        copy_of(alloc, &file.settled)
    }
}

// Whether these steps emptied a file that was there before them. One that was removed and made again was not emptied.
fn was_emptied(steps: &[Step]) -> bool
    ensures { result ≡ was_emptied true steps.now }
{
    let mut is_there = true;
    for step in steps {
        match step {
            Step::Create => if is_there {
                return true;
            } else {
                is_there = true;
            },
            Step::Make | Step::Write { .. } => is_there = true,
            Step::Remove => is_there = false,
        }
    }
    false
}

fn bytes_of(content: &Option<Vec<u8>>) -> &[u8] {
    match content {
        Some(bytes) => bytes.as_slice(),
        None => &[],
    }
}

fn copy_of(alloc: Global, content: &Option<Vec<u8>>) -> Result<Option<Vec<u8>>, AllocError>
    ensures { IfOk result (λ copy. contents copy ≡ contents content.now) }
{
    Ok(match content {
        Some(bytes) => Some(bytes.to_vec(alloc)?),
        None => None,
    })
}

fn after_steps(
    alloc: Global,
    settled: &Option<Vec<u8>>,
    steps: &[Step],
    now: &[u8],
    picks: Picks,
) -> Result<Option<Vec<u8>>, AllocError>
    ensures { IfOk result (λ after. Leads steps.now (contents settled.now) (contents after)) }
{
    let mut picks = picks;
    let mut content = copy_of(alloc, settled)?;
    let mut is_there = content.is_some();
    for step in steps {
        content = after_step(alloc, content, *step, is_there, now, &mut picks)?;
        is_there = !matches!(step, Step::Remove);
    }
    Ok(content)
}

// What a crash may leave of a file after a step. Whether the file was there then tells a create that empties from one that makes.
fn after_step(
    alloc: Global,
    content: Option<Vec<u8>>,
    step: Step,
    is_there: bool,
    now: &[u8],
    picks: &mut Picks,
) -> Result<Option<Vec<u8>>, AllocError>
    ensures { IfOk result (λ after. Does step (contents content) (contents after)) }
{
    match step {
        Step::Create => match content {
            Some(bytes) if is_there => Ok(Some(after_emptying(bytes, now, picks))),
            before => Ok(if picks.is_done() {
                Some(Vec::new(alloc))
            } else {
                before
            }),
        },
        Step::Make => Ok(if picks.is_done() {
            Some(Vec::new(alloc))
        } else {
            content
        }),
        Step::Write { at, len } => match content {
            Some(bytes) => Ok(Some(after_write(bytes, at, len, now, picks)?)),
            None => Ok(None),
        },
        Step::Remove => Ok(if picks.is_done() { None } else { content }),
    }
}

// A file that was there and was emptied: any bytes, no more than before.
fn after_emptying(bytes: Vec<u8>, now: &[u8], picks: &mut Picks) -> Vec<u8>
    ensures { length result.items ≤ length bytes.items }
{
    let mut after = bytes;
    let long = picks.length_up_to(after.len() as u64);
    after.truncate(long as usize);
    let count = after.len();
    tear_range(&mut after, 0, count, now, picks);
    after
}

// Any bytes in the range of a write, up to its end at most.
fn after_write(
    bytes: Vec<u8>,
    at: u64,
    len: u64,
    now: &[u8],
    picks: &mut Picks,
) -> Result<Vec<u8>, AllocError>
    ensures { IfOk result (λ after. TornBytes at len bytes.items after.items) }
{
    let mut after = bytes;
    let size = after.len() as u64;
    if at > size {
        return Ok(after);
    }
    let end = at.saturating_add(len);
    let grown = if end > size {
        size + picks.length_up_to(end - size)
    } else {
        size
    };
    let until = if end < grown { end } else { grown };
    grow(&mut after, grown as usize)?;
    tear_range(&mut after, at as usize, (until - at) as usize, now, picks);
    Ok(after)
}

fn grow(content: &mut Vec<u8>, size: usize) -> Result<(), AllocError>
    requires { length content.old.items ≤ size }
    ensures long { OnOk result (length content.new.items ≡ size) }
    ensures front { OnOk result (take (length content.old.items) content.new.items ≡ content.old.items) }
{
    content.resize(size, 0)
}

// Tears a range of bytes: each is the old one, the one that a read gives, or any.
fn tear_range(content: &mut Vec<u8>, from: usize, count: usize, now: &[u8], picks: &mut Picks)
    requires { from + count ≤ length content.old.items }
    ensures long { length content.new.items ≡ length content.old.items }
    ensures front { take from content.new.items ≡ take from content.old.items }
    ensures back { drop (from + count) content.new.items ≡ drop (from + count) content.old.items }
{
    let source = picks.source();
    for i in 0..count {
        let place = from + i;
        content[place] = picks.byte(source, content[place], now.get(place).copied());
    }
}
