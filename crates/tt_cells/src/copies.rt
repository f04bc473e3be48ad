//! Copies of pages that lie side by side in one buffer, so that pages which follow each other in a
//! checkpoint file are written by one call.
//!
//! The buffer is taken once, by `new`. A round clears it, puts the copies of its pages behind each
//! other, in ascending order, and hands the whole to the writer, which asks for the bytes of each run
//! of pages. No call but `new` takes memory.
ghost use Rattle.std.specs.Prelude.{◌≡◌, ◌<◌, ◌≤◌, ◌+◌, ◌*◌, ◌++◌, length, take, drop, set, slice_index, IfOk};
ghost use Rattle.tt_cells.specs.Cells.{page_count, without_stale};
ghost use Rattle.tt_cells.specs.Copies.{AreSound, copy_of, joined, no_copies, numbered, pages_of, put_at, with_copy};
ghost use Rattle.tt_cells.specs.Limits.{copies_most, page_size};

use crate::cells::Cells;
use crate::{COPIES_MOST, PAGE_BYTES};
use std::alloc::{AllocError, Global};
use std::marker::Model;

/// Copies of pages, side by side in their order. Contracts see how many there may be, and the copies
/// that are there.
#[derive(Drop)]
pub struct PageCopies {
    count: u32,
    numbers: Vec<u32>,
    bytes: Vec<u8>,
}

impl Model for PageCopies {
    ghost use Rattle.tt_cells.specs.Copies.{Copies, copies_code, copies_in, AreKept};

    ghost Value = { Copies };

    ghost coded = { copies_code };

    ghost view = { λ c. copies_in c.count c.numbers.items c.bytes.items };

    ghost invariant = { λ c. AreKept c.count c.numbers.items c.bytes.items };
}

impl PageCopies {
    /// Room for 1 to 256 copies, none of them there.
    pub fn new(alloc: Global, room: u32) -> Result<PageCopies, AllocError>
        requires some { 1 ≤ room }
        requires most { room ≤ copies_most }
        ensures { IfOk result (λ c. c ≡ no_copies room) }
    {
        Ok(PageCopies {
            count: 0,
            numbers: blank_numbers(alloc, room as usize)?,
            bytes: blank_bytes(alloc, PAGE_BYTES * room as usize)?,
        })
    }

    /// How many copies there may be.
    pub fn room(&self) -> u32
        ensures { result ≡ self.now.room }
    {
        self.numbers.len() as u32
    }

    /// How many copies there are.
    pub fn len(&self) -> u32
        ensures len { result ≡ length self.now.copies }
        ensures sound { AreSound self.now }
    {
        self.count
    }

    /// The page's number of the copy at a place, the first being 0.
    pub fn page(&self, at: u32) -> u32
        requires { at < length self.now.copies }
        ensures { result ≡ slice_index (pages_of self.now.copies) at }
    {
        self.numbers[at as usize]
    }

    /// The bytes of so many copies from one on, one after another.
    pub fn bytes_of_run(&self, from: u32, count: u32) -> &[u8]
        requires { from + count ≤ length self.now.copies }
        ensures { result.now ≡ joined (take count (drop from self.now.copies)) }
    {
        piece(&self.bytes, from as usize, count as usize)
    }

    /// Takes all copies away. The room stays.
    pub fn clear(&mut self)
        ensures { self.new ≡ no_copies self.old.room }
    {
        self.count = 0;
    }

    /// Puts a copy of a page behind the others.
    pub fn push(&mut self, page: u32, bytes: &[u8])
        requires room { length self.old.copies < self.old.room }
        requires bytes { length bytes.now ≡ page_size }
        ensures { self.new ≡ with_copy (numbered page bytes.now) self.old }
    {
        let at = self.count as usize;
        put(&mut self.numbers, &mut self.bytes, at, page, bytes);
        self.count += 1;
    }
}

impl Cells {
    /// Puts a copy of a page behind the others, and the file then has the page. It takes no memory.
    pub fn copy_next(&mut self, file: u8, page: u32, into: &mut PageCopies)
        requires file { file ≤ 1 }
        requires page { page < page_count self.old }
        requires room { length into.old.copies < into.old.room }
        ensures cells { self.new ≡ without_stale file page self.old }
        ensures copies { into.new ≡ with_copy (copy_of page self.old) into.old }
    {
        into.push(page, self.bytes_of(page));
        self.clean(file, page);
    }
}

fn blank_numbers(alloc: Global, count: usize) -> Result<Vec<u32>, AllocError>
    ensures { IfOk result (λ numbers. length numbers.items ≡ count) }
{
    vec![in alloc; 0; count]
}

fn blank_bytes(alloc: Global, count: usize) -> Result<Vec<u8>, AllocError>
    ensures { IfOk result (λ bytes. length bytes.items ≡ count) }
{
    vec![in alloc; 0; count]
}

// The bytes of so many pages from one on.
fn piece(bytes: &[u8], from: usize, count: usize) -> &[u8]
    requires { page_size * (from + count) ≤ length bytes.now }
    ensures { result.now ≡ take (page_size * count) (drop (page_size * from) bytes.now) }
{
    let start = PAGE_BYTES * from;
    &bytes[start..start + PAGE_BYTES * count]
}

// Puts a page's number and its bytes over those at a place.
fn put(numbers: &mut [u32], bytes: &mut [u8], at: usize, page: u32, copied: &[u8])
    requires number { at < length numbers.old }
    requires bytes { page_size * at + page_size ≤ length bytes.old }
    requires copied { length copied.now ≡ page_size }
    ensures number { numbers.new ≡ set numbers.old at page }
    ensures bytes { bytes.new ≡ put_at page_size at copied.now bytes.old }
{
    numbers[at] = page;
    let start = PAGE_BYTES * at;
    bytes[start..start + PAGE_BYTES].copy_from_slice(copied);
}
