//! An entry from the bytes that begin with it. Each field is read by a function of its own, which answers how many bytes it has; bytes
//! that no entry has are told as none.
ghost use Rattle.std.specs.Prelude.{◌≡◌, ◌≤◌, ◌+◌, length, drop, IfOk, IfSome, OnSome, Some};
ghost use Rattle.tt_value.specs.ReadingRows.{row_in};
ghost use Rattle.tt_record.specs.Entry.{BeginsWith, length_of, of_one_table};
ghost use Rattle.tt_record.specs.Read.{transaction_at, full_at, cell_at, cells_at, changed_at, change_at, switch_at, with_second, committed, aborted, entry_at};
ghost use Rattle.tt_record.specs.declared.entry.Entry.{Entry};

use crate::entry::Entry;
use crate::{PLACES_END, TRANSACTIONS_END};
use std::alloc::{AllocError, Global};
use tt_value::big_endian::{read_u16, read_u32, read_u64};
use tt_value::{Cell, Row, read_row};

#[tactic(auto, unfolding(crate::specs::Read::transaction_at))]
fn read_transaction(bytes: &[u8]) -> Option<u64>
    ensures value { result ≡ transaction_at bytes.now }
    ensures long { OnSome result (8 ≤ length bytes.now) }
{
    if bytes.len() < 8 {
        return None;
    }
    let transaction = read_u64(bytes);
    if transaction < 1 || transaction >= TRANSACTIONS_END {
        return None;
    }
    Some(transaction)
}

// Of the clauses of `read_row` the one that a cell's reading goes by.
fn row_of(alloc: Global, bytes: &[u8]) -> Result<Option<Row>, AllocError>
    ensures { IfOk result (λ o. o ≡ row_in bytes.now) }
{
    read_row(alloc, bytes)
}

#[tactic(auto, unfolding(crate::specs::Read::full_at))]
fn read_full(alloc: Global, bytes: &[u8]) -> Result<Option<(Cell, usize)>, AllocError>
    ensures value { IfOk result (λ o. o ≡ full_at bytes.now) }
    ensures within { IfOk result (λ o. IfSome o (λ p. p.1 ≤ length bytes.now + 1)) }
{
    if bytes.len() < 6 {
        return Ok(None);
    }
    let table = read_u32(bytes);
    let size = read_u16(&bytes[4..]) as usize;
    if table < 1 || bytes.len() < size + 6 {
        return Ok(None);
    }
    match row_of(alloc, &bytes[6..6 + size])? {
        Some(row) => Ok(Some((Cell::Full { table, row }, size + 7))),
        None => Ok(None),
    }
}

// The cell at the front, and how many bytes it takes.
#[tactic(auto, unfolding(crate::specs::Read::cell_at))]
fn read_cell(alloc: Global, bytes: &[u8]) -> Result<Option<(Cell, usize)>, AllocError>
    ensures value { IfOk result (λ o. o ≡ cell_at bytes.now) }
    ensures within { IfOk result (λ o. IfSome o (λ p. p.1 ≤ length bytes.now)) }
{
    if bytes.is_empty() {
        return Ok(None);
    }
    match bytes[0] {
        0 => Ok(Some((Cell::Empty, 1))),
        1 => read_full(alloc, &bytes[1..]),
        _ => Ok(None),
    }
}

fn of_one_table(before: &Cell, after: &Cell) -> bool
    ensures { result ≡ of_one_table before.now after.now }
{
    match (before, after) {
        (Cell::Empty, Cell::Empty) => false,
        (
            Cell::Full { table, row: _ },
            Cell::Full {
                table: other,
                row: _,
            },
        ) => *table == *other,
        _ => true,
    }
}

// The cell behind another one, where the two are of one table, with how many bytes both take.
fn read_second(
    alloc: Global,
    bytes: &[u8],
    before: Cell,
    at: usize,
) -> Result<Option<(Cell, Cell, usize)>, AllocError>
    requires { at ≤ length bytes.now }
    ensures value { IfOk result (λ o. o ≡ with_second (before, at) (cell_at (drop at bytes.now))) }
    ensures within { IfOk result (λ o. IfSome o (λ p. p.2 ≤ length bytes.now)) }
{
    match read_cell(alloc, &bytes[at..])? {
        Some((after, length)) => {
            if of_one_table(&before, &after) {
                Ok(Some((before, after, at + length)))
            } else {
                Ok(None)
            }
        }
        None => Ok(None),
    }
}

#[tactic(auto, unfolding(crate::specs::Read::cells_at))]
fn read_cells(alloc: Global, bytes: &[u8]) -> Result<Option<(Cell, Cell, usize)>, AllocError>
    ensures value { IfOk result (λ o. o ≡ cells_at bytes.now) }
    ensures within { IfOk result (λ o. IfSome o (λ p. p.2 ≤ length bytes.now)) }
{
    match read_cell(alloc, bytes)? {
        Some((before, at)) => read_second(alloc, bytes, before, at),
        None => Ok(None),
    }
}

fn read_changed(
    alloc: Global,
    transaction: u64,
    bytes: &[u8],
) -> Result<Option<(Entry, usize)>, AllocError>
    ensures value { IfOk result (λ o. o ≡ changed_at transaction bytes.now) }
    ensures within { IfOk result (λ o. IfSome o (λ p. p.1 ≤ length bytes.now + 9)) }
{
    if bytes.len() < 4 {
        return Ok(None);
    }
    let place = read_u32(bytes);
    if place >= PLACES_END {
        return Ok(None);
    }
    match read_cells(alloc, &bytes[4..])? {
        Some((before, after, length)) => Ok(Some((
            Entry::Change {
                transaction,
                place,
                before,
                after,
            },
            13 + length,
        ))),
        None => Ok(None),
    }
}

#[tactic(auto, unfolding(crate::specs::Read::change_at, crate::specs::Read::cells_at))]
fn read_change(alloc: Global, bytes: &[u8]) -> Result<Option<(Entry, usize)>, AllocError>
    ensures value { IfOk result (λ o. o ≡ change_at bytes.now) }
    ensures within { IfOk result (λ o. IfSome o (λ p. p.1 ≤ length bytes.now + 1)) }
{
    match read_transaction(bytes) {
        Some(transaction) => read_changed(alloc, transaction, &bytes[8..]),
        None => Ok(None),
    }
}

fn read_commit(bytes: &[u8]) -> Option<(Entry, usize)>
    ensures value { result ≡ committed (transaction_at bytes.now) }
    ensures within { IfSome result (λ p. p.1 ≤ length bytes.now + 1) }
{
    match read_transaction(bytes) {
        Some(transaction) => Some((Entry::Commit { transaction }, 9)),
        None => None,
    }
}

fn read_abort(bytes: &[u8]) -> Option<(Entry, usize)>
    ensures value { result ≡ aborted (transaction_at bytes.now) }
    ensures within { IfSome result (λ p. p.1 ≤ length bytes.now + 1) }
{
    match read_transaction(bytes) {
        Some(transaction) => Some((Entry::Abort { transaction }, 9)),
        None => None,
    }
}

#[tactic(auto, unfolding(crate::specs::Read::switch_at))]
fn read_switch(bytes: &[u8]) -> Option<(Entry, usize)>
    ensures value { result ≡ switch_at bytes.now }
    ensures within { IfSome result (λ p. p.1 ≤ length bytes.now + 1) }
{
    if bytes.len() < 4 {
        return None;
    }
    Some((
        Entry::Switch {
            file: read_u32(bytes),
        },
        5,
    ))
}

#[tactic(auto, unfolding(crate::specs::Read::entry_at))]
fn read_first(alloc: Global, bytes: &[u8]) -> Result<Option<(Entry, usize)>, AllocError>
    ensures first { IfOk result (λ o. o ≡ entry_at bytes.now) }
    ensures within { IfOk result (λ o. IfSome o (λ p. p.1 ≤ length bytes.now)) }
{
    if bytes.is_empty() {
        return Ok(None);
    }
    let rest = &bytes[1..];
    match bytes[0] {
        1 => read_change(alloc, rest),
        2 => Ok(read_commit(rest)),
        3 => Ok(read_abort(rest)),
        4 => Ok(Some((Entry::Mark, 1))),
        5 => Ok(read_switch(rest)),
        _ => Ok(None),
    }
}

/// The first entry, and how many bytes it has, whatever follows it; `None` exactly where no front of the bytes is an
/// entry's. A `Switch` is read with any file's number.
pub fn read_entry(alloc: Global, bytes: &[u8]) -> Result<Option<(Entry, usize)>, AllocError>
    // What is read stands at the front.
    ensures read { IfOk result (λ o. IfSome o (λ p. BeginsWith bytes.now p.0 × (p.1 ≡ length_of p.0))) }
    // An entry at the front is read.
    ensures only { IfOk result (λ o. (e : Entry) → BeginsWith bytes.now e → o ≡ Some (e, length_of e)) }
    ensures first { IfOk result (λ o. o ≡ entry_at bytes.now) }
    ensures within { IfOk result (λ o. IfSome o (λ p. (1 ≤ p.1) × (p.1 ≤ length bytes.now))) }
{
    read_first(alloc, bytes)
}
