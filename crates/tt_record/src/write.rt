//! The bytes of an entry: a byte for its kind, then its fields, numbers with their highest byte first. A reader needs no length:
//! the fields say where the entry ends.
ghost use Rattle.std.specs.Prelude.{◌≡◌, ◌≤◌, ◌+◌, ◌++◌, ◌∷◌, List, ℕ, length, drop, Some};
ghost use Rattle.tt_value.specs.BigEndian.{big_endian};
ghost use Rattle.tt_record.specs.Entry.{IsEntry, cell_bytes, entry_bytes, length_of, overlaid};
ghost use Rattle.tt_value.specs.Stored.{IsCell, IsStorable, row_bytes};
ghost use Rattle.tt_record.specs.Read.{entry_at};
ghost use Rattle.tt_value.specs.declared.value.Cell.TheVariants.{Full};

use crate::entry::Entry;
use tt_value::big_endian::{write_u16, write_u32, write_u64};
use tt_value::{Cell, Row, stored_length, write_row_into};

#[tactic(auto, unfolding(tt_value::specs::BigEndian::big_endian))]
fn write_full(table: u32, row: &Row, out: &mut [u8]) -> usize
    requires row { IsStorable row.now }
    requires room { length (cell_bytes (Full table row.now)) ≤ length out.old }
    ensures length { result ≡ length (cell_bytes (Full table row.now)) }
    ensures bytes { out.new ≡ cell_bytes (Full table row.now) ++ drop (length (cell_bytes (Full table row.now))) out.old }
{
    out[0] = 1;
    write_u32(&mut out[1..], table);
    write_u16(&mut out[5..], stored_length(row) as u16);
    7 + write_row_into(row, &mut out[7..])
}

// Writes a cell at the front, and answers its length.
fn write_cell(cell: &Cell, out: &mut [u8]) -> usize
    requires cell { IsCell cell.now }
    requires room { length (cell_bytes cell.now) ≤ length out.old }
    ensures length { result ≡ length (cell_bytes cell.now) }
    ensures bytes { out.new ≡ cell_bytes cell.now ++ drop (length (cell_bytes cell.now)) out.old }
{
    match cell {
        Cell::Empty => {
            out[0] = 0;
            1
        }
        Cell::Full { table, row } => write_full(*table, row, out),
    }
}

#[tactic(auto, unfolding(tt_value::specs::BigEndian::big_endian))]
fn write_numbers(transaction: u64, place: u32, out: &mut [u8])
    requires { 13 ≤ length out.old }
    ensures { out.new ≡ 1 ∷ (big_endian 8 transaction ++ (big_endian 4 place ++ drop 13 out.old)) }
{
    out[0] = 1;
    write_u64(&mut out[1..], transaction);
    write_u32(&mut out[9..], place);
}

fn write_cells(before: &Cell, after: &Cell, out: &mut [u8]) -> usize
    requires before { IsCell before.now }
    requires after { IsCell after.now }
    requires room { length (cell_bytes before.now ++ cell_bytes after.now) ≤ length out.old }
    ensures length { result ≡ length (cell_bytes before.now ++ cell_bytes after.now) }
    ensures bytes { out.new ≡ overlaid (cell_bytes before.now ++ cell_bytes after.now) out.old }
{
    let at = write_cell(before, out);
    at + write_cell(after, &mut out[at..])
}

fn write_ended(kind: u8, transaction: u64, out: &mut [u8])
    requires { 9 ≤ length out.old }
    ensures { out.new ≡ kind ∷ (big_endian 8 transaction ++ drop 9 out.old) }
{
    out[0] = kind;
    write_u64(&mut out[1..], transaction);
}

/// Writes an entry at the front, and answers its length. It takes no memory.
#[tactic(auto, unfolding(tt_value::specs::BigEndian::big_endian))]
pub fn write_entry(entry: &Entry, out: &mut [u8]) -> usize
    requires entry { IsEntry entry.now }
    requires room { length_of entry.now ≤ length out.old }
    ensures length { result ≡ length_of entry.now }
    ensures bytes { out.new ≡ entry_bytes entry.now ++ drop (length_of entry.now) out.old }
    // What is written is read back, whatever follows it.
    ensures back { (rest : List ℕ) →
        entry_at (entry_bytes entry.now ++ rest) ≡ Some (entry.now, length_of entry.now) }
{
    match entry {
        Entry::Change {
            transaction,
            place,
            before,
            after,
        } => {
            write_numbers(*transaction, *place, out);
            13 + write_cells(before, after, &mut out[13..])
        }
        Entry::Commit { transaction } => {
            write_ended(2, *transaction, out);
            9
        }
        Entry::Abort { transaction } => {
            write_ended(3, *transaction, out);
            9
        }
        Entry::Mark => {
            out[0] = 4;
            1
        }
        Entry::Switch { file } => {
            out[0] = 5;
            write_u32(&mut out[1..], *file);
            5
        }
    }
}
