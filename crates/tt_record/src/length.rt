//! How many bytes an entry has, without writing it.
ghost use Rattle.std.specs.Prelude.{◌≡◌, ◌≤◌, ◌+◌, ◌*◌, length};
ghost use Rattle.tt_value.specs.Stored.{IsCell};
ghost use Rattle.tt_record.specs.Entry.{IsEntry, cell_bytes, length_of};

use crate::entry::Entry;
use tt_value::{Cell, ROW_MAX, stored_length};

#[tactic(auto, unfolding(tt_value::specs::BigEndian::big_endian))]
fn cell_length(cell: &Cell) -> u64
    requires { IsCell cell.now }
    ensures length { result ≡ length (cell_bytes cell.now) }
    ensures short { result ≤ ROW_MAX + 7 }
{
    match cell {
        Cell::Empty => 1,
        Cell::Full { table: _, row } => 7 + stored_length(row),
    }
}

/// How many bytes an entry has: 1 to `2 * ROW_MAX + 27`.
#[tactic(auto, unfolding(tt_value::specs::BigEndian::big_endian))]
pub fn entry_length(entry: &Entry) -> u64
    requires { IsEntry entry.now }
    ensures length { result ≡ length_of entry.now }
    ensures some { 1 ≤ result }
    ensures short { result ≤ 2 * ROW_MAX + 27 }
{
    match entry {
        Entry::Change {
            transaction: _,
            place: _,
            before,
            after,
        } => 13 + cell_length(before) + cell_length(after),
        Entry::Commit { .. } => 9,
        Entry::Abort { .. } => 9,
        Entry::Mark => 1,
        Entry::Switch { .. } => 5,
    }
}
