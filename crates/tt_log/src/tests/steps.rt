//! What the tests share: inserts with their places, and all that is forced.
ghost use Rattle.std.specs.Prelude.{◌≡◌, ◌<◌, ◌≤◌, OnOk, IfOk, false};
ghost use Rattle.tt_record.specs.Entry.{IsEntry};
ghost use Rattle.tt_log.specs.Calls.{IsOpenOn};
ghost use Rattle.tt_log.specs.Log.{first_file_of};
ghost use Rattle.tt_log.specs.Walk.{is_switch};

use crate::{Log, LogRefusal};
use std::alloc::Global;
use std::process::Abort;
use tt_disk::{Failed, Name, Volume};
use tt_record::Entry;
use tt_value::{Cell, Position, read_row};

pub(super) const ORIGIN: Position = Position { file: 0, offset: 0 };

// The row (1, 10) as it is stored, in 19 bytes.
const ROW: [u8; 19] = [2, 1, 0, 0, 0, 0, 0, 0, 0, 1, 1, 0, 0, 0, 0, 0, 0, 0, 10];

// So many of its inserts, of 40 bytes, fit into a file of 8,192 bytes.
const IN_A_FILE: u32 = 204;

// And so many into a buffer of 4,096.
const IN_THE_BUFFER: u32 = 102;

// How many inserts were handed to a log, and how many of the first of them are forced.
#[derive(Clone, Copy, Debug, PartialEq, Eq)]
pub(super) struct Reached {
    pub handed: u32,
    pub forced: u32,
}

// The insert of a stored row into table 16 at this place. It has 21 bytes more than the row.
pub(super) fn insert_of(
    rt: &impl Abort,
    alloc: Global,
    row: &[u8],
    place: u32,
) -> Result<Entry, LogRefusal>
    requires { place < 2097152 }
    ensures entry { IfOk result (λ e. IsEntry e) }
    ensures plain { IfOk result (λ e. is_switch e ≡ false) }
{
    let row = read_row(alloc, row)?.expect(rt, "a row");
    Ok(Entry::Change {
        transaction: 2,
        place,
        before: Cell::Empty,
        after: Cell::Full { table: 16, row },
    })
}

// Where the insert of this number stands, the first being 0.
fn place_of_insert(number: u32) -> Position {
    Position {
        file: number / IN_A_FILE,
        offset: number % IN_A_FILE * 40,
    }
}

// Adds an entry, if it has a place.
pub(super) fn add<V: Volume>(
    log: &mut Log,
    volume: &mut V,
    entry: &Entry,
) -> Result<Option<Position>, Failed>
    requires entry { IsEntry entry.now }
    requires plain { is_switch entry.now ≡ false }
    requires open { IsOpenOn V.Volume log.old volume.old }
    ensures open { OnOk result (IsOpenOn V.Volume log.new volume.new) }
    ensures first { OnOk result (first_file_of log.new ≡ first_file_of log.old) }
{
    if !log.has_place(entry) {
        return Ok(None);
    }
    Ok(Some(log.append(volume, entry)?))
}

// Adds inserts of the row (1, 10), until there are so many. One that begins a file, or for which the buffer has no
// room, forces all before it.
pub(super) fn add_inserts<V: Volume>(
    rt: &impl Abort,
    alloc: Global,
    log: &mut Log,
    volume: &mut V,
    reached: &mut Reached,
    until: u32,
) -> Result<(), LogRefusal>
    requires until { until < 2097152 }
    requires open { IsOpenOn V.Volume log.old volume.old }
    ensures open { OnOk result (IsOpenOn V.Volume log.new volume.new) }
    ensures first { OnOk result (first_file_of log.new ≡ first_file_of log.old) }
{
    'inserts: for number in reached.handed..until {
        let insert = insert_of(rt, alloc, &ROW, number)?;
        reached.handed = number + 1;
        let at = add(log, volume, &insert)?;
        assert_eq!(rt; at, Some(place_of_insert(number)));
        if number > 0 && number % IN_A_FILE == 0
            || number.saturating_sub(reached.forced) >= IN_THE_BUFFER
        {
            reached.forced = number;
        }
    }
    Ok(())
}

// Forces what was handed to the log.
pub(super) fn force_all<V: Volume>(
    log: &mut Log,
    volume: &mut V,
    reached: &mut Reached,
) -> Result<(), Failed>
    requires open { IsOpenOn V.Volume log.old volume.old }
    ensures open { OnOk result (IsOpenOn V.Volume log.new volume.new) }
    ensures first { OnOk result (first_file_of log.new ≡ first_file_of log.old) }
    ensures still { reached.new.handed ≡ reached.old.handed }
{
    log.force(volume)?;
    reached.forced = reached.handed;
    Ok(())
}

// All forced entries from a position on.
pub(super) fn forced_from<V: Volume>(
    alloc: Global,
    log: &Log,
    volume: &mut V,
    from: Position,
) -> Result<Vec<(Position, Entry)>, LogRefusal>
    requires open { IsOpenOn V.Volume log.now volume.old }
    requires low { first_file_of log.now ≤ from.file }
{
    let mut found = Vec::new(alloc);
    let mut scan = log.scan(from);
    'entries: for _ in 0..10_000 {
        match scan.next(log, volume)? {
            Some(entry) => {
                if found.push(entry).is_err() {
                    return Err(LogRefusal::NoMemory);
                }
            }
            None => return Ok(found),
        }
    }
    Ok(found)
}

fn is_same(one: &Entry, other: &Entry) -> bool {
    match (one, other) {
        (
            Entry::Change {
                transaction,
                place,
                before,
                after,
            },
            Entry::Change {
                transaction: other_transaction,
                place: other_place,
                before: other_before,
                after: other_after,
            },
        ) => {
            *transaction == *other_transaction
                && *place == *other_place
                && *before == *other_before
                && *after == *other_after
        }
        (
            Entry::Commit { transaction },
            Entry::Commit {
                transaction: other_transaction,
            },
        ) => *transaction == *other_transaction,
        (Entry::Mark, Entry::Mark) => true,
        _ => false,
    }
}

// Asserts that this entry was found, at this position.
pub(super) fn expect_found(
    rt: &impl Abort,
    found: Option<&(Position, Entry)>,
    at: Position,
    entry: &Entry,
) {
    let found = found.expect(rt, "one entry more");
    assert_eq!(rt; found.0, at);
    assert!(rt; is_same(&found.1, entry), "at {at:?}");
}

// Asserts that so many inserts of the row (1, 10) were found first, at their positions.
pub(super) fn expect_inserts(
    rt: &impl Abort,
    alloc: Global,
    found: &[(Position, Entry)],
    count: u32,
) -> Result<(), LogRefusal>
    requires { count < 2097152 }
{
    for number in 0..count {
        let insert = insert_of(rt, alloc, &ROW, number)?;
        expect_found(
            rt,
            found.get(number as usize),
            place_of_insert(number),
            &insert,
        );
    }
    Ok(())
}

// Makes a file of these bytes.
pub(super) fn write_file<V: Volume>(
    volume: &mut V,
    name: Name,
    bytes: &[u8],
) -> Result<(), Failed> {
    volume.create(name)?;
    volume.write_at(name, 0, bytes)?;
    Ok(())
}
