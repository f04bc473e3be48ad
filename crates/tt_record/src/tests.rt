//! Entries and their places at the bounds of the format.
use crate::{Entry, entry_end, entry_length, place_entry, read_entry, write_entry};
use std::alloc::Global;
use std::process::Abort;
use std::test::Fail;
use tt_value::{Cell, Position, ROW_MAX, read_row};

// The most bytes that an entry has.
const ENTRY_MAX: usize = 2 * ROW_MAX + 27;

// The insert of the row (1, 10) by transaction 2 into table 16 at place 3.
const INSERT: [u8; 40] = [
    1, 0, 0, 0, 0, 0, 0, 0, 2, 0, 0, 0, 3, 0, 1, 0, 0, 0, 16, 0, 19, 2, 1, 0, 0, 0, 0, 0, 0, 0, 1,
    1, 0, 0, 0, 0, 0, 0, 0, 10,
];

// Asserts that all but the last two bytes are an entry that is read, and written again as it was.
fn expect_entry(rt: &impl Abort, alloc: Global, bytes: &[u8]) -> Result<(), Fail> {
    match read_entry(alloc, bytes)? {
        Some((entry, length)) => {
            assert_eq!(rt; length + 2, bytes.len());
            assert_eq!(rt; entry_length(&entry), length as u64);
            let mut written = [0; ENTRY_MAX];
            assert_eq!(rt; write_entry(&entry, &mut written), length);
            assert_eq!(rt; written[..length], bytes[..length]);
        }
        None => {
            assert!(rt; false);
        }
    }
    Ok(())
}

// Asserts that the insert is written as its bytes, with nothing written behind them.
fn expect_insert(rt: &impl Abort, alloc: Global) -> Result<(), Fail> {
    if let Some(row) = read_row(alloc, &INSERT[21..])? {
        let insert = Entry::Change {
            transaction: 2,
            place: 3,
            before: Cell::Empty,
            after: Cell::Full { table: 16, row },
        };
        assert_eq!(rt; entry_length(&insert), 40);
        let mut written = [238; ENTRY_MAX];
        let length = write_entry(&insert, &mut written);
        assert_eq!(rt; &written[..length], INSERT.as_slice());
        assert_eq!(rt; written[40], 238);
    }
    Ok(())
}

#[test]
fn entries_and_places_at_their_bounds(rt: HostRuntime) -> Result<(), Fail> {
    expect_insert(&rt, rt.alloc())?;
    let taken: [&[u8]; 10] = [
        &[
            1, 0, 0, 0, 0, 0, 0, 0, 2, 0, 0, 0, 3, 0, 1, 0, 0, 0, 16, 0, 19, 2, 1, 0, 0, 0, 0, 0,
            0, 0, 1, 1, 0, 0, 0, 0, 0, 0, 0, 10, 9, 9,
        ],
        &[
            1, 0, 0, 0, 0, 0, 0, 0, 1, 0, 0, 0, 0, 1, 0, 0, 0, 1, 0, 2, 1, 0, 0, 9, 9,
        ],
        &[
            1, 0, 0, 255, 255, 255, 255, 255, 255, 0, 31, 255, 255, 1, 255, 255, 255, 255, 0, 2, 1,
            0, 1, 255, 255, 255, 255, 0, 2, 1, 0, 9, 9,
        ],
        &[2, 0, 0, 0, 0, 0, 0, 0, 1, 9, 9],
        &[2, 0, 0, 255, 255, 255, 255, 255, 255, 9, 9],
        &[3, 0, 0, 0, 0, 0, 0, 0, 1, 9, 9],
        &[3, 0, 0, 255, 255, 255, 255, 255, 255, 9, 9],
        &[4, 9, 9],
        &[5, 0, 0, 0, 0, 9, 9],
        &[5, 255, 255, 255, 255, 9, 9],
    ];
    for bytes in taken {
        expect_entry(&rt, rt.alloc(), bytes)?;
    }
    let refused: [&[u8]; 17] = [
        &[],
        &[0],
        &[6, 0, 0, 0, 0, 0, 0, 0, 1],
        &[2, 0, 0, 0, 0, 0, 0, 0],
        &[2, 0, 0, 0, 0, 0, 0, 0, 0],
        &[3, 0, 1, 0, 0, 0, 0, 0, 0],
        &[5, 0, 0, 0],
        &INSERT[..39],
        // a transaction numbered 0; a place of 2,097,152; two empty cells
        &[
            1, 0, 0, 0, 0, 0, 0, 0, 0, 0, 0, 0, 0, 1, 0, 0, 0, 1, 0, 2, 1, 0, 0,
        ],
        &[
            1, 0, 0, 0, 0, 0, 0, 0, 1, 0, 32, 0, 0, 1, 0, 0, 0, 1, 0, 2, 1, 0, 0,
        ],
        &[1, 0, 0, 0, 0, 0, 0, 0, 1, 0, 0, 0, 0, 0, 0],
        // no second cell; a cell tagged 2; a table of id 0; two tables
        &[
            1, 0, 0, 0, 0, 0, 0, 0, 1, 0, 0, 0, 0, 1, 0, 0, 0, 1, 0, 2, 1, 0,
        ],
        &[
            1, 0, 0, 0, 0, 0, 0, 0, 1, 0, 0, 0, 0, 2, 0, 0, 0, 1, 0, 2, 1, 0, 0,
        ],
        &[
            1, 0, 0, 0, 0, 0, 0, 0, 1, 0, 0, 0, 0, 1, 0, 0, 0, 0, 0, 2, 1, 0, 0,
        ],
        &[
            1, 0, 0, 0, 0, 0, 0, 0, 1, 0, 0, 0, 0, 1, 0, 0, 0, 1, 0, 2, 1, 0, 1, 0, 0, 0, 2, 0, 2,
            1, 0,
        ],
        // a row's length of one less and of one more
        &[
            1, 0, 0, 0, 0, 0, 0, 0, 1, 0, 0, 0, 0, 1, 0, 0, 0, 1, 0, 1, 1, 0, 0,
        ],
        &[
            1, 0, 0, 0, 0, 0, 0, 0, 1, 0, 0, 0, 0, 1, 0, 0, 0, 1, 0, 3, 1, 0, 0, 0,
        ],
    ];
    for bytes in refused {
        assert!(rt; read_entry(rt.alloc(), bytes)?.is_none());
    }
    // file and offset of an end, a length, and the file and offset of the place, in files of 8,192 bytes
    let placed = [
        (0, 8_151, 41, 0, 8_151),
        (0, 8_152, 41, 1, 0),
        (999_998, 8_192, 1, 999_999, 0),
        (999_999, 8_191, 1, 999_999, 8_191),
    ];
    for (file, offset, length, to_file, to_offset) in placed {
        let place = Position {
            file: to_file,
            offset: to_offset,
        };
        assert_eq!(rt;
            place_entry(Position { file, offset }, length, 8_192),
            Some(place)
        );
    }
    let last = entry_end(
        Position {
            file: 999_999,
            offset: 8_151,
        },
        41,
    );
    assert_eq!(rt;
        last,
        Position {
            file: 999_999,
            offset: 8_192
        }
    );
    assert_eq!(rt; place_entry(last, 1, 8_192), None);
    assert_eq!(rt; place_entry(last, u64::MAX, 8_192), None);
    Ok(())
}
