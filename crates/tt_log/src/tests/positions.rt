//! Positions from which a log is opened, and files that are damaged.
use super::steps::{forced_from, write_file};
use crate::{Log, LogRefusal};
use std::alloc::Global;
use std::test::Fail;
use tt_disk::{MemVolume, Name};
use tt_value::Position;

// Log file 0 with two batches: a Commit of 9 bytes behind the gate at 16, and a Mark behind the one at 34.
const FILE: [u8; 45] = [
    84, 84, 76, 71, 0, 0, 0, 1, 0, 0, 0, 0, 0, 0, 0, 0, 1, 0, 0, 0, 0, 0, 0, 0, 9, 2, 0, 0, 0, 0,
    0, 0, 0, 7, 1, 0, 0, 0, 0, 0, 0, 0, 1, 4, 0,
];

// How many entries a log of this one file gives from a position on.
fn entries_from(alloc: Global, bytes: &[u8], from: Position) -> Result<usize, LogRefusal> {
    let mut volume = MemVolume::new(alloc);
    write_file(&mut volume, Name::Log(0), bytes)?;
    let log = Log::start(alloc, &mut volume, from, 8192, 4096)?;
    Ok(forced_from(alloc, &log, &mut volume, from)?.len())
}

#[test]
fn a_log_is_opened_at_an_entry_or_at_its_end(rt: HostRuntime) -> Result<(), Fail> {
    let within = Err(LogRefusal::BadBatch { file: 0, at: 0 });
    let cases = [
        (0, 0, Ok(2)),
        (0, 1, within),
        (0, 8, within),
        (0, 9, Ok(1)),
        (0, 10, Ok(0)),
        (0, 11, within),
        (1, 0, Err(LogRefusal::Gap { file: 1 })),
    ];
    for (file, offset, found) in cases {
        let from = Position { file, offset };
        assert_eq!(rt;
            entries_from(rt.alloc(), &FILE, from),
            found,
            "from {from:?}"
        );
    }
    Ok(())
}

#[test]
fn a_damaged_batch_is_told_by_its_gate(rt: HostRuntime) -> Result<(), Fail> {
    let origin = Position { file: 0, offset: 0 };
    // how much of the file is there, a byte of it that is another, and what is said
    let cases = [
        (45, 44, 9, Ok(2)),
        (44, 0, 84, Err(LogRefusal::BadBatch { file: 0, at: 34 })),
        (45, 42, 2, Err(LogRefusal::BadBatch { file: 0, at: 34 })),
        (45, 43, 5, Err(LogRefusal::BadBatch { file: 0, at: 34 })),
        (45, 25, 0, Err(LogRefusal::BadBatch { file: 0, at: 16 })),
        (45, 34, 0, Ok(1)),
        (45, 11, 1, Err(LogRefusal::Gap { file: 0 })),
        (16, 0, 84, Err(LogRefusal::Gap { file: 0 })),
    ];
    for (size, at, byte, found) in cases {
        let mut bytes = FILE;
        assert!(rt; at < 45 && size <= 45);
        bytes[at] = byte;
        assert_eq!(rt;
            entries_from(rt.alloc(), &bytes[..size], origin),
            found,
            "{byte} at {at}"
        );
    }
    Ok(())
}
