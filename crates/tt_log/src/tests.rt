//! Entries, files and crashes of a log over a volume in memory.
ghost use Rattle.std.specs.Prelude.{◌≤◌};
ghost use Rattle.tt_log.specs.Calls.{IsOpenOn};
ghost use Rattle.tt_log.specs.Log.{first_file_of};

mod failing;
mod files;
mod positions;
mod steps;

use crate::{Log, LogRefusal};
use std::test::Fail;
use steps::add;
use tt_disk::{MemVolume, Name, Volume};
use tt_record::Entry;
use tt_value::{List, Position};

// The first forced entry's position from a position on.
fn first_from<V: Volume>(
    log: &Log,
    volume: &mut V,
    from: Position,
) -> Result<Option<Position>, LogRefusal>
    requires open { IsOpenOn V.Volume log.now volume.old }
    requires low { first_file_of log.now ≤ from.file }
{
    let mut scan = log.scan(from);
    match scan.next(log, volume)? {
        Some((at, _)) => Ok(Some(at)),
        None => Ok(None),
    }
}

#[test]
fn a_scan_gives_what_is_forced(rt: HostRuntime) -> Result<(), Fail> {
    let alloc = rt.alloc();
    let mut volume = MemVolume::new(alloc);
    Log::make(&mut volume)?;
    let origin = Position { file: 0, offset: 0 };
    let mut log = Log::start(alloc, &mut volume, origin, 8192, 4096)?;
    assert_eq!(rt; add(&mut log, &mut volume, &Entry::Mark)?, Some(origin));
    log.force(&mut volume)?;
    let behind = Position { file: 0, offset: 1 };
    assert_eq!(rt; add(&mut log, &mut volume, &Entry::Mark)?, Some(behind));
    assert_eq!(rt; first_from(&log, &mut volume, behind)?, None);
    Ok(())
}

#[test]
fn entries_are_found_again(rt: HostRuntime) -> Result<(), Fail> {
    let alloc = rt.alloc();
    let mut volume = MemVolume::new(alloc);
    Log::make(&mut volume)?;
    assert_eq!(rt; volume.size(Name::Log(0))?, Some(17));
    let origin = Position { file: 0, offset: 0 };
    let mut log = Log::start(alloc, &mut volume, origin, 8192, 4096)?;
    let mut lengths = List::new(alloc);
    lengths.push(9)?;
    lengths.push(1)?;
    assert!(rt; log.fits(&lengths));
    assert_eq!(rt;
        add(&mut log, &mut volume, &Entry::Commit { transaction: 7 })?,
        Some(origin)
    );
    let second = Position { file: 0, offset: 9 };
    let end = Position {
        file: 0,
        offset: 10,
    };
    assert_eq!(rt; add(&mut log, &mut volume, &Entry::Mark)?, Some(second));
    assert_eq!(rt; log.write_position(), end);
    assert_eq!(rt; log.force_position(), origin);
    log.force(&mut volume)?;
    assert_eq!(rt; log.force_position(), end);
    log.remove_below(&mut volume, 0)?;
    assert_eq!(rt; volume.size(Name::Log(0))?, Some(36));
    Ok(())
}
