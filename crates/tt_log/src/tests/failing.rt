//! Changes of file on a volume that fails at each of its calls in turn.
ghost use Rattle.std.specs.Prelude.{◌<◌, IfOk};

use super::steps::{ORIGIN, Reached, add_inserts, expect_inserts, force_all, forced_from};
use crate::{Log, LogRefusal};
use std::alloc::{AllocError, Global};
use std::process::Abort;
use std::test::Fail;
use tt_disk::{MemVolume, Volume};

// Adds 450 inserts, by two changes of file, and forces them now and then.
fn add_all<V: Volume>(
    rt: &impl Abort,
    alloc: Global,
    volume: &mut V,
    reached: &mut Reached,
) -> Result<(), LogRefusal> {
    let mut log = Log::start(alloc, volume, ORIGIN, 8192, 4096)?;
    add_inserts(rt, alloc, &mut log, volume, reached, 150)?;
    force_all(&mut log, volume, reached)?;
    add_inserts(rt, alloc, &mut log, volume, reached, 300)?;
    force_all(&mut log, volume, reached)?;
    add_inserts(rt, alloc, &mut log, volume, reached, 450)?;
    force_all(&mut log, volume, reached)?;
    Ok(())
}

// Asserts that the log has the first inserts and no other entry, and answers how many they are.
fn count_inserts(rt: &impl Abort, alloc: Global, volume: &mut MemVolume) -> Result<u32, LogRefusal>
    ensures { IfOk result (λ count. count < 1000) }
{
    let log = Log::start(alloc, volume, ORIGIN, 8192, 4096)?;
    let found = forced_from(alloc, &log, volume, ORIGIN)?;
    assert!(rt; found.len() < 1000);
    let count = found.len() as u32;
    expect_inserts(rt, alloc, &found, count)?;
    Ok(count)
}

// Asserts that a crash leaves all that was forced, and nothing that wasn't handed to the log. What is left takes more.
fn expect_left(
    rt: &impl Abort,
    alloc: Global,
    volume: &MemVolume,
    pick: u64,
    reached: Reached,
) -> Result<(), Fail> {
    let mut left = volume.leave(alloc, pick)?;
    let count = count_inserts(rt, alloc, &mut left)?;
    assert!(rt;
        reached.forced <= count && count <= reached.handed,
        "{count} of {reached:?}"
    );
    let mut log = Log::start(alloc, &mut left, ORIGIN, 8192, 4096)?;
    let mut more = Reached {
        handed: count,
        forced: count,
    };
    add_inserts(rt, alloc, &mut log, &mut left, &mut more, count + 3)?;
    force_all(&mut log, &mut left, &mut more)?;
    assert_eq!(rt; count_inserts(rt, alloc, &mut left)?, count + 3);
    Ok(())
}

// Asserts that a log whose making failed has no entry, where it can be opened.
fn expect_none(
    rt: &impl Abort,
    alloc: Global,
    volume: &MemVolume,
    pick: u64,
) -> Result<(), AllocError> {
    let mut left = volume.leave(alloc, pick)?;
    if let Ok(count) = count_inserts(rt, alloc, &mut left) {
        assert_eq!(rt; count, 0);
    }
    Ok(())
}

#[test]
fn each_failing_call_leaves_what_is_forced(rt: HostRuntime) -> Result<(), Fail> {
    let alloc = rt.alloc();
    for call in 0..1000 {
        let mut volume = MemVolume::failing_at(alloc, vec![in alloc; call; 1]?);
        if Log::make(&mut volume).is_err() {
            for pick in 0..5 {
                expect_none(&rt, alloc, &volume, pick)?;
            }
            continue;
        }
        let mut reached = Reached {
            handed: 0,
            forced: 0,
        };
        let ended = add_all(&rt, alloc, &mut volume, &mut reached);
        for pick in 0..5 {
            expect_left(&rt, alloc, &volume, pick, reached)?;
        }
        if volume.calls() <= call {
            assert_eq!(rt; ended, Ok(()));
            assert_eq!(rt; reached.forced, 450);
            return Ok(());
        }
        assert_eq!(rt; ended, Err(LogRefusal::Failed));
    }
    assert!(rt; false, "each run failed");
    Ok(())
}
