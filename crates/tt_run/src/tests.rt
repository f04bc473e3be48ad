//! A run over a real folder.
use super::{Devices, Status, run};
use std::alloc::{AllocError, Global};
use std::fs;
use std::test::Fail;
use std::thread::Threads;
use tt_disk::{DirVolume, MemVolume};
use tt_flow::{MemSink, MemSource};

fn words_of(alloc: Global, word: &str) -> Result<Vec<String>, AllocError> {
    let mut words = Vec::new(alloc);
    words.push(String::from_str(alloc, word)?)?;
    words.push(String::from_str(alloc, "made")?)?;
    Ok(words)
}

// What a run over the folder writes, with its status.
fn written(
    rt: &impl Threads,
    alloc: Global,
    logs: DirVolume,
    word: &str,
    script: &[u8],
) -> Result<(Status, Vec<u8>), AllocError> {
    let words = words_of(alloc, word)?;
    let mut devices = Devices {
        script: MemSource::new(script.to_vec(alloc)?, Vec::new(alloc)),
        attributes: MemSource::new(Vec::new(alloc), Vec::new(alloc)),
        sink: MemSink::new(alloc, Vec::new(alloc)),
        logs,
        images: MemVolume::new(alloc),
        backups: MemVolume::new(alloc),
    };
    let status = run(rt, alloc, words.as_slice(), &mut devices);
    Ok((status, devices.sink.bytes().to_vec(alloc)?))
}

#[test]
fn commits_stay_in_a_folder(rt: HostRuntime) -> Result<(), Fail> {
    let _ = fs::remove_dir_all(&rt, "made");
    let logs = DirVolume::new(rt, rt.alloc(), "made/logs")?;
    let (status, text) = written(&rt, rt.alloc(), logs, "create", b"")?;
    assert_eq!(rt; status, Status::Done);
    assert_eq!(rt; text.as_slice(), b"created\n".as_slice());
    let insert = b"insert into kv values (1, 10)\ncommit\n";
    let logs = DirVolume::new(rt, rt.alloc(), "made/logs")?;
    let (status, text) = written(&rt, rt.alloc(), logs, "run", insert)?;
    assert_eq!(rt; status, Status::Done);
    assert_eq!(rt; text.as_slice(), b"changed 1\nok\n".as_slice());
    assert_eq!(rt; fs::metadata(&rt, "made/logs/tt.log0")?.len(), 76);
    let logs = DirVolume::new(rt, rt.alloc(), "made/logs")?;
    let (status, text) = written(&rt, rt.alloc(), logs, "run", insert)?;
    assert_eq!(rt; status, Status::Done);
    assert_eq!(rt; text.as_slice(), b"error 6 DuplicateKey\nok\n".as_slice());
    fs::remove_dir_all(&rt, "made")?;
    Ok(())
}
