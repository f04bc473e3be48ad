//! The program `tt`: makes a database in a folder, and does a script on one.
#![tactic(auto)]

mod settings;

use settings::SettingsFile;
use std::alloc::{AllocError, Global};
use std::io::ErrorKind;
use std::os::fd::{AsRawFd, IntoRawFd};
use std::process::ExitCode;
use std::thread::Threads;
use std::{env, fs, io};
use tt_disk::DirVolume;
use tt_flow::{ReadSource, WriteSink};
use tt_run::{Devices, Status, run};

fn main(rt: HostRuntime) -> ExitCode {
    let status = match prepare(&rt) {
        Ok(words) => run_in_folder(&rt, rt, rt.alloc(), &words).unwrap_or(Status::NoMemory),
        Err(status) => status,
    };
    if status != Status::Done {
        let exit = status.exit();
        let _ = eprintln!(rt; "status {exit} {status}");
    }
    ExitCode::from(status.exit())
}

// Holds the standard streams, and reads the words.
fn prepare(rt: &HostRuntime) -> Result<Vec<String>, Status> {
    match hold_standard_streams(rt) {
        Ok(()) => read_words(rt),
        Err(_) => Err(Status::NoMemory),
    }
}

// Opens a folder in the place of each standard stream that was closed when the program began: its calls then fail, and
// no file of the database gets its number.
fn hold_standard_streams(rt: &HostRuntime) -> io::Result<()> {
    for _ in 0..3 {
        let folder = fs::open(rt, "/")?;
        if folder.as_raw_fd() > 2 {
            return Ok(());
        }
        let _ = folder.into_raw_fd();
    }
    Ok(())
}

// The words after the program's name. Words that aren't text have no form.
fn read_words(rt: &HostRuntime) -> Result<Vec<String>, Status> {
    match env::args(rt) {
        Ok(words) => words
            .skip(1)
            .collect(rt.alloc())
            .map_err(|_| Status::NoMemory),
        Err(error) if error.kind() == ErrorKind::InvalidData => Err(Status::Usage),
        Err(_) => Err(Status::NoMemory),
    }
}

// Does what the words ask for, in the folder that the second word names.
fn run_in_folder<R: Threads>(
    rt: &R,
    host: HostRuntime,
    alloc: Global,
    words: &[String],
) -> Result<Status, AllocError> {
    let folder = match words.get(1) {
        Some(word) if !word.is_empty() => word.as_str(),
        _ => ".",
    };
    let mut devices = Devices {
        script: ReadSource::new(host.stdin()),
        attributes: ReadSource::new(SettingsFile::open(&host, alloc, folder)?),
        sink: WriteSink::new(host.stdout()),
        logs: volume(host, alloc, folder, "logs")?,
        images: volume(host, alloc, folder, "images")?,
        backups: volume(host, alloc, folder, "backups")?,
    };
    Ok(run(rt, alloc, words, &mut devices))
}

fn volume(
    host: HostRuntime,
    alloc: Global,
    folder: &str,
    name: &str,
) -> Result<DirVolume, AllocError> {
    let path = format!(in alloc; "{folder}/{name}")?;
    DirVolume::new(host, alloc, &path)
}
