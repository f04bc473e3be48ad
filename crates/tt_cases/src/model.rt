//! What a case is.
use tt_disk::Name;

/// What a case does, one after another.
#[derive(Drop)]
pub enum Step {
    Run(Run),
    /// The volumes are left as by a crash: the rest of the case is done once for each of these picks.
    Crash(Vec<u64>),
    Change(FileChange),
}

/// A run of the program.
#[derive(Drop)]
pub struct Run {
    /// The line on which it begins.
    pub line: u64,
    pub words: Vec<String>,
    pub script: Vec<u8>,
    pub attributes: Vec<u8>,
    pub failing: Vec<Failing>,
    /// The device that fails at its call 0, 1, 2 and so on: the case is done again for each.
    pub each: Option<Device>,
    /// The outcomes that are right.
    pub outcomes: Vec<Outcome>,
}

/// What a run reads from or writes to.
#[derive(Clone, Copy, Debug, PartialEq, Eq)]
pub enum Device {
    Script,
    Attributes,
    Sink,
    Logs,
    Images,
    Backups,
}

impl Device {
    /// Whether it is one of the three volumes.
    pub fn is_volume(self) -> bool {
        matches!(self, Device::Logs | Device::Images | Device::Backups)
    }
}

/// Calls of a device that fail, counted from the begin of the run.
#[derive(Clone, Copy)]
pub struct Failing {
    pub device: Device,
    pub first: u64,
    /// How many calls fail.
    pub count: u64,
}

/// How a run may end.
#[derive(Drop)]
pub struct Outcome {
    /// The least and the greatest number of replies, before the last crash, at which this outcome is right.
    pub answered: Option<(u64, u64)>,
    pub output: Vec<u8>,
    /// The status with its number, as `3 VolumeFault Logs`; without one it is `0 Done`.
    pub status: Option<String>,
    pub files: Vec<FileWant>,
}

/// How a file is to stand.
#[derive(Drop)]
pub struct FileWant {
    pub line: u64,
    pub name: Name,
    pub standing: Standing,
}

#[derive(Drop)]
pub enum Standing {
    Absent,
    Size(u64),
    Bytes(Vec<u8>),
}

/// A change of a file between two runs.
#[derive(Drop)]
pub struct FileChange {
    pub line: u64,
    pub name: Name,
    pub change: Change,
}

#[derive(Drop)]
pub enum Change {
    /// Writes over the bytes from an offset on.
    Set { at: u64, bytes: Vec<u8> },
    /// Leaves so many bytes.
    Cut(u64),
    /// Makes the file, with these bytes.
    Put(Vec<u8>),
    Remove,
}
