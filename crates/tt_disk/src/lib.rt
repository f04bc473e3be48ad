//! Volumes: the files of a database, what a read of them gives, and what a crash may leave.
#![tactic(auto)]

mod folder;
mod memory;
mod volume;

pub use folder::DirVolume;
pub use memory::{FailingCalls, MemVolume};
pub use volume::{Failed, Name, Volume};

// No file is longer, in bytes.
const LONGEST: u64 = 1 << 62;
