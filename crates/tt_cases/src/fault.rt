//! What is wrong with a case file, and how a run differs from what its case wants.
use std::alloc::AllocError;
use thiserror::Error;
use tt_disk::Failed;

/// Why a line of a case file can't be read.
#[derive(Debug, Drop, Error)]
pub enum Fault {
    #[error(transparent)]
    Memory(#[from(alloc)] AllocError),
    #[error("no such statement")]
    Statement,
    #[error("no run has begun")]
    NoRun,
    #[error("a number is wanted")]
    Number,
    #[error("pairs of hexadecimal digits are wanted")]
    Hex,
    #[error("no such escape")]
    Escape,
    #[error("the text of a word isn't UTF-8")]
    Word,
    #[error("no such file")]
    File,
    #[error("no such device")]
    Device,
    #[error("a run has one device that fails at each call")]
    SecondEach,
}

/// A case that isn't as it is wanted. Lines are those of the case file, the first being 1.
#[derive(Debug, Drop, Error)]
pub enum Trouble {
    #[error(transparent)]
    Memory(#[from(alloc)] AllocError),
    #[error("the case file can't be read")]
    Unreadable,
    #[error("line {line}: {fault}")]
    Malformed {
        line: u64,
        fault: Fault,
    },
    #[error("line {line}: reply {number} is `{wrote}`, wanted is `{wanted}`")]
    Reply {
        line: u64,
        number: u64,
        wrote: String,
        wanted: String,
    },
    #[error("line {line}: the status is `{ended}`, wanted is `{wanted}`")]
    Ending {
        line: u64,
        ended: String,
        wanted: String,
    },
    #[error("line {line}: `{wrote}` is no front of the replies wanted")]
    Front {
        line: u64,
        wrote: String,
    },
    #[error("line {line}: {behind} calls on the device came behind the one that failed")]
    Calls {
        line: u64,
        behind: u64,
    },
    #[error("line {line}: no outcome is given for {answered} replies before")]
    Unforeseen {
        line: u64,
        answered: u64,
    },
    #[error("line {line}: the file is {found}")]
    Standing {
        line: u64,
        found: String,
    },
    #[error("line {line}: the file can't be changed so")]
    Change {
        line: u64,
    },
    #[error("a volume failed between two runs")]
    Volume,
}

impl From<Failed> for Trouble {
    fn from(_: Failed) -> Self {
        Trouble::Volume
    }
}
