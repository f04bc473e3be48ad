//! Why a log can't be read.
use std::alloc::AllocError;
use tt_disk::Failed;

/// Why a log can't be read.
#[derive(Clone, Copy, Debug, PartialEq, Eq)]
pub enum LogRefusal {
    /// The file of this number isn't there, or doesn't have the header of a log file of this number.
    Gap { file: u32 },
    /// In this file a batch isn't one of entries that may stand there. Its gate is at this offset, in bytes. At offset 0
    /// the batches are as they should be, and at the position that was asked for no entry begins and the entries don't end.
    BadBatch { file: u32, at: u64 },
    /// A call of the volume failed, and the volume counted it.
    Failed,
    /// Memory is wanting.
    NoMemory,
}

impl From<Failed> for LogRefusal {
    ghost use Rattle.std.specs.Prelude.{◌≡◌};
    ghost use Rattle.tt_log.specs.declared.refusal.LogRefusal.TheVariants.{Failed};

    ghost from_gives = { λ _ e. e ≡ Failed };

    fn from(_: Failed) -> Self {
        LogRefusal::Failed
    }
}

impl From<AllocError> for LogRefusal {
    ghost use Rattle.std.specs.Prelude.{◌≡◌};
    ghost use Rattle.tt_log.specs.declared.refusal.LogRefusal.TheVariants.{NoMemory};

    ghost from_gives = { λ _ e. e ≡ NoMemory };

    fn from(_: AllocError) -> Self {
        LogRefusal::NoMemory
    }
}
