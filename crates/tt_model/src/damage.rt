//! What may be damaged in the files of a database.

/// The first damage that opening finds, in its order.
#[derive(Clone, Copy, Debug, PartialEq, Eq)]
pub enum Damage {
    /// No checkpoint file is whole.
    NoImage,
    /// This checkpoint file is whole and has a bad header, or the other one's number.
    BadHeader { file: u8 },
    /// This log file isn't there, or has another header.
    LogGap { file: u32 },
    /// Of this log file, the batch behind the gate at this offset; at 0, the position from which
    /// the log is read.
    BadBatch { file: u32, at: u64 },
    /// A cell of the newest image.
    BadCell { page: u32, cell: u8 },
    /// The row of a system table at this place.
    BadCatalog { place: u32 },
    /// The row of a user's table at this place.
    BadRow { place: u32 },
}
