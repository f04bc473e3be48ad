//! Entries of the log: their bytes, their lengths and their places.
#![tactic(auto)]

mod entry;
mod length;
mod place;
mod read;
#[cfg(test)]
mod tests;
mod write;

pub use entry::Entry;
pub use length::entry_length;
pub use place::{entry_end, place_entry};
pub use read::read_entry;
pub use write::write_entry;

/// The numbers of transactions are from 1 to one less than this.
pub const TRANSACTIONS_END: u64 = 1 << 48;

/// The places of rows are below this.
pub const PLACES_END: u32 = 2_097_152;

/// The numbers of log files are below this.
pub const LOG_FILES_END: u32 = 1_000_000;
