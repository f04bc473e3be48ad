//! The entries of the log. A Change puts a cell into a place for a transaction; a Commit or an Abort ends the transaction; a
//! Mark ends all that have no end; a Switch is the last entry of a file and names the next one.
use tt_value::Cell;

/// An entry of the log.
#[derive(Debug, Drop)]
pub enum Entry {
    /// A transaction put one cell in the place of another; at least one of them holds a row, and two are of one table.
    Change {
        transaction: u64,
        place: u32,
        before: Cell,
        after: Cell,
    },
    /// The transaction's changes stand.
    Commit {
        transaction: u64,
    },
    /// The transaction's changes were taken back.
    Abort {
        transaction: u64,
    },
    /// A database was opened here: what has no end before this never gets one.
    Mark,
    /// The log goes on in the file of this number.
    Switch {
        file: u32,
    },
}
