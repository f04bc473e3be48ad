//! What the engine says to the outside: what a line is answered, and what ends a run.

use crate::ident::Ident;
use crate::list::List;
use crate::position::Position;
use crate::refusal::Refusal;
use crate::value::Row;

/// The volume that ended a run.
#[derive(Clone, Copy, Debug, PartialEq, Eq)]
pub enum Stop {
    Logs,
    Images,
    Backups,
}

/// Who holds the log: the checkpoint file of that number, 0 or 1; the backup set of that number; a bookmark; a live
/// transaction.
#[derive(Debug, Drop, PartialEq, Eq)]
pub enum HoldKind {
    Checkpoint(u8),
    Backup(u32),
    Xla(Ident),
    Transaction(u64),
}

/// What keeps the log from a position on.
#[derive(Debug, Drop, PartialEq, Eq)]
pub struct Hold {
    pub at: Position,
    pub kind: HoldKind,
}

/// What a change did to a row.
#[derive(Debug, Drop, PartialEq, Eq)]
pub enum Edit {
    Insert { new: Row },
    Delete { old: Row },
    Update { old: Row, new: Row },
}

/// A change that a reader is given, with the marks of the first and last subscribed change of its transaction.
#[derive(Debug, Drop, PartialEq, Eq)]
pub struct Update {
    pub first: bool,
    pub last: bool,
    pub transaction: u64,
    pub table: Ident,
    pub edit: Edit,
}

/// What a line is answered. `Changed` has the number of rows, `Checkpoint` its number and how many pages it copies,
/// `Backup` the set, whether the backup is a full one, and the position that it reaches.
#[derive(Debug, Drop, PartialEq, Eq)]
pub enum Reply {
    Done,
    Changed(u32),
    Rows(List<Row>),
    Checkpoint {
        number: u64,
        pages: u32,
    },
    Positions {
        write: Position,
        force: Position,
        hold: Position,
    },
    Holds(List<Hold>),
    Updates(List<Update>),
    Backup {
        set: u32,
        full: bool,
        to: Position,
    },
    Refused(Refusal),
}
