//! What a line asks for.

use crate::cond::Cond;
use tt_value::{ColumnType, Ident, List, Refusal, Value};

/// A column of a new table, and whether Null is refused in it.
#[derive(Debug, Drop)]
pub struct ColumnText {
    pub name: Ident,
    pub kind: ColumnType,
    pub required: bool,
}

/// What a column is set to: a literal, a column's old value, or a column's old value with a number added or taken
/// away, which has no sign of its own.
#[derive(Debug, Drop)]
pub enum SetSource {
    Literal(Value),
    Column(Ident),
    Plus { column: Ident, by: Value },
    Minus { column: Ident, by: Value },
}

/// A column that an update sets.
#[derive(Debug, Drop)]
pub struct SetItem {
    pub column: Ident,
    pub source: SetSource,
}

/// The number of rows, or the sum of a column.
#[derive(Debug, Drop)]
pub enum Aggregate {
    Count,
    Sum(Ident),
}

/// What a select gives: all columns, some, or aggregates.
#[derive(Debug, Drop)]
pub enum Items {
    All,
    Columns(List<Ident>),
    Sums(List<Aggregate>),
}

/// A column by which rows are ordered, from the greatest value on if `down`.
#[derive(Debug, Drop)]
pub struct OrderItem {
    pub column: Ident,
    pub down: bool,
}

/// What a backup does with its set: makes it whole; makes it whole, to be continued; continues it; continues it where
/// that can be, and else makes it whole, to be continued; ends its continuation.
#[derive(Clone, Copy, Debug, PartialEq, Eq)]
pub enum BackupKind {
    Full,
    FullEnable,
    Incremental,
    IncrOrFull,
    Stop,
}

/// A command. A set's number is 1 to 999, and a count of changes 1 to 1,000.
#[derive(Drop)]
pub enum Command {
    CreateTable {
        name: Ident,
        columns: List<ColumnText>,
        key: List<Ident>,
    },
    DropTable {
        name: Ident,
    },
    CreateIndex {
        name: Ident,
        table: Ident,
        columns: List<Ident>,
        unique: bool,
    },
    DropIndex {
        name: Ident,
    },
    Insert {
        table: Ident,
        values: List<Value>,
    },
    Update {
        table: Ident,
        sets: List<SetItem>,
        cond: Option<Cond>,
    },
    Delete {
        table: Ident,
        cond: Option<Cond>,
    },
    Select {
        table: Ident,
        items: Items,
        cond: Option<Cond>,
        order: List<OrderItem>,
    },
    Commit,
    Rollback,
    DurableCommit,
    Flush,
    Ckpt,
    CkptBlocking,
    LogHolds,
    Bookmark,
    Backup {
        set: u32,
        kind: BackupKind,
    },
    XlaCreate {
        bookmark: Ident,
    },
    XlaDelete {
        bookmark: Ident,
    },
    XlaSubscribe {
        table: Ident,
        bookmark: Ident,
    },
    XlaUnsubscribe {
        table: Ident,
        bookmark: Ident,
    },
    XlaOpen {
        bookmark: Ident,
    },
    XlaNext {
        count: u32,
    },
    XlaAcknowledge,
    XlaClose,
}

/// What a line is: one that is skipped, or one that runs in a session of 1 to 64, with its command or why it has none,
/// which is `Syntax` or `NoMemory`.
#[derive(Drop)]
pub enum LineKind {
    Skip,
    Run {
        session: u8,
        what: Result<Command, Refusal>,
    },
}
