//! The refusals of lines. Each has a number, a name and at most one field, by which a reply tells it.

ghost use Rattle.std.specs.Prelude.{◌≡◌, ◌≤◌, IfSome, length, option_map};
ghost use Rattle.tt_value.specs.Refusal.{number_of, name_of, field_of};

/// Why a line has no effect.
#[derive(Clone, Copy, Debug, PartialEq, Eq)]
pub enum Refusal {
    /// The line is off the grammar from this byte on, the first being 0.
    Syntax { at: u32 },
    /// The named table isn't there.
    NoTable,
    /// A named column isn't in the table.
    NoColumn,
    /// The number of values differs, or a kind isn't taken.
    WrongType,
    /// A text is longer than its column, or the stored row than a row may be; so many bytes.
    TooWide { bytes: u32 },
    /// Another row that the session sees has the key, or the value in a unique index.
    DuplicateKey,
    /// Null for a required column.
    NullRefused,
    /// A set names a key column.
    KeyUpdate,
    /// The table, index, column, set column or subscription is there already.
    NameThere,
    /// The table to drop has rows.
    NotEmpty,
    /// Another live transaction, of this number, holds the key or the value.
    LockConflict { holder: u64 },
    /// The cells in use and those wanted pass this number.
    PermFull { cells: u32 },
    /// The session's transaction is live.
    InTransaction,
    /// The checkpoint of this number is under way.
    CkptOpen { number: u64 },
    /// The bookmark isn't there.
    NoBookmark,
    /// The bookmark is there already.
    BookmarkThere,
    /// This session has a reader on the bookmark, or is the own one with any reader.
    BookmarkBusy { session: u8 },
    /// There is no such subscription.
    NotSubscribed,
    /// The session has no reader.
    NoReader,
    /// The set's image is whole.
    SetThere,
    /// The set's image isn't whole.
    NoSet,
    /// The set can't be continued.
    NotIncremental,
    /// One more would pass this limit.
    TooMany { limit: u32 },
    /// A number result leaves its range.
    OutOfRange,
    /// The line has more than 4,096 bytes.
    LineTooLong,
    /// The log's file numbers, or those of transactions or checkpoints, are used up.
    LogOut,
    /// The live transaction of this number stands in the way.
    TransactionOpen { number: u64 },
    /// Memory is wanting.
    NoMemory,
    /// The index isn't there.
    NoIndex,
    /// The line needs a command, a clause or a session that isn't built yet.
    NotBuilt,
}

impl Refusal {
    /// Its number, from 1 on.
    pub fn number(self) -> u32
        ensures { result ≡ number_of self }
    {
        match self {
            Refusal::Syntax { .. } => 1,
            Refusal::NoTable => 2,
            Refusal::NoColumn => 3,
            Refusal::WrongType => 4,
            Refusal::TooWide { .. } => 5,
            Refusal::DuplicateKey => 6,
            Refusal::NullRefused => 7,
            Refusal::KeyUpdate => 8,
            Refusal::NameThere => 9,
            Refusal::NotEmpty => 10,
            Refusal::LockConflict { .. } => 11,
            Refusal::PermFull { .. } => 12,
            Refusal::InTransaction => 13,
            Refusal::CkptOpen { .. } => 14,
            Refusal::NoBookmark => 15,
            Refusal::BookmarkThere => 16,
            Refusal::BookmarkBusy { .. } => 17,
            Refusal::NotSubscribed => 18,
            Refusal::NoReader => 19,
            Refusal::SetThere => 20,
            Refusal::NoSet => 21,
            Refusal::NotIncremental => 22,
            Refusal::TooMany { .. } => 23,
            Refusal::OutOfRange => 24,
            Refusal::LineTooLong => 25,
            Refusal::LogOut => 26,
            Refusal::TransactionOpen { .. } => 27,
            Refusal::NoMemory => 28,
            Refusal::NoIndex => 29,
            Refusal::NotBuilt => 30,
        }
    }

    /// Its name, in at most 15 ASCII letters.
    pub fn name(self) -> &'static str
        ensures name { result.now ≡ name_of self }
        ensures short { length result.now ≤ 15 }
    {
        match self {
            Refusal::Syntax { .. } => "Syntax",
            Refusal::NoTable => "NoTable",
            Refusal::NoColumn => "NoColumn",
            Refusal::WrongType => "WrongType",
            Refusal::TooWide { .. } => "TooWide",
            Refusal::DuplicateKey => "DuplicateKey",
            Refusal::NullRefused => "NullRefused",
            Refusal::KeyUpdate => "KeyUpdate",
            Refusal::NameThere => "NameThere",
            Refusal::NotEmpty => "NotEmpty",
            Refusal::LockConflict { .. } => "LockConflict",
            Refusal::PermFull { .. } => "PermFull",
            Refusal::InTransaction => "InTransaction",
            Refusal::CkptOpen { .. } => "CkptOpen",
            Refusal::NoBookmark => "NoBookmark",
            Refusal::BookmarkThere => "BookmarkThere",
            Refusal::BookmarkBusy { .. } => "BookmarkBusy",
            Refusal::NotSubscribed => "NotSubscribed",
            Refusal::NoReader => "NoReader",
            Refusal::SetThere => "SetThere",
            Refusal::NoSet => "NoSet",
            Refusal::NotIncremental => "NotIncremental",
            Refusal::TooMany { .. } => "TooMany",
            Refusal::OutOfRange => "OutOfRange",
            Refusal::LineTooLong => "LineTooLong",
            Refusal::LogOut => "LogOut",
            Refusal::TransactionOpen { .. } => "TransactionOpen",
            Refusal::NoMemory => "NoMemory",
            Refusal::NoIndex => "NoIndex",
            Refusal::NotBuilt => "NotBuilt",
        }
    }

    /// The name, in at most 7 ASCII letters, and the number of its field, where it has one.
    pub fn field(self) -> Option<(&'static str, u64)>
        ensures field { option_map (λ f. (f.0.now, f.1)) result ≡ field_of self }
        ensures short { IfSome result (λ f. length f.0.now ≤ 7) }
    {
        match self {
            Refusal::Syntax { at } => Some(("at", u64::from(at))),
            Refusal::TooWide { bytes } => Some(("bytes", u64::from(bytes))),
            Refusal::LockConflict { holder } => Some(("holder", holder)),
            Refusal::PermFull { cells } => Some(("cells", u64::from(cells))),
            Refusal::CkptOpen { number } => Some(("number", number)),
            Refusal::BookmarkBusy { session } => Some(("session", u64::from(session))),
            Refusal::TooMany { limit } => Some(("limit", u64::from(limit))),
            Refusal::TransactionOpen { number } => Some(("number", number)),
            _ => None,
        }
    }
}
