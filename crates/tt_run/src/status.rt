//! How a run ended: the number with which the program exits, and the words for it.
ghost use Rattle.std.specs.Prelude.{◌≡◌};
ghost use Rattle.tt_run.specs.Status.{exit_of};

use std::fmt;
use tt_engine::Damage;
use tt_value::{Stop, Text};

/// How a run ended.
#[derive(Debug, PartialEq, Eq, Drop)]
pub enum Status {
    /// The whole script was done.
    Done,
    /// The script couldn't be read on.
    ScriptFault,
    /// The attributes couldn't be read.
    AttributesFault,
    /// A reply couldn't be written.
    SinkFault,
    /// A call on a volume failed.
    VolumeFault(Stop),
    /// No memory was found for the attributes, or to open the database.
    NoMemory,
    /// The words have none of the program's forms.
    Usage,
    /// The database can't be opened.
    Damaged(Damage),
    /// There is a database already.
    Exists,
    /// There is no database.
    NoDatabase,
    /// The attribute of this name isn't right; the name is empty where the attributes are no TOML of at most 65,536 bytes.
    BadAttribute(Text),
    /// No place is left in the log.
    LogOut,
    /// The script has more than 1,073,741,824 bytes.
    ScriptTooLong,
}

impl Status {
    /// The number with which a program ends that has this status.
    pub fn exit(&self) -> u8
        ensures { result ≡ exit_of self.now }
    {
        match self {
            Status::Done => 0,
            Status::ScriptFault | Status::AttributesFault => 1,
            Status::SinkFault => 2,
            Status::VolumeFault(_) => 3,
            Status::NoMemory => 4,
            Status::Usage => 5,
            Status::Damaged(_) => 6,
            Status::Exists | Status::NoDatabase => 7,
            Status::BadAttribute(_) => 8,
            Status::LogOut => 9,
            Status::ScriptTooLong => 11,
        }
    }
}

/// The name of the status, and behind it the volume, the damage or the attribute: `Damaged BadBatch 0 53`.
impl fmt::Display for Status {
    ghost use Rattle.std.specs.Prelude.{Some};
    ghost use Rattle.tt_run.specs.Status.{status_words};

    ghost output = { λ status. Some (status_words status) };

    fn fmt<W: fmt::Write>(&self, f: &mut fmt::Formatter<W>) -> fmt::Result {
        match self {
            Status::Done => f.write_str("Done"),
            Status::ScriptFault => f.write_str("ScriptFault"),
            Status::AttributesFault => f.write_str("AttributesFault"),
            Status::SinkFault => f.write_str("SinkFault"),
            Status::VolumeFault(Stop::Logs) => f.write_str("VolumeFault Logs"),
            Status::VolumeFault(Stop::Images) => f.write_str("VolumeFault Images"),
            Status::VolumeFault(Stop::Backups) => f.write_str("VolumeFault Backups"),
            Status::NoMemory => f.write_str("NoMemory"),
            Status::Usage => f.write_str("Usage"),
            Status::Damaged(Damage::LogGap { file }) => write!(f, "Damaged LogGap {file}"),
            Status::Damaged(Damage::BadBatch { file, at }) => {
                write!(f, "Damaged BadBatch {file} {at}")
            }
            Status::Exists => f.write_str("Exists"),
            Status::NoDatabase => f.write_str("NoDatabase"),
            Status::BadAttribute(name) => write!(f, "BadAttribute {}", name.as_str()),
            Status::LogOut => f.write_str("LogOut"),
            Status::ScriptTooLong => f.write_str("ScriptTooLong"),
        }
    }
}
