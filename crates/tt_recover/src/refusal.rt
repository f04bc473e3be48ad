//! Why a database can't be opened.
use tt_model::Damage;
use tt_value::Stop;

/// Why opening is refused.
#[derive(Clone, Copy, Debug, PartialEq, Eq)]
pub enum OpenRefusal {
    /// No checkpoint file is there.
    NoDatabase,
    Damaged(Damage),
    /// A volume failed.
    Fault(Stop),
    /// The log numbers are used up.
    LogOut,
    NoMemory,
}
