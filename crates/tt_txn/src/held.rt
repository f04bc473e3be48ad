//! Who holds a name.

/// The session that holds a name, and which of its slots has the name's entry.
#[derive(Clone, Copy, Debug, PartialEq, Eq)]
pub struct Held {
    pub session: u8,
    pub at: usize,
}
