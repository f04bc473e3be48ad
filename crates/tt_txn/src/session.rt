//! The numbers of sessions.

/// Sessions have the numbers 1 to this.
pub const SESSIONS: u8 = 64;

/// The numbers of sessions are below this. A list by session has so many elements; the first, of no session, stays as it is.
pub(crate) const SESSIONS_END: usize = SESSIONS as usize + 1;
