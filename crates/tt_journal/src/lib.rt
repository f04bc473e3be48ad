//! Entries appended to the log and forced, and what that makes of the trail of a state.
#![tactic(auto)]

mod entries;
mod journal;
#[cfg(test)]
mod tests;

pub use entries::{Entries, Noted, Undoing};
pub use journal::write;
