//! What a log stands for when a database is opened.
#![tactic(auto)]

mod progress;
mod recovery;
mod refusal;
mod replay;
#[cfg(test)]
mod tests;

pub use recovery::{Recovered, recover};
pub use refusal::OpenRefusal;
pub use replay::{RecoveredRow, Replay};
