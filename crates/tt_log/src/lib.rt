//! A log of entries in numbered files.
#![tactic(auto)]

mod batch;
mod body;
mod entry_offsets;
mod file;
mod header;
mod log;
mod opening;
mod placement;
mod refusal;
mod scan;
#[cfg(test)]
mod tests;
mod truncation;
mod visitor;

pub use log::Log;
pub use refusal::LogRefusal;
pub use scan::Scan;
pub use visitor::EntryVisitor;
