//! Streams of bytes in and out that count their faults, and the lines of a script.
#![tactic(auto)]

mod adapters;
mod line_buf;
mod lines;
mod memory;
mod stream;

pub use adapters::{ReadSource, WriteSink};
pub use line_buf::LineBuf;
pub use lines::{LineRead, LineReader};
pub use memory::{MemSink, MemSource};
pub use stream::{Sink, Source};

#[cfg(test)]
mod tests;
