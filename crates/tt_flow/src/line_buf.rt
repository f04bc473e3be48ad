//! The last line of a script that was read, in a place of its own.
ghost use Rattle.std.specs.Prelude.{◌≡◌, ◌≤◌, ℕ, List, [], length, take};
ghost use Rattle.tt_flow.specs.LineBuf.{line_most};

use std::marker::Model;

/// The most bytes that a line has, without its line feed and carriage return.
pub const LINE_MOST: usize = 4096;

/// A line, of at most 4,096 bytes. Contracts see its bytes.
#[derive(Drop)]
pub struct LineBuf {
    bytes: [u8; 4096],
    length: usize,
}

impl Model for LineBuf {
    ghost use Rattle.std.specs.Prelude.{◌≤◌, ℕ, List, take};
    ghost use Rattle.tt_flow.specs.LineBuf.{line_most};

    ghost Value = { List ℕ };

    ghost view = { λ b. take b.length b.bytes };

    ghost invariant = { λ b. b.length ≤ line_most };
}

impl LineBuf {
    /// An empty line, with room for 4,096 bytes.
    pub fn new() -> LineBuf
        ensures { result ≡ [] }
    {
        LineBuf {
            bytes: [0; 4096],
            length: 0,
        }
    }

    /// The last line, of at most 4,096 bytes.
    pub fn line(&self) -> &[u8]
        ensures line { result.now ≡ self.now }
        ensures short { length result.now ≤ line_most }
    {
        &self.bytes[..self.length]
    }

    // Puts a line in the place of the last one.
    pub(crate) fn set(&mut self, line: &[u8])
        requires { length line.now ≤ line_most }
        ensures { self.new ≡ line.now }
    {
        self.bytes[..line.len()].copy_from_slice(line);
        self.length = line.len();
    }
}
