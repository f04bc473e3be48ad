//! The text of a reply, in a buffer of fixed size: it takes no memory, and is put by one call.
ghost use Rattle.std.specs.Prelude.{◌≡◌, ◌+◌, ◌≤◌, ◌++◌, [], length};
ghost use Rattle.tt_engine.specs.Request.{IsReplyInUse};
ghost use Rattle.tt_run.specs.Reply.{text_of, refusal_words, place_words};

use itoa::Buffer;
use std::marker::Model;
use tt_value::{Position, Refusal, Reply};

// The longest is that of three positions: `write `, ` force ` and ` hold `, each with two numbers of ten digits and a slash.
const TEXT_MAX: usize = 96;

/// The text of a reply, with its line feed.
#[derive(Drop)]
pub(crate) struct ReplyText {
    bytes: [u8; TEXT_MAX],
    length: usize,
}

impl Model for ReplyText {
    ghost use Rattle.std.specs.Prelude.{List, ℕ, take, ◌≤◌};

    ghost Value = { List ℕ };

    ghost view = { λ t. take t.length t.bytes };

    ghost invariant = { λ t. t.length ≤ 96 };
}

impl ReplyText {
    fn new() -> ReplyText
        ensures { result ≡ [] }
    {
        ReplyText {
            bytes: [0; TEXT_MAX],
            length: 0,
        }
    }

    fn push(&mut self, piece: &[u8])
        requires { length self.old + length piece.now ≤ 96 }
        ensures { self.new ≡ self.old ++ piece.now }
    {
        let end = self.length + piece.len();
        self.bytes[self.length..end].copy_from_slice(piece);
        self.length = end;
    }

    pub(crate) fn as_slice(&self) -> &[u8]
        ensures { result.now ≡ self.now }
    {
        &self.bytes[..self.length]
    }
}

// The text of a reply that some line gives.
pub(crate) fn reply_text(reply: &Reply) -> ReplyText
    requires { IsReplyInUse reply.now }
    ensures { result ≡ text_of reply.now }
{
    let mut text = ReplyText::new();
    match reply {
        Reply::Done => text.push(b"ok"),
        Reply::Changed(rows) => {
            text.push(b"changed ");
            text.push(Buffer::new().format(*rows).as_bytes());
        }
        Reply::Positions { write, force, hold } => {
            text.push(b"write ");
            push_position(&mut text, *write);
            text.push(b" force ");
            push_position(&mut text, *force);
            text.push(b" hold ");
            push_position(&mut text, *hold);
        }
        Reply::Refused(refusal) => push_refusal(&mut text, *refusal),
        _ => {}
    }
    text.push(b"\n");
    text
}

fn push_position(text: &mut ReplyText, at: Position)
    requires { length text.old ≤ 70 }
    ensures words { text.new ≡ text.old ++ place_words at }
    ensures short { length text.new ≤ length text.old + 21 }
{
    text.push(Buffer::new().format(at.file).as_bytes());
    text.push(b"/");
    text.push(Buffer::new().format(at.offset).as_bytes());
}

fn push_refusal(text: &mut ReplyText, refusal: Refusal)
    requires { text.old ≡ [] }
    ensures words { text.new ≡ refusal_words refusal }
    ensures short { length text.new ≤ 72 }
{
    text.push(b"error ");
    text.push(Buffer::new().format(refusal.number()).as_bytes());
    text.push(b" ");
    text.push(refusal.name().as_bytes());
    if let Some((name, number)) = refusal.field() {
        text.push(b" ");
        text.push(name.as_bytes());
        text.push(b" ");
        text.push(Buffer::new().format(number).as_bytes());
    }
}
