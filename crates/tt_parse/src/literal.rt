//! Reads literals.

ghost use Rattle.std.specs.Prelude.{◌≡◌, false, IfOk};
ghost use Rattle.tt_parse.specs.Reading as read;
ghost use Rattle.tt_parse.specs.Reading.{Reads};
ghost use Rattle.tt_parse.specs.Reader.{next_is};
ghost use Rattle.tt_parse.specs.Symbols as symbol;

use crate::cursor::Cursor;
use crate::fault::ParseError;
use crate::kind::Kind;
use crate::list::ReadItem;
use crate::number::number;
use std::alloc::{AllocError, Global};
use tt_value::{Text, Value};

#[tactic(auto, unfolding(crate::specs::Reading::literal))]
pub fn literal(alloc: Global, tokens: &mut Cursor<'_>) -> Result<Value, ParseError>
    ensures { Reads (read.literal tokens.old) result tokens.new }
{
    if tokens.sees_word(b"null") {
        null(tokens)
    } else if tokens.sees(Kind::Minus) {
        negative(tokens)
    } else if tokens.sees(Kind::Text) {
        text(alloc, tokens)
    } else {
        number(tokens, false)
    }
}

#[tactic(auto, using(crate::proofs::Parts::next_literal))]
pub fn sees_literal(tokens: &Cursor<'_>) -> bool
    ensures { result ≡ next_is read.is_literal tokens.now }
{
    tokens.sees(Kind::Minus)
        || tokens.sees(Kind::Text)
        || tokens.sees(Kind::Number)
        || tokens.sees_word(b"null")
}

impl ReadItem for Value {
    ghost reader = { read.literal };

    #[tactic(auto, using(crate::proofs::Lists::literal_within))]
    fn read_item(alloc: Global, tokens: &mut Cursor<'_>) -> Result<Value, ParseError> {
        literal(alloc, tokens)
    }
}

#[tactic(auto, unfolding(crate::specs::Reading::null))]
fn null(tokens: &mut Cursor<'_>) -> Result<Value, ParseError>
    ensures { Reads (read.null tokens.old) result tokens.new }
{
    tokens.word(b"null")?;
    Ok(Value::Null)
}

#[tactic(auto, unfolding(crate::specs::Reading::negative))]
fn negative(tokens: &mut Cursor<'_>) -> Result<Value, ParseError>
    ensures { Reads (read.negative tokens.old) result tokens.new }
{
    tokens.mark(Kind::Minus)?;
    number(tokens, true)
}

#[tactic(auto, using(crate::proofs::Parts::text_other_kind, crate::proofs::Parts::text_yes, crate::proofs::Parts::is_text))]
fn text(alloc: Global, tokens: &mut Cursor<'_>) -> Result<Value, ParseError>
    ensures { Reads (read.text tokens.old) result tokens.new }
{
    if !tokens.is(Kind::Text) {
        return Err(ParseError::Off);
    }
    let plain = undouble(alloc, tokens.text())?;
    let text = Text::from_vec(plain).unwrap();
    tokens.advance();
    Ok(Value::Text(text))
}

#[tactic(auto, unfolding(crate::specs::Symbols::undoubled))]
fn undouble(alloc: Global, mut text: &[u8]) -> Result<Vec<u8>, AllocError>
    ensures { IfOk result (λ v. v.items ≡ symbol.undoubled false text.entry.now) }
{
    let mut plain = Vec::new(alloc);
    let mut is_second = false;
    while let [b, rest @ ..] = text {
        if !is_second {
            plain.push(*b)?;
        }
        is_second = !is_second && *b == b'\'';
        text = rest;
    }
    Ok(plain)
}
