//! Reads names, in any case. A name is kept in lower case.

ghost use Rattle.std.specs.Prelude.{◌≡◌, ◌≤◌, length, map, take};
ghost use Rattle.std.specs.Char.{to_ascii_lowercase};
ghost use Rattle.tt_value.specs.Limits.{name_most};
ghost use Rattle.tt_parse.specs.Reading as read;
ghost use Rattle.tt_parse.specs.Reading.{Reads};

use crate::cursor::Cursor;
use crate::fault::ParseError;
use crate::kind::Kind;
use crate::list::{ReadItem, comma_list};
use std::alloc::Global;
use tt_value::{Ident, List, NAME_MAX};

#[tactic(auto, using(crate::proofs::Parts::name_other_kind, crate::proofs::Parts::name_long, crate::proofs::Parts::name_no, crate::proofs::Parts::name_yes))]
pub fn name(alloc: Global, tokens: &mut Cursor<'_>) -> Result<Ident, ParseError>
    ensures { Reads (read.name tokens.old) result tokens.new }
{
    if !tokens.is(Kind::Word) {
        return Err(ParseError::Off);
    }
    let bytes = tokens.bytes();
    if bytes.len() > NAME_MAX {
        return Err(ParseError::Off);
    }
    let lower = in_lower_case(bytes);
    match Ident::of(alloc, &lower[..bytes.len()])? {
        Some(name) => {
            tokens.advance();
            Ok(name)
        }
        None => Err(ParseError::Off),
    }
}

#[tactic(auto, unfolding(crate::specs::Reading::names))]
pub fn names(alloc: Global, tokens: &mut Cursor<'_>) -> Result<List<Ident>, ParseError>
    ensures { Reads (read.names tokens.old) result tokens.new }
{
    tokens.mark(Kind::Open)?;
    let names = comma_list(alloc, tokens)?;
    tokens.mark(Kind::Close)?;
    Ok(names)
}

impl ReadItem for Ident {
    ghost reader = { read.name };

    #[tactic(auto, using(crate::proofs::Lists::name_within))]
    fn read_item(alloc: Global, tokens: &mut Cursor<'_>) -> Result<Ident, ParseError> {
        name(alloc, tokens)
    }
}

/// The bytes in lower case, and zeros behind them.
fn in_lower_case(bytes: &[u8]) -> [u8; NAME_MAX]
    requires { length bytes.now ≤ name_most }
    ensures { take (length bytes.now) result ≡ map to_ascii_lowercase bytes.now }
{
    let mut lower = [0_u8; NAME_MAX];
    let front = &mut lower[..bytes.len()];
    front.copy_from_slice(bytes);
    front.make_ascii_lowercase();
    lower
}
