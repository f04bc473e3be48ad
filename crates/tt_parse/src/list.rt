//! Reads items with a comma between two. What a list may have is a type with `ReadItem`, in the file that reads it.

ghost use Rattle.std.specs.Prelude.{◌≡◌, ◌≤◌, length, OnOk};
ghost use Rattle.tt_parse.specs.Reading as read;
ghost use Rattle.tt_parse.specs.Reading.{R, Reads, prepend};

use crate::cursor::Cursor;
use crate::fault::ParseError;
use crate::kind::Kind;
use std::alloc::Global;
use tt_value::List;

/// What is read one by one from a list.
pub trait ReadItem: Drop {
    ghost reader: { R Self };

    fn read_item(alloc: Global, tokens: &mut Cursor<'_>) -> Result<Self, ParseError>
        ensures read { Reads (reader tokens.old) result tokens.new }
        ensures within { OnOk result (length tokens.new ≤ length tokens.old) };
}

/// One item or more, with a comma between two.
#[tactic(auto, unfolding(crate::specs::Reading::comma_list))]
pub fn comma_list<T: ReadItem>(
    alloc: Global,
    tokens: &mut Cursor<'_>,
) -> Result<List<T>, ParseError>
    ensures { Reads (read.comma_list T.reader tokens.old) result tokens.new }
{
    let mut items = List::new(alloc);
    items.push(T::read_item(alloc, tokens)?)?;
    more_items(alloc, tokens, items)
}

/// Adds the items that follow, each behind a comma.
#[tactic(auto, using(crate::proofs::Lists::items_begin, crate::proofs::Lists::items_go_on, crate::proofs::Lists::shorter))]
fn more_items<T: ReadItem>(
    alloc: Global,
    tokens: &mut Cursor<'_>,
    mut items: List<T>,
) -> Result<List<T>, ParseError>
    ensures { Reads (prepend items (read.more_items T.reader tokens.old)) result tokens.new }
{
    'commas: while tokens.sees(Kind::Comma) {
        tokens.advance();
        items.push(T::read_item(alloc, tokens)?)?;
    }
    Ok(items)
}
