//! Reads commands that change rows.

ghost use Rattle.std.specs.Prelude.{◌≡◌};
ghost use Rattle.tt_parse.specs.Reading as read;
ghost use Rattle.tt_parse.specs.Reading.{Reads};

use crate::command::{Command, SetItem, SetSource};
use crate::condition::filter;
use crate::cursor::Cursor;
use crate::fault::ParseError;
use crate::kind::Kind;
use crate::list::{ReadItem, comma_list};
use crate::literal::{literal, sees_literal};
use crate::name::name;
use crate::number::number;
use std::alloc::Global;
use tt_value::Ident;

#[tactic(auto, unfolding(crate::specs::Reading::insert))]
pub fn insert(alloc: Global, tokens: &mut Cursor<'_>) -> Result<Command, ParseError>
    ensures { Reads (read.insert tokens.old) result tokens.new }
{
    tokens.word(b"insert")?;
    tokens.word(b"into")?;
    let table = name(alloc, tokens)?;
    tokens.word(b"values")?;
    tokens.mark(Kind::Open)?;
    let values = comma_list(alloc, tokens)?;
    tokens.mark(Kind::Close)?;
    Ok(Command::Insert { table, values })
}

#[tactic(auto, unfolding(crate::specs::Reading::update))]
pub fn update(alloc: Global, tokens: &mut Cursor<'_>) -> Result<Command, ParseError>
    ensures { Reads (read.update tokens.old) result tokens.new }
{
    tokens.word(b"update")?;
    let table = name(alloc, tokens)?;
    tokens.word(b"set")?;
    let sets = comma_list(alloc, tokens)?;
    let cond = filter(alloc, tokens)?;
    Ok(Command::Update { table, sets, cond })
}

#[tactic(auto, unfolding(crate::specs::Reading::delete))]
pub fn delete(alloc: Global, tokens: &mut Cursor<'_>) -> Result<Command, ParseError>
    ensures { Reads (read.delete tokens.old) result tokens.new }
{
    tokens.word(b"delete")?;
    tokens.word(b"from")?;
    let table = name(alloc, tokens)?;
    let cond = filter(alloc, tokens)?;
    Ok(Command::Delete { table, cond })
}

#[tactic(auto, unfolding(crate::specs::Reading::set_item))]
fn set_item(alloc: Global, tokens: &mut Cursor<'_>) -> Result<SetItem, ParseError>
    ensures { Reads (read.set_item tokens.old) result tokens.new }
{
    let column = name(alloc, tokens)?;
    tokens.mark(Kind::Equal)?;
    let source = set_source(alloc, tokens)?;
    Ok(SetItem { column, source })
}

impl ReadItem for SetItem {
    ghost reader = { read.set_item };

    #[tactic(auto, using(crate::proofs::Lists::set_item_within))]
    fn read_item(alloc: Global, tokens: &mut Cursor<'_>) -> Result<SetItem, ParseError> {
        set_item(alloc, tokens)
    }
}

#[tactic(auto, unfolding(crate::specs::Reading::set_source))]
fn set_source(alloc: Global, tokens: &mut Cursor<'_>) -> Result<SetSource, ParseError>
    ensures { Reads (read.set_source tokens.old) result tokens.new }
{
    if sees_literal(tokens) {
        literal_source(alloc, tokens)
    } else {
        name_source(alloc, tokens)
    }
}

#[tactic(auto, unfolding(crate::specs::Reading::literal_source))]
fn literal_source(alloc: Global, tokens: &mut Cursor<'_>) -> Result<SetSource, ParseError>
    ensures { Reads (read.literal_source tokens.old) result tokens.new }
{
    Ok(SetSource::Literal(literal(alloc, tokens)?))
}

#[tactic(auto, unfolding(crate::specs::Reading::name_source))]
fn name_source(alloc: Global, tokens: &mut Cursor<'_>) -> Result<SetSource, ParseError>
    ensures { Reads (read.name_source tokens.old) result tokens.new }
{
    let column = name(alloc, tokens)?;
    column_source(tokens, column)
}

#[tactic(auto, unfolding(crate::specs::Reading::column_source))]
fn column_source(tokens: &mut Cursor<'_>, column: Ident) -> Result<SetSource, ParseError>
    ensures { Reads (read.column_source column tokens.old) result tokens.new }
{
    if tokens.sees(Kind::Plus) {
        plus(tokens, column)
    } else if tokens.sees(Kind::Minus) {
        minus(tokens, column)
    } else {
        Ok(SetSource::Column(column))
    }
}

#[tactic(auto, unfolding(crate::specs::Reading::plus))]
fn plus(tokens: &mut Cursor<'_>, column: Ident) -> Result<SetSource, ParseError>
    ensures { Reads (read.plus column tokens.old) result tokens.new }
{
    tokens.mark(Kind::Plus)?;
    let by = number(tokens, false)?;
    Ok(SetSource::Plus { column, by })
}

#[tactic(auto, unfolding(crate::specs::Reading::minus))]
fn minus(tokens: &mut Cursor<'_>, column: Ident) -> Result<SetSource, ParseError>
    ensures { Reads (read.minus column tokens.old) result tokens.new }
{
    tokens.mark(Kind::Minus)?;
    let by = number(tokens, false)?;
    Ok(SetSource::Minus { column, by })
}
