//! Reads commands that make and drop tables and indexes.

ghost use Rattle.std.specs.Prelude.{◌≡◌};
ghost use Rattle.tt_parse.specs.Reader.{next_is};
ghost use Rattle.tt_parse.specs.Reading as read;
ghost use Rattle.tt_parse.specs.Reading.{Reads, prepend};

use crate::command::{ColumnText, Command};
use crate::cursor::Cursor;
use crate::fault::ParseError;
use crate::kind::Kind;
use crate::name::{name, names};
use crate::number::{digits, eighteen};
use std::alloc::Global;
use tt_value::{ColumnType, Ident, List};

#[tactic(auto, unfolding(crate::specs::Reading::create))]
pub fn create(alloc: Global, tokens: &mut Cursor<'_>) -> Result<Command, ParseError>
    ensures { Reads (read.create tokens.old) result tokens.new }
{
    tokens.word(b"create")?;
    if tokens.sees_word(b"table") {
        create_table(alloc, tokens)
    } else {
        create_index(alloc, tokens)
    }
}

/// A command that drops a table or an index.
#[tactic(auto, unfolding(crate::specs::Reading::drop))]
pub fn drop_command(alloc: Global, tokens: &mut Cursor<'_>) -> Result<Command, ParseError>
    ensures { Reads (read.drop tokens.old) result tokens.new }
{
    tokens.word(b"drop")?;
    if tokens.sees_word(b"table") {
        drop_table(alloc, tokens)
    } else {
        drop_index(alloc, tokens)
    }
}

#[tactic(auto, unfolding(crate::specs::Reading::create_table))]
fn create_table(alloc: Global, tokens: &mut Cursor<'_>) -> Result<Command, ParseError>
    ensures { Reads (read.create_table tokens.old) result tokens.new }
{
    tokens.word(b"table")?;
    let name = name(alloc, tokens)?;
    columns_and_key(alloc, tokens, name)
}

#[tactic(auto, unfolding(crate::specs::Reading::columns_and_key))]
fn columns_and_key(
    alloc: Global,
    tokens: &mut Cursor<'_>,
    name: Ident,
) -> Result<Command, ParseError>
    ensures { Reads (read.columns_and_key name tokens.old) result tokens.new }
{
    tokens.mark(Kind::Open)?;
    let mut columns = List::new(alloc);
    columns.push(column(alloc, tokens)?)?;
    let columns = more_columns(alloc, tokens, columns)?;
    tokens.word(b"primary")?;
    tokens.word(b"key")?;
    let key = names(alloc, tokens)?;
    tokens.mark(Kind::Close)?;
    Ok(Command::CreateTable { name, columns, key })
}

#[tactic(auto, using(crate::proofs::Parts::next_column))]
fn sees_column(tokens: &Cursor<'_>) -> bool
    ensures { result ≡ next_is read.is_column tokens.now }
{
    tokens.sees(Kind::Word) && !tokens.sees_word(b"primary")
}

/// Adds the columns that follow.
#[tactic(auto, using(crate::proofs::Lists::columns_begin, crate::proofs::Lists::goes_on, crate::proofs::Lists::columns_shrink))]
fn more_columns(
    alloc: Global,
    tokens: &mut Cursor<'_>,
    mut columns: List<ColumnText>,
) -> Result<List<ColumnText>, ParseError>
    ensures { Reads (prepend columns (read.more_columns tokens.old)) result tokens.new }
{
    'columns: while sees_column(tokens) {
        columns.push(column(alloc, tokens)?)?;
    }
    Ok(columns)
}

#[tactic(auto, unfolding(crate::specs::Reading::column))]
fn column(alloc: Global, tokens: &mut Cursor<'_>) -> Result<ColumnText, ParseError>
    ensures { Reads (read.column tokens.old) result tokens.new }
{
    let name = name(alloc, tokens)?;
    let kind = column_type(tokens)?;
    let required = required(tokens)?;
    tokens.mark(Kind::Comma)?;
    Ok(ColumnText {
        name,
        kind,
        required,
    })
}

#[tactic(auto, unfolding(crate::specs::Reading::column_type))]
fn column_type(tokens: &mut Cursor<'_>) -> Result<ColumnType, ParseError>
    ensures { Reads (read.column_type tokens.old) result tokens.new }
{
    if tokens.sees_word(b"bigint") {
        bigint(tokens)
    } else if tokens.sees_word(b"varchar") {
        varchar(tokens)
    } else {
        decimal(tokens)
    }
}

#[tactic(auto, unfolding(crate::specs::Reading::bigint))]
fn bigint(tokens: &mut Cursor<'_>) -> Result<ColumnType, ParseError>
    ensures { Reads (read.bigint tokens.old) result tokens.new }
{
    tokens.word(b"bigint")?;
    Ok(ColumnType::BigInt)
}

#[tactic(auto, unfolding(crate::specs::Reading::varchar))]
fn varchar(tokens: &mut Cursor<'_>) -> Result<ColumnType, ParseError>
    ensures { Reads (read.varchar tokens.old) result tokens.new }
{
    tokens.word(b"varchar")?;
    tokens.mark(Kind::Open)?;
    let bytes = digits(tokens, 1, 200)?;
    tokens.mark(Kind::Close)?;
    Ok(ColumnType::Varchar(bytes as u16))
}

#[tactic(auto, unfolding(crate::specs::Reading::decimal))]
fn decimal(tokens: &mut Cursor<'_>) -> Result<ColumnType, ParseError>
    ensures { Reads (read.decimal tokens.old) result tokens.new }
{
    tokens.word(b"number")?;
    tokens.mark(Kind::Open)?;
    eighteen(tokens)?;
    tokens.mark(Kind::Comma)?;
    let scale = digits(tokens, 0, 18)?;
    tokens.mark(Kind::Close)?;
    Ok(ColumnType::Number(scale as u8))
}

#[tactic(auto, unfolding(crate::specs::Reading::required))]
fn required(tokens: &mut Cursor<'_>) -> Result<bool, ParseError>
    ensures { Reads (read.required tokens.old) result tokens.new }
{
    if tokens.sees_word(b"not") {
        not_null(tokens)
    } else {
        Ok(false)
    }
}

#[tactic(auto, unfolding(crate::specs::Reading::not_null))]
fn not_null(tokens: &mut Cursor<'_>) -> Result<bool, ParseError>
    ensures { Reads (read.not_null tokens.old) result tokens.new }
{
    tokens.word(b"not")?;
    tokens.word(b"null")?;
    Ok(true)
}

#[tactic(auto, unfolding(crate::specs::Reading::create_index))]
fn create_index(alloc: Global, tokens: &mut Cursor<'_>) -> Result<Command, ParseError>
    ensures { Reads (read.create_index tokens.old) result tokens.new }
{
    let unique = tokens.takes_word(b"unique");
    tokens.word(b"index")?;
    let index = name(alloc, tokens)?;
    tokens.word(b"on")?;
    let table = name(alloc, tokens)?;
    let columns = names(alloc, tokens)?;
    Ok(Command::CreateIndex {
        name: index,
        table,
        columns,
        unique,
    })
}

#[tactic(auto, unfolding(crate::specs::Reading::drop_table))]
fn drop_table(alloc: Global, tokens: &mut Cursor<'_>) -> Result<Command, ParseError>
    ensures { Reads (read.drop_table tokens.old) result tokens.new }
{
    tokens.word(b"table")?;
    let name = name(alloc, tokens)?;
    Ok(Command::DropTable { name })
}

#[tactic(auto, unfolding(crate::specs::Reading::drop_index))]
fn drop_index(alloc: Global, tokens: &mut Cursor<'_>) -> Result<Command, ParseError>
    ensures { Reads (read.drop_index tokens.old) result tokens.new }
{
    tokens.word(b"index")?;
    let name = name(alloc, tokens)?;
    Ok(Command::DropIndex { name })
}
