//! Reads `select`.

ghost use Rattle.std.specs.Prelude.{◌≡◌};
ghost use Rattle.tt_parse.specs.Reader.{next_is};
ghost use Rattle.tt_parse.specs.Reading as read;
ghost use Rattle.tt_parse.specs.Reading.{Reads};
ghost use Rattle.tt_parse.specs.Cursor.{next_found};
ghost use Rattle.tt_parse.specs.Symbols as symbol;

use crate::command::{Aggregate, Command, Items, OrderItem};
use crate::condition::filter;
use crate::cursor::Cursor;
use crate::fault::ParseError;
use crate::kind::Kind;
use crate::list::{ReadItem, comma_list};
use crate::name::name;
use std::alloc::Global;
use tt_value::List;

#[tactic(auto, unfolding(crate::specs::Reading::select))]
pub fn select(alloc: Global, tokens: &mut Cursor<'_>) -> Result<Command, ParseError>
    ensures { Reads (read.select tokens.old) result tokens.new }
{
    tokens.word(b"select")?;
    if sees_aggregate(tokens) {
        select_sums(alloc, tokens)
    } else {
        select_rows(alloc, tokens)
    }
}

#[tactic(auto, using(crate::proofs::Parts::next_aggregate))]
fn sees_aggregate(tokens: &Cursor<'_>) -> bool
    ensures { result ≡ next_is read.is_aggregate tokens.now }
{
    tokens.sees_word(b"count") || tokens.sees_word(b"sum")
}

#[tactic(auto, unfolding(crate::specs::Reading::select_sums))]
fn select_sums(alloc: Global, tokens: &mut Cursor<'_>) -> Result<Command, ParseError>
    ensures { Reads (read.select_sums tokens.old) result tokens.new }
{
    let sums = comma_list(alloc, tokens)?;
    tokens.word(b"from")?;
    let table = name(alloc, tokens)?;
    let cond = filter(alloc, tokens)?;
    Ok(Command::Select {
        table,
        items: Items::Sums(sums),
        cond,
        order: List::new(alloc),
    })
}

#[tactic(auto, unfolding(crate::specs::Reading::select_rows))]
fn select_rows(alloc: Global, tokens: &mut Cursor<'_>) -> Result<Command, ParseError>
    ensures { Reads (read.select_rows tokens.old) result tokens.new }
{
    let items = columns(alloc, tokens)?;
    tokens.word(b"from")?;
    let table = name(alloc, tokens)?;
    let cond = filter(alloc, tokens)?;
    let order = order(alloc, tokens)?;
    Ok(Command::Select {
        table,
        items,
        cond,
        order,
    })
}

#[tactic(auto, unfolding(crate::specs::Reading::columns))]
fn columns(alloc: Global, tokens: &mut Cursor<'_>) -> Result<Items, ParseError>
    ensures { Reads (read.columns tokens.old) result tokens.new }
{
    if tokens.sees(Kind::Star) {
        all_columns(tokens)
    } else {
        named_columns(alloc, tokens)
    }
}

#[tactic(auto, unfolding(crate::specs::Reading::all_columns))]
fn all_columns(tokens: &mut Cursor<'_>) -> Result<Items, ParseError>
    ensures { Reads (read.all_columns tokens.old) result tokens.new }
{
    tokens.mark(Kind::Star)?;
    Ok(Items::All)
}

#[tactic(auto, unfolding(crate::specs::Reading::named_columns))]
fn named_columns(alloc: Global, tokens: &mut Cursor<'_>) -> Result<Items, ParseError>
    ensures { Reads (read.named_columns tokens.old) result tokens.new }
{
    Ok(Items::Columns(comma_list(alloc, tokens)?))
}

impl ReadItem for Aggregate {
    ghost reader = { read.aggregate };

    #[tactic(auto, using(crate::proofs::Lists::aggregate_within))]
    fn read_item(alloc: Global, tokens: &mut Cursor<'_>) -> Result<Aggregate, ParseError> {
        aggregate(alloc, tokens)
    }
}

#[tactic(auto, unfolding(crate::specs::Reading::aggregate))]
fn aggregate(alloc: Global, tokens: &mut Cursor<'_>) -> Result<Aggregate, ParseError>
    ensures { Reads (read.aggregate tokens.old) result tokens.new }
{
    if tokens.sees_word(b"count") {
        count(tokens)
    } else {
        sum(alloc, tokens)
    }
}

#[tactic(auto, unfolding(crate::specs::Reading::count))]
fn count(tokens: &mut Cursor<'_>) -> Result<Aggregate, ParseError>
    ensures { Reads (read.count tokens.old) result tokens.new }
{
    tokens.word(b"count")?;
    tokens.mark(Kind::Open)?;
    tokens.mark(Kind::Star)?;
    tokens.mark(Kind::Close)?;
    Ok(Aggregate::Count)
}

#[tactic(auto, unfolding(crate::specs::Reading::sum))]
fn sum(alloc: Global, tokens: &mut Cursor<'_>) -> Result<Aggregate, ParseError>
    ensures { Reads (read.sum tokens.old) result tokens.new }
{
    tokens.word(b"sum")?;
    tokens.mark(Kind::Open)?;
    let column = name(alloc, tokens)?;
    tokens.mark(Kind::Close)?;
    Ok(Aggregate::Sum(column))
}

#[tactic(auto, unfolding(crate::specs::Reading::order))]
fn order(alloc: Global, tokens: &mut Cursor<'_>) -> Result<List<OrderItem>, ParseError>
    ensures { Reads (read.order tokens.old) result tokens.new }
{
    if tokens.sees_word(b"order") {
        given_order(alloc, tokens)
    } else {
        Ok(List::new(alloc))
    }
}

#[tactic(auto, unfolding(crate::specs::Reading::given_order))]
fn given_order(alloc: Global, tokens: &mut Cursor<'_>) -> Result<List<OrderItem>, ParseError>
    ensures { Reads (read.given_order tokens.old) result tokens.new }
{
    tokens.word(b"order")?;
    tokens.word(b"by")?;
    comma_list(alloc, tokens)
}

impl ReadItem for OrderItem {
    ghost reader = { read.order_item };

    #[tactic(auto, using(crate::proofs::Lists::order_item_within))]
    fn read_item(alloc: Global, tokens: &mut Cursor<'_>) -> Result<OrderItem, ParseError> {
        order_item(alloc, tokens)
    }
}

#[tactic(auto, unfolding(crate::specs::Reading::order_item))]
fn order_item(alloc: Global, tokens: &mut Cursor<'_>) -> Result<OrderItem, ParseError>
    ensures { Reads (read.order_item tokens.old) result tokens.new }
{
    let column = name(alloc, tokens)?;
    let down = direction(tokens);
    Ok(OrderItem { column, down })
}

/// Whether the order is that of decreasing values.
#[tactic(auto, using(crate::proofs::Parts::direction_no, crate::proofs::Parts::direction_yes))]
fn direction(tokens: &mut Cursor<'_>) -> bool
    ensures { read.direction tokens.old ≡ Ok (result, tokens.new) }
{
    match direction_of(tokens) {
        Some(down) => {
            tokens.advance();
            down
        }
        None => false,
    }
}

#[tactic(auto, using(crate::proofs::Parts::next_direction))]
fn direction_of(tokens: &Cursor<'_>) -> Option<bool>
    ensures { result ≡ next_found symbol.the_direction tokens.now }
{
    if tokens.sees_word(b"asc") {
        Some(false)
    } else if tokens.sees_word(b"desc") {
        Some(true)
    } else {
        None
    }
}
