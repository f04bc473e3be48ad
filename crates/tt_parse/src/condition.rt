//! Reads conditions. `and` binds tighter than `or`, and `not` tighter than both; each joins its parts from the left. At most
//! 64 levels of `not` and of parentheses stand within each other.

ghost use Rattle.std.specs.Prelude.{◌≡◌, IfOk};
ghost use Rattle.tt_parse.specs.Reading as read;
ghost use Rattle.tt_parse.specs.Reading.{Reads};
ghost use Rattle.tt_parse.specs.Reader.{next_is};
ghost use Rattle.tt_parse.specs.Symbols as symbol;

use crate::cond::{Cond, Op, Operand};
use crate::cursor::Cursor;
use crate::fault::ParseError;
use crate::kind::Kind;
use crate::literal::{literal, sees_literal};
use crate::name::name;
use sqlite_items::Boxed;
use std::alloc::{AllocError, Global};
use tt_value::Ident;

#[tactic(auto, unfolding(crate::specs::Reading::filter))]
pub fn filter(alloc: Global, tokens: &mut Cursor<'_>) -> Result<Option<Cond>, ParseError>
    ensures { Reads (read.filter tokens.old) result tokens.new }
{
    if tokens.sees_word(b"where") {
        given_filter(alloc, tokens)
    } else {
        Ok(None)
    }
}

#[tactic(auto, unfolding(crate::specs::Reading::given_filter, crate::specs::Reading::cond))]
fn given_filter(alloc: Global, tokens: &mut Cursor<'_>) -> Result<Option<Cond>, ParseError>
    ensures { Reads (read.given_filter tokens.old) result tokens.new }
{
    tokens.word(b"where")?;
    Ok(Some(cond(alloc, tokens, LEVELS)?))
}

const LEVELS: u8 = 64;

/// A condition.
#[cycle(cond)]
#[tactic(auto, using(crate::proofs::Loops::either_start, crate::proofs::Loops::either_early, crate::proofs::Loops::either_go, crate::proofs::Loops::either_fail, crate::proofs::Loops::either_stop, crate::proofs::Loops::either_shrink))]
fn cond(alloc: Global, tokens: &mut Cursor<'_>, levels: u8) -> Result<Cond, ParseError>
    ensures { Reads (read.cond_of (read.part levels) tokens.old) result tokens.new }
{
    let mut left = both(alloc, tokens, levels)?;
    'ors: while tokens.sees_word(b"or") {
        tokens.advance();
        let right = both(alloc, tokens, levels)?;
        left = or(alloc, left, right)?;
    }
    Ok(left)
}

/// Parts with `and` between them.
#[cycle(cond)]
#[tactic(auto, using(crate::proofs::Loops::both_start, crate::proofs::Loops::both_early, crate::proofs::Loops::both_go, crate::proofs::Loops::both_fail, crate::proofs::Loops::both_stop, crate::proofs::Loops::both_shrink))]
fn both(alloc: Global, tokens: &mut Cursor<'_>, levels: u8) -> Result<Cond, ParseError>
    ensures { Reads (read.both (read.part levels) tokens.old) result tokens.new }
{
    let mut left = part(alloc, tokens, levels)?;
    'ands: while tokens.sees_word(b"and") {
        tokens.advance();
        let right = part(alloc, tokens, levels)?;
        left = and(alloc, left, right)?;
    }
    Ok(left)
}

/// A part of a condition, with at most `levels` levels open.
#[cycle(cond)]
#[tactic(auto, using(crate::proofs::Loops::part_none, crate::proofs::Loops::part_not, crate::proofs::Loops::part_open, crate::proofs::Loops::part_test))]
fn part(alloc: Global, tokens: &mut Cursor<'_>, levels: u8) -> Result<Cond, ParseError>
    ensures { Reads (read.part levels tokens.old) result tokens.new }
{
    if levels == 0 {
        test(alloc, tokens)
    } else if tokens.sees_word(b"not") {
        negation(alloc, tokens, levels - 1)
    } else if tokens.sees(Kind::Open) {
        parenthesized(alloc, tokens, levels - 1)
    } else {
        test(alloc, tokens)
    }
}

#[cycle(cond)]
#[tactic(auto, unfolding(crate::specs::Reading::negation))]
fn negation(alloc: Global, tokens: &mut Cursor<'_>, levels: u8) -> Result<Cond, ParseError>
    ensures { Reads (read.negation (read.part levels) tokens.old) result tokens.new }
{
    tokens.word(b"not")?;
    let inner = part(alloc, tokens, levels)?;
    Ok(not(alloc, inner)?)
}

#[cycle(cond)]
#[tactic(auto, unfolding(crate::specs::Reading::parenthesized))]
fn parenthesized(alloc: Global, tokens: &mut Cursor<'_>, levels: u8) -> Result<Cond, ParseError>
    ensures { Reads (read.parenthesized (read.part levels) tokens.old) result tokens.new }
{
    tokens.mark(Kind::Open)?;
    let inner = cond(alloc, tokens, levels)?;
    tokens.mark(Kind::Close)?;
    Ok(inner)
}

fn not(alloc: Global, inner: Cond) -> Result<Cond, AllocError>
    ensures { IfOk result (λ c. c ≡ Cond.Not inner) }
{
    Ok(Cond::Not(Boxed::new(alloc, inner)?))
}

fn and(alloc: Global, a: Cond, b: Cond) -> Result<Cond, AllocError>
    ensures { IfOk result (λ c. c ≡ Cond.And a b) }
{
    Ok(Cond::And(Boxed::new(alloc, a)?, Boxed::new(alloc, b)?))
}

fn or(alloc: Global, a: Cond, b: Cond) -> Result<Cond, AllocError>
    ensures { IfOk result (λ c. c ≡ Cond.Or a b) }
{
    Ok(Cond::Or(Boxed::new(alloc, a)?, Boxed::new(alloc, b)?))
}

#[tactic(auto, unfolding(crate::specs::Reading::test))]
fn test(alloc: Global, tokens: &mut Cursor<'_>) -> Result<Cond, ParseError>
    ensures { Reads (read.test tokens.old) result tokens.new }
{
    let column = name(alloc, tokens)?;
    if sees_op(tokens) {
        comparison(alloc, tokens, column)
    } else {
        is_null(tokens, column)
    }
}

#[tactic(auto, unfolding(crate::specs::Reading::is_null))]
fn is_null(tokens: &mut Cursor<'_>, column: Ident) -> Result<Cond, ParseError>
    ensures { Reads (read.is_null column tokens.old) result tokens.new }
{
    tokens.word(b"is")?;
    let not = tokens.takes_word(b"not");
    tokens.word(b"null")?;
    Ok(Cond::IsNull { column, not })
}

#[tactic(auto, using(crate::proofs::Parts::next_op))]
fn sees_op(tokens: &Cursor<'_>) -> bool
    ensures { result ≡ next_is read.is_op tokens.now }
{
    match op_of(tokens.kind()) {
        Some(_) => true,
        None => false,
    }
}

#[tactic(auto, unfolding(crate::specs::Reading::comparison))]
fn comparison(alloc: Global, tokens: &mut Cursor<'_>, column: Ident) -> Result<Cond, ParseError>
    ensures { Reads (read.comparison column tokens.old) result tokens.new }
{
    let op = op(tokens)?;
    let right = right_side(alloc, tokens)?;
    Ok(Cond::Compare { column, op, right })
}

#[tactic(auto, using(crate::proofs::Parts::op_no, crate::proofs::Parts::op_yes))]
fn op(tokens: &mut Cursor<'_>) -> Result<Op, ParseError>
    ensures { Reads (read.op tokens.old) result tokens.new }
{
    let Some(op) = op_of(tokens.kind()) else {
        return Err(ParseError::Off);
    };
    tokens.advance();
    Ok(op)
}

fn op_of(kind: Kind) -> Option<Op>
    ensures { result ≡ symbol.op_of kind }
{
    match kind {
        Kind::Equal => Some(Op::Eq),
        Kind::NotEqual => Some(Op::Ne),
        Kind::Less => Some(Op::Lt),
        Kind::LessEqual => Some(Op::Le),
        Kind::Greater => Some(Op::Gt),
        Kind::GreaterEqual => Some(Op::Ge),
        _ => None,
    }
}

#[tactic(auto, unfolding(crate::specs::Reading::right_side))]
fn right_side(alloc: Global, tokens: &mut Cursor<'_>) -> Result<Operand, ParseError>
    ensures { Reads (read.right_side tokens.old) result tokens.new }
{
    if sees_literal(tokens) {
        literal_side(alloc, tokens)
    } else {
        name_side(alloc, tokens)
    }
}

#[tactic(auto, unfolding(crate::specs::Reading::literal_side))]
fn literal_side(alloc: Global, tokens: &mut Cursor<'_>) -> Result<Operand, ParseError>
    ensures { Reads (read.literal_side tokens.old) result tokens.new }
{
    Ok(Operand::Literal(literal(alloc, tokens)?))
}

#[tactic(auto, unfolding(crate::specs::Reading::name_side))]
fn name_side(alloc: Global, tokens: &mut Cursor<'_>) -> Result<Operand, ParseError>
    ensures { Reads (read.name_side tokens.old) result tokens.new }
{
    Ok(Operand::Column(name(alloc, tokens)?))
}
