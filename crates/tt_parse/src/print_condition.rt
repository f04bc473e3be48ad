//! Writes conditions.

ghost use Rattle.std.specs.Prelude.{◌≡◌, OnOk};
ghost use Rattle.tt_parse.specs.Printer.{put, put_all};
ghost use Rattle.tt_parse.specs.Spelling as spell;

use crate::cond::{Cond, Op, Operand};
use crate::kind::Kind;
use crate::print_literal::literal;
use crate::printer::{Context, Printer};
use std::alloc::AllocError;

/// A condition, between parentheses where it needs them in that context.
#[tactic(auto, unfolding(crate::specs::Spelling::condition), using(crate::proofs::Printing::put_all_append))]
pub fn condition(out: &mut Printer, cond: &Cond, context: Context) -> Result<(), AllocError>
    ensures { OnOk result (out.new ≡ put_all out.old (spell.condition cond.now context)) }
{
    match cond {
        Cond::Compare {
            column,
            op: by,
            right,
        } => {
            out.word(column.as_bytes())?;
            op(out, *by)?;
            operand(out, right)
        }
        Cond::IsNull { column, not } => {
            out.word(column.as_bytes())?;
            null_test(out, *not)
        }
        Cond::Not(inner) => {
            out.word(b"not")?;
            condition(out, inner.get(), Context::Part)
        }
        Cond::And(a, b) => {
            open_if(out, is_part(context))?;
            condition(out, a.get(), Context::And)?;
            out.word(b"and")?;
            condition(out, b.get(), Context::Part)?;
            close_if(out, is_part(context))
        }
        Cond::Or(a, b) => {
            open_if(out, is_under_and(context))?;
            condition(out, a.get(), Context::Or)?;
            out.word(b"or")?;
            condition(out, b.get(), Context::And)?;
            close_if(out, is_under_and(context))
        }
    }
}

pub fn filter(out: &mut Printer, cond: &Option<Cond>) -> Result<(), AllocError>
    ensures { OnOk result (out.new ≡ put_all out.old (spell.filter cond.now)) }
{
    match cond {
        Some(cond) => {
            out.word(b"where")?;
            condition(out, cond, Context::Or)
        }
        None => Ok(()),
    }
}

fn is_part(context: Context) -> bool
    ensures { result ≡ spell.is_part context }
{
    match context {
        Context::Part => true,
        _ => false,
    }
}

fn is_under_and(context: Context) -> bool
    ensures { result ≡ spell.is_under_and context }
{
    match context {
        Context::Or => false,
        _ => true,
    }
}

fn open_if(out: &mut Printer, is_there: bool) -> Result<(), AllocError>
    ensures { OnOk result (out.new ≡ put_all out.old (spell.if_there spell.open_mark is_there)) }
{
    if is_there { out.open() } else { Ok(()) }
}

fn close_if(out: &mut Printer, is_there: bool) -> Result<(), AllocError>
    ensures { OnOk result (out.new ≡ put_all out.old (spell.if_there spell.close_mark is_there)) }
{
    if is_there { out.close() } else { Ok(()) }
}

fn op(out: &mut Printer, op: Op) -> Result<(), AllocError>
    ensures { OnOk result (out.new ≡ put out.old (spell.op_piece op)) }
{
    match op {
        Op::Eq => out.token(Kind::Equal, b"="),
        Op::Ne => out.token(Kind::NotEqual, b"<>"),
        Op::Lt => out.token(Kind::Less, b"<"),
        Op::Le => out.token(Kind::LessEqual, b"<="),
        Op::Gt => out.token(Kind::Greater, b">"),
        Op::Ge => out.token(Kind::GreaterEqual, b">="),
    }
}

fn operand(out: &mut Printer, operand: &Operand) -> Result<(), AllocError>
    ensures { OnOk result (out.new ≡ put_all out.old (spell.operand operand.now)) }
{
    match operand {
        Operand::Literal(value) => literal(out, value),
        Operand::Column(column) => out.word(column.as_bytes()),
    }
}

fn null_test(out: &mut Printer, not: bool) -> Result<(), AllocError>
    ensures { OnOk result (out.new ≡ put_all out.old (spell.null_test not)) }
{
    out.word(b"is")?;
    if not {
        out.word(b"not")?;
    }
    out.word(b"null")
}
