//! Writes commands that change rows.

ghost use Rattle.std.specs.Prelude.{◌≡◌, OnOk};
ghost use Rattle.tt_parse.specs.Printer.{put_all};
ghost use Rattle.tt_parse.specs.Spelling as spell;
ghost use Rattle.tt_parse.specs.declared.command.Command.TheVariants as commands;

use crate::command::{SetItem, SetSource};
use crate::cond::Cond;
use crate::kind::Kind;
use crate::print_condition::filter;
use crate::print_list::{PrintItem, list};
use crate::print_literal::literal;
use crate::printer::Printer;
use std::alloc::AllocError;
use tt_value::{Ident, List, Value};

#[tactic(auto, unfolding(crate::specs::Spelling::pieces), using(crate::proofs::Printing::put_all_append))]
pub fn insert(out: &mut Printer, table: &Ident, values: &List<Value>) -> Result<(), AllocError>
    ensures { OnOk result (out.new ≡ put_all out.old (spell.pieces (commands.Insert table.now values.now))) }
{
    out.word(b"insert")?;
    out.word(b"into")?;
    out.word(table.as_bytes())?;
    out.word(b"values")?;
    out.open()?;
    list(out, values)?;
    out.close()
}

#[tactic(auto, unfolding(crate::specs::Spelling::pieces), using(crate::proofs::Printing::put_all_append))]
pub fn update(
    out: &mut Printer,
    table: &Ident,
    sets: &List<SetItem>,
    cond: &Option<Cond>,
) -> Result<(), AllocError>
    ensures { OnOk result (out.new ≡ put_all out.old (spell.pieces (commands.Update table.now sets.now cond.now))) }
{
    out.word(b"update")?;
    out.word(table.as_bytes())?;
    out.word(b"set")?;
    list(out, sets)?;
    filter(out, cond)
}

#[tactic(auto, unfolding(crate::specs::Spelling::pieces))]
pub fn delete(out: &mut Printer, table: &Ident, cond: &Option<Cond>) -> Result<(), AllocError>
    ensures { OnOk result (out.new ≡ put_all out.old (spell.pieces (commands.Delete table.now cond.now))) }
{
    out.word(b"delete")?;
    out.word(b"from")?;
    out.word(table.as_bytes())?;
    filter(out, cond)
}

impl PrintItem for SetItem {
    ghost pieces = { spell.set_item };

    fn print_item(&self, out: &mut Printer) -> Result<(), AllocError> {
        out.word(self.column.as_bytes())?;
        out.token(Kind::Equal, b"=")?;
        set_source(out, &self.source)
    }
}

fn set_source(out: &mut Printer, source: &SetSource) -> Result<(), AllocError>
    ensures { OnOk result (out.new ≡ put_all out.old (spell.set_source source.now)) }
{
    match source {
        SetSource::Literal(value) => literal(out, value),
        SetSource::Column(column) => out.word(column.as_bytes()),
        SetSource::Plus { column, by } => {
            out.word(column.as_bytes())?;
            out.token(Kind::Plus, b"+")?;
            literal(out, by)
        }
        SetSource::Minus { column, by } => {
            out.word(column.as_bytes())?;
            out.token(Kind::Minus, b"-")?;
            literal(out, by)
        }
    }
}
