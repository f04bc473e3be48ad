//! Writes commands that make tables and indexes.

ghost use Rattle.std.specs.Prelude.{◌≡◌, codes, OnOk};
ghost use Rattle.tt_parse.specs.Printer.{Prints, put_all};
ghost use Rattle.tt_parse.specs.Spelling as spell;
ghost use Rattle.tt_parse.specs.declared.command.Command.TheVariants as commands;

use crate::command::ColumnText;
use crate::print_list::names;
use crate::print_literal::number;
use crate::printer::Printer;
use std::alloc::AllocError;
use tt_value::{ColumnType, Ident, List};

#[tactic(auto, unfolding(crate::specs::Spelling::pieces), using(crate::proofs::Printing::put_all_append))]
pub fn create_table(
    out: &mut Printer,
    name: &Ident,
    cols: &List<ColumnText>,
    key: &List<Ident>,
) -> Result<(), AllocError>
    ensures { OnOk result (Prints (commands.CreateTable name.now cols.now key.now) out.old out.new) }
{
    out.word(b"create")?;
    out.word(b"table")?;
    out.word(name.as_bytes())?;
    out.open()?;
    columns(out, cols.as_slice())?;
    out.word(b"primary")?;
    out.word(b"key")?;
    names(out, key)?;
    out.close()
}

#[tactic(auto, unfolding(crate::specs::Spelling::pieces), using(crate::proofs::Printing::put_all_append))]
pub fn create_index(
    out: &mut Printer,
    name: &Ident,
    table: &Ident,
    columns: &List<Ident>,
    is_unique: bool,
) -> Result<(), AllocError>
    ensures { OnOk result (Prints (commands.CreateIndex name.now table.now columns.now is_unique) out.old out.new) }
{
    out.word(b"create")?;
    unique(out, is_unique)?;
    out.word(b"index")?;
    out.word(name.as_bytes())?;
    out.word(b"on")?;
    out.word(table.as_bytes())?;
    names(out, columns)
}

/// The columns of a table, each with a comma behind it.
#[tactic(auto, unfolding(crate::specs::Spelling::columns), using(crate::proofs::Printing::put_all_append))]
fn columns(out: &mut Printer, mut columns: &[ColumnText]) -> Result<(), AllocError>
    ensures { OnOk result (out.new ≡ put_all out.old (spell.columns columns.entry.now)) }
{
    'columns: while let [first, rest @ ..] = columns {
        column(out, first)?;
        out.comma()?;
        columns = rest;
    }
    Ok(())
}

#[tactic(auto, using(crate::proofs::Printing::put_all_append))]
fn column(out: &mut Printer, column: &ColumnText) -> Result<(), AllocError>
    ensures { OnOk result (out.new ≡ put_all out.old (spell.column column.now)) }
{
    out.word(column.name.as_bytes())?;
    column_type(out, column.kind)?;
    required(out, column.required)
}

fn column_type(out: &mut Printer, kind: ColumnType) -> Result<(), AllocError>
    ensures { OnOk result (out.new ≡ put_all out.old (spell.column_type kind)) }
{
    match kind {
        ColumnType::BigInt => out.word(b"bigint"),
        ColumnType::Varchar(bytes) => {
            out.word(b"varchar")?;
            out.open()?;
            number(out, u32::from(bytes))?;
            out.close()
        }
        ColumnType::Number(scale) => {
            out.word(b"number")?;
            out.open()?;
            out.number(b"18")?;
            out.comma()?;
            number(out, u32::from(scale))?;
            out.close()
        }
    }
}

fn required(out: &mut Printer, required: bool) -> Result<(), AllocError>
    ensures { OnOk result (out.new ≡ put_all out.old (spell.required required)) }
{
    if required {
        out.word(b"not")?;
        out.word(b"null")
    } else {
        Ok(())
    }
}

fn unique(out: &mut Printer, unique: bool) -> Result<(), AllocError>
    ensures { OnOk result (out.new ≡ put_all out.old (spell.if_there (spell.word (codes "unique")) unique)) }
{
    if unique { out.word(b"unique") } else { Ok(()) }
}
