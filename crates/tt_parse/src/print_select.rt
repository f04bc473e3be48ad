//! Writes selects.

ghost use Rattle.std.specs.Prelude.{◌≡◌, OnOk};
ghost use Rattle.tt_parse.specs.Printer.{Prints, put_all};
ghost use Rattle.tt_parse.specs.Spelling as spell;
ghost use Rattle.tt_parse.specs.declared.command.Command.TheVariants as commands;

use crate::command::{Aggregate, Items, OrderItem};
use crate::cond::Cond;
use crate::kind::Kind;
use crate::print_condition::filter;
use crate::print_list::{PrintItem, list};
use crate::printer::Printer;
use std::alloc::AllocError;
use tt_value::{Ident, List};

#[tactic(auto, unfolding(crate::specs::Spelling::pieces), using(crate::proofs::Printing::put_all_append))]
pub fn select(
    out: &mut Printer,
    table: &Ident,
    taken: &Items,
    cond: &Option<Cond>,
    by: &List<OrderItem>,
) -> Result<(), AllocError>
    ensures { OnOk result (Prints (commands.Select table.now taken.now cond.now by.now) out.old out.new) }
{
    out.word(b"select")?;
    items(out, taken)?;
    out.word(b"from")?;
    out.word(table.as_bytes())?;
    filter(out, cond)?;
    order(out, by)
}

fn items(out: &mut Printer, items: &Items) -> Result<(), AllocError>
    ensures { OnOk result (out.new ≡ put_all out.old (spell.select_items items.now)) }
{
    match items {
        Items::All => out.token(Kind::Star, b"*"),
        Items::Columns(names) => list(out, names),
        Items::Sums(sums) => list(out, sums),
    }
}

impl PrintItem for Aggregate {
    ghost pieces = { spell.aggregate };

    fn print_item(&self, out: &mut Printer) -> Result<(), AllocError> {
        match self {
            Aggregate::Count => {
                out.word(b"count")?;
                out.open()?;
                out.token(Kind::Star, b"*")?;
                out.close()
            }
            Aggregate::Sum(column) => {
                out.word(b"sum")?;
                out.open()?;
                out.word(column.as_bytes())?;
                out.close()
            }
        }
    }
}

fn order(out: &mut Printer, order: &List<OrderItem>) -> Result<(), AllocError>
    ensures { OnOk result (out.new ≡ put_all out.old (spell.order order.now)) }
{
    if order.len() == 0 {
        return Ok(());
    }
    out.word(b"order")?;
    out.word(b"by")?;
    list(out, order)
}

impl PrintItem for OrderItem {
    ghost pieces = { spell.order_item };

    fn print_item(&self, out: &mut Printer) -> Result<(), AllocError> {
        out.word(self.column.as_bytes())?;
        if self.down { out.word(b"desc") } else { Ok(()) }
    }
}
