//! Writes lists with a comma between two items. What a list may have is a type with `PrintItem`, in the file that writes it.

ghost use Rattle.std.specs.Prelude.{◌≡◌, List as Items, OnOk};
ghost use Rattle.tt_parse.specs.Printer.{put_all};
ghost use Rattle.tt_parse.specs.Spelling as spell;
ghost use Rattle.tt_parse.specs.Spelling.{Piece};

use crate::printer::Printer;
use std::alloc::AllocError;
use tt_value::{Ident, List};

/// What is written one by one into a list.
pub trait PrintItem {
    ghost pieces: { Self → Items Piece };

    fn print_item(&self, out: &mut Printer) -> Result<(), AllocError>
        ensures { OnOk result (out.new ≡ put_all out.old (pieces self.now)) };
}

impl PrintItem for Ident {
    ghost pieces = { spell.name };

    fn print_item(&self, out: &mut Printer) -> Result<(), AllocError> {
        out.word(self.as_bytes())
    }
}

/// The items with a comma between two.
#[tactic(auto, unfolding(crate::specs::Spelling::list), using(crate::proofs::Printing::put_all_append))]
pub fn list<T: PrintItem>(out: &mut Printer, items: &List<T>) -> Result<(), AllocError>
    ensures { OnOk result (out.new ≡ put_all out.old (spell.list T.pieces items.now)) }
{
    if let [first, rest @ ..] = items.as_slice() {
        first.print_item(out)?;
        more_items(out, rest)
    } else {
        Ok(())
    }
}

/// Names between parentheses.
#[tactic(auto, using(crate::proofs::Printing::put_all_append))]
pub fn names(out: &mut Printer, names: &List<Ident>) -> Result<(), AllocError>
    ensures { OnOk result (out.new ≡ put_all out.old (spell.names names.now)) }
{
    out.open()?;
    list(out, names)?;
    out.close()
}

/// The items, each behind a comma.
#[tactic(auto, unfolding(crate::specs::Spelling::more_items), using(crate::proofs::Printing::put_all_append))]
fn more_items<T: PrintItem>(out: &mut Printer, mut items: &[T]) -> Result<(), AllocError>
    ensures { OnOk result (out.new ≡ put_all out.old (spell.more_items T.pieces items.entry.now)) }
{
    'items: while let [first, rest @ ..] = items {
        out.comma()?;
        first.print_item(out)?;
        items = rest;
    }
    Ok(())
}
