//! Writes commands.

ghost use Rattle.std.specs.Prelude.{◌≡◌, ◌++◌, ◌∷◌, [], OnOk, OnErr, IsUtf8, false, true};
ghost use Rattle.std.specs.Fmt.{decimal};
ghost use Rattle.tt_parse.specs.Printer.{put, put_all};
ghost use Rattle.tt_parse.specs.Spelling as spell;
ghost use Rattle.tt_parse.specs.Parse as parsing;
ghost use Rattle.tt_parse.specs.Script as script;
ghost use Rattle.tt_parse.specs.Tokens.{tokens_of};
ghost use Rattle.tt_parse.specs.declared.command.Command.TheVariants as commands;

use crate::command::{BackupKind, Command};
use crate::print_definition::{create_index, create_table};
use crate::print_literal::number;
use crate::print_row::{delete, insert, update};
use crate::print_select::select;
use crate::printer::Printer;
use std::alloc::AllocError;
use tt_value::Ident;

/// Appends the canonical spelling of a command that some line gives. Where memory is wanting `out` stays as it was.
#[tactic(auto, unfolding(crate::specs::Spelling::spelling), using(crate::proofs::Printing::written, crate::proofs::SpelledLines::spelling_back, crate::proofs::SpelledLines::spelling_utf8, crate::proofs::Commented::spelling_runs))]
pub fn print(command: &Command, out: &mut Vec<u8>) -> Result<(), AllocError>
    requires { parsing.IsGiven command.now }
    ensures spelled { OnOk result (out.new.items ≡ out.old.items ++ spell.spelling command.now) }
    // The spelling is a line of the grammar, which gives the command in session 1. It is UTF-8 and is not skipped.
    ensures back { script.line (tokens_of (spell.spelling command.now)) (1, command.now) }
    ensures utf8 { IsUtf8 (spell.spelling command.now) }
    ensures runs { parsing.is_skipped (spell.spelling command.now) ≡ false }
    ensures unchanged { OnErr result (out.new.items ≡ out.old.items) }
{
    let mut printer = Printer::new(*out.allocator());
    pieces(&mut printer, command)?;
    out.extend_from_slice(printer.as_slice())
}

/// The tokens of a command.
#[tactic(auto, unfolding(crate::specs::Spelling::pieces, crate::specs::Parse::is_bare))]
fn pieces(out: &mut Printer, command: &Command) -> Result<(), AllocError>
    ensures { OnOk result (out.new ≡ put_all out.old (spell.pieces command.now)) }
{
    match command {
        Command::CreateTable { name, columns, key } => create_table(out, name, columns, key),
        Command::DropTable { name } => words_name(out, b"drop", b"table", name),
        Command::CreateIndex {
            name,
            table,
            columns,
            unique,
        } => create_index(out, name, table, columns, *unique),
        Command::DropIndex { name } => words_name(out, b"drop", b"index", name),
        Command::Insert { table, values } => insert(out, table, values),
        Command::Update { table, sets, cond } => update(out, table, sets, cond),
        Command::Delete { table, cond } => delete(out, table, cond),
        Command::Select {
            table,
            items,
            cond,
            order,
        } => select(out, table, items, cond, order),
        Command::Backup { set, kind } => backup(out, *set, *kind),
        Command::XlaCreate { bookmark } => word_name(out, b"ttXlaBookmarkCreate", bookmark),
        Command::XlaDelete { bookmark } => word_name(out, b"ttXlaBookmarkDelete", bookmark),
        Command::XlaSubscribe { table, bookmark } => {
            word_names(out, b"ttXlaSubscribe", table, bookmark)
        }
        Command::XlaUnsubscribe { table, bookmark } => {
            word_names(out, b"ttXlaUnsubscribe", table, bookmark)
        }
        Command::XlaOpen { bookmark } => word_name(out, b"ttXlaOpen", bookmark),
        Command::XlaNext { count } => word_number(out, b"ttXlaNextUpdate", *count),
        _ => out.word(bare_word(command)),
    }
}

/// Two words and a name.
fn words_name(out: &mut Printer, a: &[u8], b: &[u8], name: &Ident) -> Result<(), AllocError>
    ensures { OnOk result (out.new ≡ put_all out.old (spell.word a.now ∷ spell.word b.now ∷ spell.name name.now)) }
{
    out.word(a)?;
    out.word(b)?;
    out.word(name.as_bytes())
}

#[tactic(auto, unfolding(crate::specs::Spelling::pieces))]
fn backup(out: &mut Printer, set: u32, kind: BackupKind) -> Result<(), AllocError>
    ensures { OnOk result (out.new ≡ put_all out.old (spell.pieces (commands.Backup set kind))) }
{
    out.word(b"ttBackup")?;
    number(out, set)?;
    backup_kind(out, kind)
}

fn backup_kind(out: &mut Printer, kind: BackupKind) -> Result<(), AllocError>
    ensures { OnOk result (out.new ≡ put out.old (spell.backup_kind kind)) }
{
    match kind {
        BackupKind::Full => out.word(b"fileFull"),
        BackupKind::FullEnable => out.word(b"fileFullEnable"),
        BackupKind::Incremental => out.word(b"fileIncremental"),
        BackupKind::IncrOrFull => out.word(b"fileIncrOrFull"),
        BackupKind::Stop => out.word(b"incrementalStop"),
    }
}

/// A word and a number.
fn word_number(out: &mut Printer, word: &[u8], n: u32) -> Result<(), AllocError>
    ensures { OnOk result (out.new ≡ put_all out.old (spell.word word.now ∷ spell.number (decimal n) ∷ [])) }
{
    out.word(word)?;
    number(out, n)
}

/// A word and a name.
fn word_name(out: &mut Printer, word: &[u8], name: &Ident) -> Result<(), AllocError>
    ensures { OnOk result (out.new ≡ put_all out.old (spell.word word.now ∷ spell.name name.now)) }
{
    out.word(word)?;
    out.word(name.as_bytes())
}

/// A word and two names.
fn word_names(out: &mut Printer, word: &[u8], a: &Ident, b: &Ident) -> Result<(), AllocError>
    ensures { OnOk result (out.new ≡ put_all out.old (spell.word word.now ∷ spell.word a.now ∷ spell.name b.now)) }
{
    out.word(word)?;
    out.word(a.as_bytes())?;
    out.word(b.as_bytes())
}

/// The word that a command is alone.
#[tactic(auto, unfolding(crate::specs::Spelling::pieces, crate::specs::Parse::is_bare))]
fn bare_word(command: &Command) -> &'static [u8]
    requires { parsing.is_bare command.now ≡ true }
    ensures { spell.word result.now ∷ [] ≡ spell.pieces command.now }
{
    match command {
        Command::Commit => b"commit",
        Command::Rollback => b"rollback",
        Command::DurableCommit => b"ttDurableCommit",
        Command::Flush => b"flush",
        Command::Ckpt => b"ttCkpt",
        Command::CkptBlocking => b"ttCkptBlocking",
        Command::LogHolds => b"ttLogHolds",
        Command::Bookmark => b"ttBookmark",
        Command::XlaAcknowledge => b"ttXlaAcknowledge",
        Command::XlaClose => b"ttXlaClose",
        _ => unreachable!(),
    }
}
