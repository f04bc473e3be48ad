//! Reads commands for backups and for readers of changes.

ghost use Rattle.std.specs.Prelude.{◌≡◌, codes};
ghost use Rattle.tt_parse.specs.Reading as read;
ghost use Rattle.tt_parse.specs.Reading.{Reads};
ghost use Rattle.tt_parse.specs.Cursor.{next_found};
ghost use Rattle.tt_parse.specs.Symbols as symbol;

use crate::command::{BackupKind, Command};
use crate::cursor::Cursor;
use crate::fault::ParseError;
use crate::name::name;
use crate::number::digits;
use std::alloc::Global;

#[tactic(auto, unfolding(crate::specs::Reading::utility))]
pub fn utility(alloc: Global, tokens: &mut Cursor<'_>) -> Result<Command, ParseError>
    ensures { Reads (read.utility tokens.old) result tokens.new }
{
    if tokens.sees_word(b"ttbackup") {
        backup(tokens)
    } else if tokens.sees_word(b"ttxlabookmarkcreate") {
        create_bookmark(alloc, tokens)
    } else if tokens.sees_word(b"ttxlabookmarkdelete") {
        delete_bookmark(alloc, tokens)
    } else if tokens.sees_word(b"ttxlasubscribe") {
        subscribe(alloc, tokens)
    } else if tokens.sees_word(b"ttxlaunsubscribe") {
        unsubscribe(alloc, tokens)
    } else if tokens.sees_word(b"ttxlaopen") {
        open_reader(alloc, tokens)
    } else {
        next_update(tokens)
    }
}

#[tactic(auto, unfolding(crate::specs::Reading::backup))]
fn backup(tokens: &mut Cursor<'_>) -> Result<Command, ParseError>
    ensures { Reads (read.backup tokens.old) result tokens.new }
{
    tokens.word(b"ttbackup")?;
    let set = digits(tokens, 1, 999)?;
    let kind = backup_kind(tokens)?;
    Ok(Command::Backup { set, kind })
}

#[tactic(auto, using(crate::proofs::Parts::backup_kind_no, crate::proofs::Parts::backup_kind_yes))]
fn backup_kind(tokens: &mut Cursor<'_>) -> Result<BackupKind, ParseError>
    ensures { Reads (read.backup_kind tokens.old) result tokens.new }
{
    let Some(kind) = backup_kind_of(tokens) else {
        return Err(ParseError::Off);
    };
    tokens.advance();
    Ok(kind)
}

#[tactic(auto, using(crate::proofs::Parts::next_backup_kind))]
fn backup_kind_of(tokens: &Cursor<'_>) -> Option<BackupKind>
    ensures { result ≡ next_found symbol.the_backup_kind tokens.now }
{
    if tokens.sees_word(b"filefull") {
        Some(BackupKind::Full)
    } else if tokens.sees_word(b"filefullenable") {
        Some(BackupKind::FullEnable)
    } else if tokens.sees_word(b"fileincremental") {
        Some(BackupKind::Incremental)
    } else if tokens.sees_word(b"fileincrorfull") {
        Some(BackupKind::IncrOrFull)
    } else if tokens.sees_word(b"incrementalstop") {
        Some(BackupKind::Stop)
    } else {
        None
    }
}

#[tactic(auto, unfolding(crate::specs::Reading::on_bookmark))]
fn create_bookmark(alloc: Global, tokens: &mut Cursor<'_>) -> Result<Command, ParseError>
    ensures { Reads (read.create_bookmark tokens.old) result tokens.new }
{
    tokens.word(b"ttxlabookmarkcreate")?;
    let bookmark = name(alloc, tokens)?;
    Ok(Command::XlaCreate { bookmark })
}

#[tactic(auto, unfolding(crate::specs::Reading::on_bookmark))]
fn delete_bookmark(alloc: Global, tokens: &mut Cursor<'_>) -> Result<Command, ParseError>
    ensures { Reads (read.delete_bookmark tokens.old) result tokens.new }
{
    tokens.word(b"ttxlabookmarkdelete")?;
    let bookmark = name(alloc, tokens)?;
    Ok(Command::XlaDelete { bookmark })
}

#[tactic(auto, unfolding(crate::specs::Reading::on_table))]
fn subscribe(alloc: Global, tokens: &mut Cursor<'_>) -> Result<Command, ParseError>
    ensures { Reads (read.on_table (codes "ttxlasubscribe") Command.XlaSubscribe tokens.old) result tokens.new }
{
    tokens.word(b"ttxlasubscribe")?;
    let table = name(alloc, tokens)?;
    let bookmark = name(alloc, tokens)?;
    Ok(Command::XlaSubscribe { table, bookmark })
}

#[tactic(auto, unfolding(crate::specs::Reading::on_table))]
fn unsubscribe(alloc: Global, tokens: &mut Cursor<'_>) -> Result<Command, ParseError>
    ensures { Reads (read.on_table (codes "ttxlaunsubscribe") Command.XlaUnsubscribe tokens.old) result tokens.new }
{
    tokens.word(b"ttxlaunsubscribe")?;
    let table = name(alloc, tokens)?;
    let bookmark = name(alloc, tokens)?;
    Ok(Command::XlaUnsubscribe { table, bookmark })
}

#[tactic(auto, unfolding(crate::specs::Reading::on_bookmark))]
fn open_reader(alloc: Global, tokens: &mut Cursor<'_>) -> Result<Command, ParseError>
    ensures { Reads (read.on_bookmark (codes "ttxlaopen") Command.XlaOpen tokens.old) result tokens.new }
{
    tokens.word(b"ttxlaopen")?;
    let bookmark = name(alloc, tokens)?;
    Ok(Command::XlaOpen { bookmark })
}

#[tactic(auto, unfolding(crate::specs::Reading::next_update))]
fn next_update(tokens: &mut Cursor<'_>) -> Result<Command, ParseError>
    ensures { Reads (read.next_update tokens.old) result tokens.new }
{
    tokens.word(b"ttxlanextupdate")?;
    let count = digits(tokens, 1, 1000)?;
    Ok(Command::XlaNext { count })
}
