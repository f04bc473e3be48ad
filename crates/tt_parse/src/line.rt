//! Reads a command, and the session before it.

ghost use Rattle.std.specs.Prelude.{◌≡◌, ◌≤◌, true, IfErr, IfOk};
ghost use Rattle.tt_parse.specs.Reader.{next_is};
ghost use Rattle.tt_parse.specs.Reading as read;
ghost use Rattle.tt_parse.specs.Reading.{Reads};
ghost use Rattle.tt_parse.specs.Cursor.{next_found};
ghost use Rattle.tt_parse.specs.Symbols as symbol;

use crate::change::{delete, insert, update};
use crate::command::Command;
use crate::cursor::Cursor;
use crate::definition::{create, drop_command};
use crate::fault::ParseError;
use crate::kind::Kind;
use crate::number::digits;
use crate::select::select;
use crate::utility::utility;
use std::alloc::Global;

/// The session of the line, which is 1 where none is given.
#[tactic(auto, unfolding(crate::specs::Reading::session))]
pub fn session(tokens: &mut Cursor<'_>) -> Result<u8, ParseError>
    ensures read { Reads (read.session tokens.old) result tokens.new }
    ensures within { IfOk result (λ n. (1 ≤ n) × (n ≤ symbol.session_most)) }
    ensures without_memory { IfErr result (λ e. e ≡ ParseError.Off) }
{
    if tokens.sees(Kind::At) {
        prefix(tokens)
    } else {
        Ok(1)
    }
}

/// A command and the semicolon behind it, if there is one.
#[tactic(auto, unfolding(crate::specs::Reading::body))]
pub fn body(alloc: Global, tokens: &mut Cursor<'_>) -> Result<Command, ParseError>
    ensures read { Reads (read.body tokens.old) result tokens.new }
    ensures without_memory { next_is read.is_bare tokens.old ≡ true → IfErr result (λ e. e ≡ ParseError.Off) }
{
    let command = command(alloc, tokens)?;
    semicolon(tokens)?;
    Ok(command)
}

/// Sessions are numbered from 1 to this.
const SESSION_MAX: u32 = 64;

#[tactic(auto, unfolding(crate::specs::Reading::prefix))]
fn prefix(tokens: &mut Cursor<'_>) -> Result<u8, ParseError>
    ensures read { Reads (read.prefix tokens.old) result tokens.new }
    ensures within { IfOk result (λ n. (1 ≤ n) × (n ≤ symbol.session_most)) }
    ensures without_memory { IfErr result (λ e. e ≡ ParseError.Off) }
{
    tokens.mark(Kind::At)?;
    let session = digits(tokens, 1, SESSION_MAX)?;
    Ok(session as u8)
}

/// A command. One that is one word is read without memory.
#[tactic(auto, using(crate::proofs::Parts::command_no, crate::proofs::Parts::command_yes, crate::proofs::Parts::not_bare))]
fn command(alloc: Global, tokens: &mut Cursor<'_>) -> Result<Command, ParseError>
    ensures read { Reads (read.command tokens.old) result tokens.new }
    ensures without_memory { next_is read.is_bare tokens.old ≡ true → IfErr result (λ e. e ≡ ParseError.Off) }
{
    match bare_of(tokens) {
        Some(command) => {
            tokens.advance();
            Ok(command)
        }
        None => statement(alloc, tokens),
    }
}

/// The command that the next token alone is.
#[tactic(auto, using(crate::proofs::Parts::next_bare))]
fn bare_of(tokens: &Cursor<'_>) -> Option<Command>
    ensures { result ≡ next_found symbol.the_bare tokens.now }
{
    if tokens.sees_word(b"commit") {
        Some(Command::Commit)
    } else if tokens.sees_word(b"rollback") {
        Some(Command::Rollback)
    } else if tokens.sees_word(b"flush") {
        Some(Command::Flush)
    } else if tokens.sees_word(b"ttdurablecommit") {
        Some(Command::DurableCommit)
    } else if tokens.sees_word(b"ttckpt") {
        Some(Command::Ckpt)
    } else if tokens.sees_word(b"ttckptblocking") {
        Some(Command::CkptBlocking)
    } else if tokens.sees_word(b"ttlogholds") {
        Some(Command::LogHolds)
    } else if tokens.sees_word(b"ttbookmark") {
        Some(Command::Bookmark)
    } else if tokens.sees_word(b"ttxlaacknowledge") {
        Some(Command::XlaAcknowledge)
    } else if tokens.sees_word(b"ttxlaclose") {
        Some(Command::XlaClose)
    } else {
        None
    }
}

/// A command of more than one word.
#[tactic(auto, unfolding(crate::specs::Reading::statement))]
fn statement(alloc: Global, tokens: &mut Cursor<'_>) -> Result<Command, ParseError>
    ensures { Reads (read.statement tokens.old) result tokens.new }
{
    if tokens.sees_word(b"create") {
        create(alloc, tokens)
    } else if tokens.sees_word(b"drop") {
        drop_command(alloc, tokens)
    } else if tokens.sees_word(b"insert") {
        insert(alloc, tokens)
    } else if tokens.sees_word(b"update") {
        update(alloc, tokens)
    } else if tokens.sees_word(b"delete") {
        delete(alloc, tokens)
    } else if tokens.sees_word(b"select") {
        select(alloc, tokens)
    } else {
        utility(alloc, tokens)
    }
}

#[tactic(auto, unfolding(crate::specs::Reading::semicolon))]
fn semicolon(tokens: &mut Cursor<'_>) -> Result<(), ParseError>
    ensures read { Reads (read.semicolon tokens.old) result tokens.new }
    ensures without_memory { IfErr result (λ e. e ≡ ParseError.Off) }
{
    if tokens.sees(Kind::Semicolon) {
        tokens.mark(Kind::Semicolon)
    } else {
        Ok(())
    }
}
