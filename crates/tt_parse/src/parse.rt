//! Reads a line. A blank line or a comment is skipped; any other gives a session, and its command or the offset of the first
//! token with which no line of the grammar goes on.

ghost use Rattle.std.specs.Prelude.{◌≡◌, ◌≢◌, ◌≤◌, ◌↔◌, length, true, IfOk, ◌==◌, ◌&&◌, IsUtf8, Err};
ghost use Rattle.tt_parse.specs.Reader.{next_is};
ghost use Rattle.tt_parse.specs.Tokens.{tokens_of};
ghost use Rattle.tt_parse.specs.Cursor as cursor;
ghost use Rattle.tt_parse.specs.Cursor.{offset_in};
ghost use Rattle.tt_parse.specs.Symbols.{session_most};
ghost use Rattle.tt_parse.specs.Reading as read;
ghost use Rattle.tt_parse.specs.Parse as parsing;

use crate::command::{Command, LineKind};
use crate::cursor::Cursor;
use crate::fault::ParseError;
use crate::line::{body, session};
use crate::tokens;
use crate::tokens::Class;
use std::alloc::Global;
use std::str;
use tt_value::Refusal;

/// Reads a line.
///
/// The offset of a refusal has 32 bits; in a line longer than these count, a greater one is told as 4,294,967,295.
pub fn parse_line(alloc: Global, line: &[u8]) -> LineKind
    // Blank and comment lines are skipped, and no others.
    ensures skip { parsing.IsSkip result ↔ (parsing.is_skipped line.now ≡ true) }
    // Else a line that isn't UTF-8 is off at its first byte that isn't.
    ensures bytes { parsing.IfRun result (λ session what. ¬ IsUtf8 line.now → parsing.IsOffAtByte line.now session what) }
    // A command is one of the grammar. An offset is that of the first token with which no line goes on.
    ensures says { parsing.IfRun result (λ session what. IsUtf8 line.now → parsing.Says line.now session what) }
    // A command of the grammar is read, unless memory is wanting.
    ensures only { parsing.IfRun result (λ session what. IsUtf8 line.now → parsing.ReadsAll line.now session what) }
    // A line off the grammar is refused at its offset, unless memory is wanting.
    ensures off { parsing.IfRun result (λ session what. IsUtf8 line.now → parsing.RefusesAll line.now what) }
    // The session of a line that is UTF-8 is that of its prefix, also off the grammar, and else session 1.
    ensures session { parsing.IfRun result (λ session what. IsUtf8 line.now → parsing.IsSessionOf line.now session) }
    ensures within { parsing.IfRun result (λ session what. (1 ≤ session) × (session ≤ session_most)) }
    // Each command is one that a line gives.
    ensures given { parsing.IfRun result (λ session what. IfOk what parsing.IsGiven) }
    // A command of one word is read without memory.
    ensures without_memory { parsing.IfRun result (λ session what. IsUtf8 line.now → parsing.TakesNoMemory line.now what) }
{
    if is_skipped(line) {
        return LineKind::Skip;
    }
    match str::from_utf8(line) {
        Ok(_) => {
            let Parsed { session, what } = parse_text(alloc, line);
            LineKind::Run { session, what }
        }
        Err(error) => LineKind::Run {
            session: 1,
            what: Err(Refusal::Syntax {
                at: told_offset(error.valid_up_to() as u64),
            }),
        },
    }
}

#[tactic(auto, using(crate::proofs::Skipped::skipped_blank, crate::proofs::Skipped::skipped_one, crate::proofs::Skipped::skipped_both))]
fn is_skipped(line: &[u8]) -> bool
    ensures { result ≡ parsing.is_skipped line.now }
{
    let first = tokens::past(Class::Blank, line, 0);
    if first == line.len() {
        return true;
    }
    let second = tokens::past(Class::Blank, line, first + 1);
    if second == line.len() {
        return false;
    }
    are_dashes(line[first], line[second])
}

fn are_dashes(a: u8, b: u8) -> bool
    ensures { result ≡ (a == 45 && b == 45) }
{
    a == b'-' && b == b'-'
}

/// What a line says, in which session.
#[derive(Drop)]
struct Parsed {
    session: u8,
    what: Result<Command, Refusal>,
}

#[tactic(auto, using(crate::proofs::Whole::line_says, crate::proofs::Whole::line_only))]
fn parse_text(alloc: Global, line: &[u8]) -> Parsed
    requires utf8 { IsUtf8 line.now }
    ensures says { parsing.Says line.now result.session result.what }
    ensures only { parsing.ReadsAll line.now result.session result.what }
    ensures off { parsing.RefusesAll line.now result.what }
    ensures session { parsing.IsSessionOf line.now result.session }
    ensures within { (1 ≤ result.session) × (result.session ≤ session_most) }
    ensures given { IfOk result.what parsing.IsGiven }
    ensures without_memory { parsing.TakesNoMemory line.now result.what }
{
    parse_tokens(alloc, line)
}

#[tactic(auto, using(crate::proofs::Whole::line_session, crate::proofs::Whole::line_off))]
fn parse_tokens(alloc: Global, line: &[u8]) -> Parsed
    requires utf8 { IsUtf8 line.now }
    ensures what { parsing.Ends (parsing.commands (read.line (tokens_of line.now))) (length line.now) result.what }
    ensures session { result.session ≡ parsing.session_of (read.session (tokens_of line.now)) }
    ensures within { (1 ≤ result.session) × (result.session ≤ session_most) }
    ensures without_memory { parsing.TakesNoMemoryBehind line.now result.what }
{
    let mut tokens = Cursor::new(line);
    match session(&mut tokens) {
        Ok(session) => Parsed {
            session,
            what: rest(alloc, line, &mut tokens),
        },
        Err(error) => Parsed {
            session: 1,
            what: Err(refused(line, &tokens, error)),
        },
    }
}

/// The rest of a line behind its session.
fn rest(alloc: Global, line: &[u8], tokens: &mut Cursor<'_>) -> Result<Command, Refusal>
    ensures read { parsing.Ends (read.body tokens.old) (length line.now) result }
    ensures without_memory { next_is read.is_bare tokens.old ≡ true → result ≢ Err Refusal.NoMemory }
{
    match body(alloc, tokens) {
        Ok(command) => {
            if tokens.is_empty() {
                Ok(command)
            } else {
                Err(Refusal::Syntax {
                    at: offset(line, tokens),
                })
            }
        }
        Err(error) => Err(refused(line, tokens, error)),
    }
}

fn refused(line: &[u8], tokens: &Cursor<'_>, error: ParseError) -> Refusal
    ensures { parsing.RefusedAt error (offset_in (length line.now) tokens.now) result }
{
    match error {
        ParseError::NoMemory => Refusal::NoMemory,
        ParseError::Off => Refusal::Syntax {
            at: offset(line, tokens),
        },
    }
}

/// The offset of the next token of a line, or the line's length.
fn offset(line: &[u8], tokens: &Cursor<'_>) -> u32
    ensures { result ≡ offset_in (length line.now) tokens.now }
{
    if tokens.is_empty() {
        told_offset(line.len() as u64)
    } else {
        told_offset(tokens.offset())
    }
}

/// An offset in 32 bits: the greatest such number where it is past that.
fn told_offset(at: u64) -> u32
    ensures { result ≡ cursor.told_offset at }
{
    at.min(u64::from(u32::MAX)) as u32
}
