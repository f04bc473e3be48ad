//! A cursor over the tokens of a line, which cuts each as it is reached. Contracts see it as the tokens that are still to be
//! read.

ghost use Rattle.std.specs.Prelude.{◌≡◌, ◌≤◌, ◌+◌, length};
ghost use Rattle.tt_parse.specs.Tokens as spec;
ghost use Rattle.tt_parse.specs.Cursor as view;
ghost use Rattle.std.specs.Prelude.{◌≢◌, IfErr, IsUtf8, map, false, IsTrue, ◌↔◌, []};
ghost use Rattle.std.specs.Char.{to_ascii_lowercase};
ghost use Rattle.tt_parse.specs.Reader.{next_is};
ghost use Rattle.tt_parse.specs.Symbols as symbol;
ghost use Rattle.tt_parse.specs.Reading as read;
ghost use Rattle.tt_parse.specs.Reading.{Reads};

use crate::fault::ParseError;
use crate::kind::Kind;
use crate::tokens;
use crate::tokens::Class;
use std::marker::Model;

/// The tokens of a line that are still to be read.
#[derive(Drop)]
pub struct Cursor<'a> {
    line: &'a [u8],
    next: Lexeme,
}

impl<'a> Model for Cursor<'a> {
    ghost use Rattle.tt_parse.specs.Tokens.{Token};
    ghost use Rattle.std.specs.Prelude.{List};
    ghost use Rattle.tt_parse.specs.View.{left_of, IsReady};

    ghost Value = { List Token };

    ghost view = { left_of };

    ghost invariant = { IsReady };
}

impl<'a> Cursor<'a> {
    pub fn new(line: &'a [u8]) -> Cursor<'a>
        requires utf8 { IsUtf8 line.now }
        ensures { result ≡ spec.tokens_of line.now }
    {
        Cursor {
            line,
            next: lexeme_from(line, 0),
        }
    }

    /// Goes past the next token, if there is one.
    pub fn advance(&mut self)
        ensures { self.new ≡ view.past_next self.old }
    {
        self.next = lexeme_from(self.line, self.next.end);
    }

    pub fn kind(&self) -> Kind
        ensures { result ≡ view.next_kind self.now }
    {
        self.next.kind
    }

    /// The bytes of the next token.
    pub fn bytes(&self) -> &'a [u8]
        ensures value { result.now ≡ view.next_bytes self.now }
        ensures text { view.next_kind self.now ≡ Kind.Text → IsUtf8 (symbol.undoubled false (symbol.inside result.now)) }
    {
        let end = self.next.end.min(self.line.len());
        &self.line[self.next.at..end]
    }

    /// What stands between the quotes of the next token, a text. With one quote for each two it is UTF-8.
    pub fn text(&self) -> &'a [u8]
        requires { view.next_kind self.now ≡ Kind.Text }
        ensures value { result.now ≡ symbol.inside (view.next_bytes self.now) }
        ensures utf8 { IsUtf8 (symbol.undoubled false result.now) }
    {
        inside(self.bytes())
    }

    /// Are there no more tokens?
    pub fn is_empty(&self) -> bool
        ensures { IsTrue result ↔ (self.now ≡ []) }
    {
        self.next.kind == Kind::End
    }

    /// The offset of the next token in the line.
    pub fn offset(&self) -> u64
        ensures { view.IsOffset self.now result }
    {
        self.next.at as u64
    }

    /// Is the next token, or the line's end, of this kind?
    #[tactic(auto, unfolding(crate::specs::Tokens::same_kind))]
    pub fn is(&self, kind: Kind) -> bool
        ensures { result ≡ spec.same_kind (view.next_kind self.now) kind }
    {
        self.kind() == kind
    }

    /// Is the next token of this kind?
    #[tactic(auto, using(crate::proofs::Next::sees_is))]
    pub fn sees(&self, kind: Kind) -> bool
        requires { kind ≢ Kind.End }
        ensures { result ≡ next_is (symbol.is_mark kind) self.now }
    {
        self.is(kind)
    }

    /// Is the next token this word, in any case?
    #[tactic(auto, using(crate::proofs::Next::sees_word_is, crate::proofs::Next::sees_other_is))]
    pub fn sees_word(&self, word: &[u8]) -> bool
        requires { map to_ascii_lowercase word.now ≡ word.now }
        ensures { result ≡ next_is (symbol.is_word word.now) self.now }
    {
        self.is(Kind::Word) && self.bytes().eq_ignore_ascii_case(word)
    }

    /// Goes past a token of this kind.
    #[tactic(auto, using(crate::proofs::Next::mark_no, crate::proofs::Next::mark_yes))]
    pub fn mark(&mut self, kind: Kind) -> Result<(), ParseError>
        requires { kind ≢ Kind.End }
        ensures read { Reads (read.mark kind self.old) result self.new }
        ensures without_memory { IfErr result (λ e. e ≡ ParseError.Off) }
    {
        if !self.sees(kind) {
            return Err(ParseError::Off);
        }
        self.advance();
        Ok(())
    }

    /// Goes past this word, in any case.
    #[tactic(auto, using(crate::proofs::Next::word_no, crate::proofs::Next::word_yes))]
    pub fn word(&mut self, word: &[u8]) -> Result<(), ParseError>
        requires { map to_ascii_lowercase word.now ≡ word.now }
        ensures { Reads (read.word word.now self.old) result self.new }
    {
        if !self.sees_word(word) {
            return Err(ParseError::Off);
        }
        self.advance();
        Ok(())
    }
    /// Goes past this word, if it is next.
    #[tactic(auto, using(crate::proofs::Next::optional_no, crate::proofs::Next::optional_yes))]
    pub fn takes_word(&mut self, word: &[u8]) -> bool
        requires { map to_ascii_lowercase word.now ≡ word.now }
        ensures { read.optional_word word.now self.old ≡ Ok (result, self.new) }
    {
        if !self.sees_word(word) {
            return false;
        }
        self.advance();
        true
    }
}

/// Where a token stands: from `at` up to `end`, which is past the line for a text that isn't closed.
#[derive(Clone, Copy)]
pub struct Lexeme {
    pub at: usize,
    pub kind: Kind,
    pub end: usize,
}

fn lexeme_from(line: &[u8], from: usize) -> Lexeme
    requires within { from ≤ length line.now + 1 }
    ensures shown { view.shown line.now result ≡ view.behind line.now from }
    ensures order { (result.at ≤ result.end) × (result.at ≤ length line.now) × (result.end ≤ length line.now + 1) }
    ensures text { result.kind ≡ Kind.Text → view.IsText line.now result }
    ensures end { result.kind ≡ Kind.End → (result.at ≡ length line.now) × (result.end ≡ length line.now) }
{
    let len = line.len();
    if from > len {
        return Lexeme {
            at: len,
            kind: Kind::Unclosed,
            end: len,
        };
    }
    let at = tokens::past(Class::Blank, line, from);
    if at == len {
        return Lexeme {
            at,
            kind: Kind::End,
            end: at,
        };
    }
    let (kind, token) = tokens::first(&line[at..]);
    Lexeme {
        at,
        kind,
        end: at + token,
    }
}

/// What stands between the quotes of a text.
#[tactic(auto, unfolding(crate::specs::Symbols::inside))]
fn inside(bytes: &[u8]) -> &[u8]
    ensures { result.now ≡ symbol.inside bytes.now }
{
    if bytes.is_empty() {
        return &[];
    }
    let behind = &bytes[1..];
    &behind[..tokens::text_rest(behind) - 1]
}
