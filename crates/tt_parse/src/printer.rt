//! Writes tokens with the blanks between them: one between two, but none before `,` or `)` and none behind what joins.

ghost use Rattle.std.specs.Prelude.{◌≡◌, ◌++◌, ◌∷◌, [], OnOk, if◌then◌else◌};
ghost use Rattle.tt_parse.specs.Printer.{put, empty};
ghost use Rattle.tt_parse.specs.Spelling as spell;

use crate::kind::Kind;
use std::alloc::{AllocError, Global};
use std::marker::Model;

/// A row of tokens, with one blank between two but where none belongs.
#[derive(Drop)]
pub struct Printer {
    bytes: Vec<u8>,
    joins: bool,
}

impl Model for Printer {
    ghost use Rattle.tt_parse.specs.Printer.{Written};

    ghost Value = { Written };

    ghost view = { λ p. record { bytes = p.bytes.items; joins = p.joins } };
}

impl Printer {
    pub fn new(alloc: Global) -> Printer
        ensures { result ≡ empty }
    {
        Printer {
            bytes: Vec::new(alloc),
            joins: true,
        }
    }

    pub fn as_slice(&self) -> &[u8]
        ensures { result.now ≡ self.now.bytes }
    {
        self.bytes.as_slice()
    }

    pub fn alloc(&self) -> Global {
        *self.bytes.allocator()
    }

    /// A blank, where `is_spaced`.
    fn space(&mut self, is_spaced: bool) -> Result<(), AllocError>
        ensures bytes { OnOk result (self.new.bytes ≡ (if is_spaced then self.old.bytes ++ 32 ∷ [] else self.old.bytes)) }
        ensures joins { self.new.joins ≡ self.old.joins }
    {
        if is_spaced {
            self.bytes.push(b' ')?;
        }
        Ok(())
    }

    /// A token, with a blank before it where one belongs.
    #[tactic(auto, unfolding(crate::specs::Printer::put), using(crate::proofs::Printing::spaced_bytes))]
    pub fn token(&mut self, kind: Kind, bytes: &[u8]) -> Result<(), AllocError>
        ensures { OnOk result (self.new ≡ put self.old (spell.mark kind bytes.now)) }
    {
        let is_spaced = !(self.joins || is_unspaced(kind));
        self.space(is_spaced)?;
        self.bytes.extend_from_slice(bytes)?;
        self.joins = false;
        Ok(())
    }

    pub fn word(&mut self, word: &[u8]) -> Result<(), AllocError>
        ensures { OnOk result (self.new ≡ put self.old (spell.word word.now)) }
    {
        self.token(Kind::Word, word)
    }

    pub fn number(&mut self, digits: &[u8]) -> Result<(), AllocError>
        ensures { OnOk result (self.new ≡ put self.old (spell.number digits.now)) }
    {
        self.token(Kind::Number, digits)
    }

    pub fn comma(&mut self) -> Result<(), AllocError>
        ensures { OnOk result (self.new ≡ put self.old spell.comma) }
    {
        self.token(Kind::Comma, b",")
    }

    pub fn close(&mut self) -> Result<(), AllocError>
        ensures { OnOk result (self.new ≡ put self.old spell.close_mark) }
    {
        self.token(Kind::Close, b")")
    }

    #[tactic(auto, unfolding(crate::specs::Printer::put))]
    pub fn open(&mut self) -> Result<(), AllocError>
        ensures { OnOk result (self.new ≡ put self.old spell.open_mark) }
    {
        self.token(Kind::Open, b"(")?;
        self.joins = true;
        Ok(())
    }

    /// The `-` of a literal.
    #[tactic(auto, unfolding(crate::specs::Printer::put))]
    pub fn sign(&mut self) -> Result<(), AllocError>
        ensures { OnOk result (self.new ≡ put self.old spell.sign) }
    {
        self.token(Kind::Minus, b"-")?;
        self.joins = true;
        Ok(())
    }
}

/// Where a condition stands: where `or` may join it with others, where only `and` may, or where neither may.
#[derive(Clone, Copy, Debug, PartialEq, Eq)]
pub enum Context {
    Or,
    And,
    Part,
}

/// Does no blank stand before a token of this kind?
fn is_unspaced(kind: Kind) -> bool
    ensures { result ≡ spell.is_unspaced kind }
{
    match kind {
        Kind::Comma | Kind::Close => true,
        _ => false,
    }
}
