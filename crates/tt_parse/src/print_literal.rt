//! Writes literals.

ghost use Rattle.std.specs.Prelude.{◌≡◌, OnOk, IfOk, string_bytes};
ghost use Rattle.std.specs.Fmt.{decimal};
ghost use Rattle.tt_parse.specs.Printer.{put, put_all};
ghost use Rattle.tt_parse.specs.Spelling as spell;

use crate::kind::Kind;
use crate::print_list::PrintItem;
use crate::printer::Printer;
use std::alloc::{AllocError, Global};
use tt_value::Value;

pub fn literal(out: &mut Printer, value: &Value) -> Result<(), AllocError>
    ensures { OnOk result (out.new ≡ put_all out.old (spell.literal value.now)) }
{
    let alloc = out.alloc();
    match value {
        Value::Null => out.word(b"null"),
        Value::Int(n) => {
            let digits = digits(alloc, n.unsigned_abs())?;
            signed(out, *n, digits.as_bytes())
        }
        Value::Number { scale, units } => {
            let digits = dotted(alloc, *scale, units.unsigned_abs())?;
            signed(out, *units, digits.as_slice())
        }
        Value::Text(text) => {
            let quoted = quoted(alloc, text.as_bytes())?;
            out.token(Kind::Text, quoted.as_slice())
        }
    }
}

pub fn number(out: &mut Printer, n: u32) -> Result<(), AllocError>
    ensures { OnOk result (out.new ≡ put out.old (spell.number (decimal n))) }
{
    let digits = digits(out.alloc(), u64::from(n))?;
    out.number(digits.as_bytes())
}

/// The digits of a number.
pub fn digits(alloc: Global, n: u64) -> Result<String, AllocError>
    ensures { IfOk result (λ s. string_bytes s ≡ decimal n) }
{
    format!(in alloc; "{n}")
}

impl PrintItem for Value {
    ghost pieces = { spell.literal };

    fn print_item(&self, out: &mut Printer) -> Result<(), AllocError> {
        literal(out, self)
    }
}

/// The digits of a number, behind a `-` if it is below zero.
fn signed(out: &mut Printer, n: i64, digits: &[u8]) -> Result<(), AllocError>
    ensures { OnOk result (out.new ≡ put_all out.old (spell.signed n digits.now)) }
{
    if n < 0 {
        out.sign()?;
    }
    out.number(digits)
}

/// The digits of a number with a dot before the last so many.
#[tactic(auto, unfolding(crate::specs::Spelling::dotted))]
fn dotted(alloc: Global, scale: u8, n: u64) -> Result<Vec<u8>, AllocError>
    ensures { IfOk result (λ d. d.items ≡ spell.dotted scale n) }
{
    if scale == 0 {
        let mut bytes = Vec::from_slice(alloc, digits(alloc, n)?.as_bytes())?;
        bytes.push(b'.')?;
        Ok(bytes)
    } else {
        let mut bytes = dotted(alloc, scale - 1, n / 10)?;
        bytes.push(b'0' + (n % 10) as u8)?;
        Ok(bytes)
    }
}

/// A text between quotes, with each quote twice.
#[tactic(auto, unfolding(crate::specs::Spelling::doubled))]
fn quoted(alloc: Global, mut text: &[u8]) -> Result<Vec<u8>, AllocError>
    ensures { IfOk result (λ q. q.items ≡ (spell.text text.entry.now).bytes) }
{
    let mut bytes = Vec::new(alloc);
    bytes.push(b'\'')?;
    'quotes: while let [b, rest @ ..] = text {
        if *b == b'\'' {
            bytes.push(b'\'')?;
        }
        bytes.push(*b)?;
        text = rest;
    }
    bytes.push(b'\'')?;
    Ok(bytes)
}
