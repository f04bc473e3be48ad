//! Reads numbers. One that is past its range, however long, is off the grammar.

ghost use Rattle.std.specs.Prelude.{◌≡◌, ◌≤◌, ◌<◌, ◌+◌, ◌^◌, codes, length, min, true, IfOk, IfErr};
ghost use Rattle.std.specs.Str.{bytes_eq};
ghost use Rattle.tt_parse.specs.Symbols as symbol;
ghost use Rattle.tt_parse.specs.Reading as read;
ghost use Rattle.tt_parse.specs.Reading.{Reads};

use crate::cursor::Cursor;
use crate::fault::ParseError;
use crate::kind::Kind;
use crate::tokens;
use crate::tokens::{Class, is_in};
use tt_value::Value;

#[tactic(auto, using(crate::proofs::Parts::number_other_kind, crate::proofs::Parts::number_no, crate::proofs::Parts::number_yes))]
pub fn number(tokens: &mut Cursor<'_>, minus: bool) -> Result<Value, ParseError>
    ensures { Reads (read.number minus tokens.old) result tokens.new }
{
    if !tokens.is(Kind::Number) {
        return Err(ParseError::Off);
    }
    let bytes = tokens.bytes();
    if !fits(minus, bytes) {
        return Err(ParseError::Off);
    }
    let value = number_value(minus, bytes);
    tokens.advance();
    Ok(value)
}

#[tactic(auto, using(crate::proofs::Parts::digits_other_kind, crate::proofs::Parts::digits_no, crate::proofs::Parts::digits_yes, crate::proofs::Parts::between_low, crate::proofs::Parts::between_units))]
pub fn digits(tokens: &mut Cursor<'_>, low: u32, high: u32) -> Result<u32, ParseError>
    requires { high ≤ 1000 }
    ensures read { Reads (read.digits low high tokens.old) result tokens.new }
    ensures within { IfOk result (λ n. (low ≤ n) × (n ≤ high)) }
    ensures without_memory { IfErr result (λ e. e ≡ ParseError.Off) }
{
    if !tokens.is(Kind::Number) {
        return Err(ParseError::Off);
    }
    let bytes = tokens.bytes();
    if !is_between(low, high, bytes) {
        return Err(ParseError::Off);
    }
    let units = units(bytes) as u32;
    tokens.advance();
    Ok(units)
}

/// Goes past the digits `18`, spelled so.
#[tactic(auto, using(crate::proofs::Parts::eighteen_other_kind, crate::proofs::Parts::eighteen_no, crate::proofs::Parts::eighteen_yes))]
pub fn eighteen(tokens: &mut Cursor<'_>) -> Result<(), ParseError>
    ensures { Reads (read.eighteen tokens.old) result tokens.new }
{
    if !tokens.is(Kind::Number) {
        return Err(ParseError::Off);
    }
    if !is_eighteen(tokens.bytes()) {
        return Err(ParseError::Off);
    }
    tokens.advance();
    Ok(())
}

#[tactic(auto, unfolding(crate::specs::Symbols::fits), using(crate::proofs::Parts::fits_of))]
fn fits(minus: bool, bytes: &[u8]) -> bool
    ensures { result ≡ symbol.fits minus bytes.now }
{
    units(bytes) <= most(minus) && decimals(bytes) <= 18
}

#[tactic(auto, unfolding(crate::specs::Symbols::number_value), using(crate::proofs::Parts::fits_units, crate::proofs::Parts::fits_decimals))]
fn number_value(minus: bool, bytes: &[u8]) -> Value
    requires { symbol.fits minus bytes.now ≡ true }
    ensures { result ≡ symbol.number_value minus bytes.now }
{
    let units = signed(minus, units(bytes));
    if whole_len(bytes) == bytes.len() {
        Value::Int(units)
    } else {
        Value::Number {
            scale: decimals(bytes) as u8,
            units,
        }
    }
}

#[tactic(auto, unfolding(crate::specs::Symbols::signed))]
fn signed(minus: bool, units: u64) -> i64
    requires { units ≤ symbol.most minus }
    ensures { result ≡ symbol.signed minus units }
{
    if !minus {
        units as i64
    } else if units == 0 {
        0
    } else {
        -((units - 1) as i64) - 1
    }
}

fn most(minus: bool) -> u64
    ensures { result ≡ symbol.most minus }
{
    if minus {
        9223372036854775808
    } else {
        9223372036854775807
    }
}

const LIMIT: u64 = 9223372036854775809;

/// The number that the digits spell, but no more than `LIMIT`.
#[tactic(auto, unfolding(crate::specs::Symbols::units))]
fn units(bytes: &[u8]) -> u64
    ensures { result ≡ min (symbol.units bytes.now) (2 ^ 63 + 1) }
{
    let mut n: u64 = 0;
    for b in bytes {
        if is_in(Class::Digit, *b) {
            n = n
                .saturating_mul(10)
                .saturating_add(u64::from(*b - b'0'))
                .min(LIMIT);
        }
    }
    n
}

fn decimals(bytes: &[u8]) -> usize
    ensures { result ≡ symbol.decimals bytes.now }
{
    (bytes.len() - whole_len(bytes)).saturating_sub(1)
}

fn whole_len(bytes: &[u8]) -> usize
    ensures value { result ≡ symbol.whole_len bytes.now }
    ensures within { result ≤ length bytes.now }
{
    tokens::past(Class::Digit, bytes, 0)
}

#[tactic(auto, unfolding(crate::specs::Symbols::is_between), using(crate::proofs::Parts::same_le))]
fn is_between(low: u32, high: u32, bytes: &[u8]) -> bool
    requires { high ≤ 1000 }
    ensures { result ≡ symbol.is_between low high bytes.now }
{
    let units = units(bytes);
    whole_len(bytes) == bytes.len() && u64::from(low) <= units && units <= u64::from(high)
}

fn is_eighteen(bytes: &[u8]) -> bool
    ensures { result ≡ bytes_eq bytes.now (codes "18") }
{
    bytes == b"18".as_slice()
}
