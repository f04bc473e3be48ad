//! Texts of case files: escapes, numbers in hexadecimal, and bytes shown for a reader.
ghost use Rattle.std.specs.Prelude.{◌≡◌, ◌-◌, ◌<◌, ◌≤◌, Some, IfSome};

use crate::fault::Fault;
use std::alloc::{AllocError, Global};

// The number that a digit of a hexadecimal number stands for.
pub fn hex_digit(byte: u8) -> Option<u8>
    ensures decimal { 48 ≤ byte → byte ≤ 57 → result ≡ Some (byte - 48) }
    ensures lower { 97 ≤ byte → byte ≤ 102 → result ≡ Some (byte - 87) }
    ensures below { IfSome result (λ digit. digit < 16) }
{
    match byte {
        b'0'..=b'9' => Some(byte - b'0'),
        b'a'..=b'f' => Some(byte - b'a' + 10),
        b'A'..=b'F' => Some(byte - b'A' + 10),
        _ => None,
    }
}

fn hex_byte(high: u8, low: u8) -> Option<u8> {
    Some(16 * hex_digit(high)? + hex_digit(low)?)
}

/// The bytes that pairs of hexadecimal digits stand for.
pub fn read_hex(alloc: Global, text: &str) -> Result<Vec<u8>, Fault> {
    let mut bytes = Vec::new(alloc);
    for pair in text.as_bytes().chunks(2) {
        let byte = match pair {
            [high, low] => hex_byte(*high, *low),
            _ => None,
        };
        bytes.push(byte.ok_or(Fault::Hex)?)?;
    }
    Ok(bytes)
}

/// The bytes of a text with escapes: `\r`, `\n`, `\t`, `\\`, `\xHH`, and `\{COUNT BYTES}` for repeated bytes.
pub fn read_text(alloc: Global, text: &str) -> Result<Vec<u8>, Fault> {
    let mut bytes = Vec::new(alloc);
    let mut rest = text.as_bytes();
    for _ in 0..text.len() {
        rest = match rest {
            [] => return Ok(bytes),
            [b'\\', escape @ ..] => read_escape(escape, &mut bytes)?,
            [plain, others @ ..] => {
                bytes.push(*plain)?;
                others
            }
        };
    }
    Ok(bytes)
}

// Adds what an escape behind its backslash stands for; answers what follows it.
fn read_escape<'a>(escape: &'a [u8], bytes: &mut Vec<u8>) -> Result<&'a [u8], Fault> {
    let (byte, rest) = match escape {
        [b'{', repeat @ ..] => return read_repeat(repeat, bytes),
        [b'x', high, low, rest @ ..] => (hex_byte(*high, *low).ok_or(Fault::Hex)?, rest),
        [b'r', rest @ ..] => (b'\r', rest),
        [b'n', rest @ ..] => (b'\n', rest),
        [b't', rest @ ..] => (b'\t', rest),
        [b'\\', rest @ ..] => (b'\\', rest),
        _ => return Err(Fault::Escape),
    };
    bytes.push(byte)?;
    Ok(rest)
}

// Adds the bytes of `COUNT BYTES}` so many times; answers what follows.
fn read_repeat<'a>(repeat: &'a [u8], bytes: &mut Vec<u8>) -> Result<&'a [u8], Fault> {
    let end = repeat
        .iter()
        .position(|byte| *byte == b'}')
        .ok_or(Fault::Escape)?;
    let inner = str::from_utf8(&repeat[..end]).map_err(|_| Fault::Escape)?;
    let (count, piece) = inner.split_once(' ').ok_or(Fault::Escape)?;
    for _ in 0..read_number(count)? {
        bytes.extend_from_slice(piece.as_bytes())?;
    }
    Ok(&repeat[end + 1..])
}

/// A number in decimal.
pub fn read_number(text: &str) -> Result<u64, Fault> {
    text.parse().map_err(|_| Fault::Number)
}

/// The bytes of a text with escapes, once for each number from `FROM` to `TO` of `FROM TO TEXT`, with the number in the
/// place of each `%`.
pub fn read_numbered(alloc: Global, text: &str) -> Result<Vec<u8>, Fault> {
    let (from, rest) = text.split_once(' ').ok_or(Fault::Number)?;
    let (to, template) = rest.split_once(' ').ok_or(Fault::Number)?;
    let mut line = read_text(alloc, template)?;
    line.push(b'\n')?;
    let mut bytes = Vec::new(alloc);
    for number in read_number(from)?..=read_number(to)? {
        let digits = format!(in alloc; "{number}")?;
        put_numbered(&mut bytes, &line, digits.as_bytes())?;
    }
    Ok(bytes)
}

fn put_numbered(bytes: &mut Vec<u8>, template: &[u8], digits: &[u8]) -> Result<(), AllocError> {
    for byte in template {
        if *byte == b'%' {
            bytes.extend_from_slice(digits)?;
        } else {
            bytes.push(*byte)?;
        }
    }
    Ok(())
}

/// The bytes as a reader of messages sees them.
pub fn shown(alloc: Global, bytes: &[u8]) -> Result<String, AllocError> {
    format!(in alloc; "{}", bytes.escape_ascii())
}
