//! The stored form of a row: one byte with the number of its values, then the values, each a tag and its bytes. A row is
//! tested before it is written; bytes are read as a row exactly where they are the stored form of one that can be stored.

ghost use Rattle.std.specs.Prelude.{◌≡◌, ◌≤◌, ◌↔◌, IsTrue, ◌+◌, ◌++◌, ℕ, length, take, drop, IfOk, IfSome, OnOk, OnErr, Some, None, option_map, if◌then◌else◌};
ghost use Rattle.std.specs.Str.{is_utf8};
ghost use Rattle.std.specs.List.{All};
ghost use Rattle.tt_value.specs.Limits.{lengths_end, values_most};
ghost use Rattle.tt_value.specs.ReadingRows.{int_at, number_at, text_at, value_at, values_in, row_in};
ghost use Rattle.tt_value.specs.Stored.{HasLength, IsStorable, IsStorableValue, IsStored, value_bytes, values_bytes, row_bytes};

use crate::big_endian::{read_i64, read_u16, write_i64, write_u16};
use crate::list::List;
use crate::text::Text;
use crate::value::{Row, Value};
use crate::{ROW_MAX, SCALE_MAX, TEXT_MAX, UNITS_END, VALUES_MAX};
use std::alloc::{AllocError, Global};

/// Whether the row can be stored: it has 1 to 16 values, each in its range, and is not too long.
pub fn is_storable(row: &Row) -> bool
    ensures { IsTrue result ↔ IsStorable row.now }
{
    let count = row.values.len();
    if count < 1 || count > VALUES_MAX {
        return false;
    }
    if !are_storable(row.values.as_slice()) {
        return false;
    }
    stored_length(row) <= ROW_MAX as u64
}

/// How many bytes the stored form of a row has, also of one that is too long to be stored.
pub fn stored_length(row: &Row) -> u64
    requires few { length row.now.values ≤ values_most }
    requires texts { All HasLength row.now.values }
    ensures { result ≡ length (row_bytes row.now) }
{
    let mut total: u64 = 1;
    'values: for value in row.values.as_slice() {
        total += value_length(value) as u64;
    }
    total
}

/// Puts the stored form of a row behind the bytes. Where memory is wanting they stay as they were.
pub fn write_row(row: &Row, out: &mut Vec<u8>) -> Result<(), AllocError>
    requires { IsStorable row.now }
    ensures ok { OnOk result (out.new.items ≡ out.old.items ++ row_bytes row.now) }
    ensures err { OnErr result (out.new.items ≡ out.old.items) }
{
    let mut bytes = [0; ROW_MAX];
    let length = write_row_into(row, &mut bytes);
    out.extend_from_slice(&bytes[..length])
}

/// Writes the stored form of a row at the front, and answers its length. It takes no memory.
pub fn write_row_into(row: &Row, out: &mut [u8]) -> usize
    requires row { IsStorable row.now }
    requires room { length (row_bytes row.now) ≤ length out.old }
    ensures length { result ≡ length (row_bytes row.now) }
    ensures bytes { out.new ≡ row_bytes row.now ++ drop (length (row_bytes row.now)) out.old }
{
    let values = row.values.as_slice();
    out[0] = values.len() as u8;
    1 + write_values(values, &mut out[1..])
}

/// The row that the bytes are the stored form of; `None` exactly where they are no row's.
pub fn read_row(alloc: Global, bytes: &[u8]) -> Result<Option<Row>, AllocError>
    // What is read has these bytes.
    ensures read { IfOk result (λ o. IfSome o (λ r. IsStored bytes.now r)) }
    // A row with these bytes is read.
    ensures only { IfOk result (λ o. (r : Row) → IsStored bytes.now r → o ≡ Some r) }
    // Both as one function of the bytes.
    ensures value { IfOk result (λ o. o ≡ row_in bytes.now) }
{
    read_whole(alloc, bytes)
}

fn is_storable_value(value: &Value) -> bool
    ensures { IsTrue result ↔ IsStorableValue value.now }
{
    match value {
        Value::Null => true,
        Value::Int(n) => {
            let _n = *n;
            true
        }
        Value::Number { scale, units } => *scale <= SCALE_MAX && units.unsigned_abs() < UNITS_END,
        Value::Text(text) => text.as_bytes().len() <= TEXT_MAX,
    }
}

fn are_storable(values: &[Value]) -> bool
    ensures { IsTrue result ↔ All IsStorableValue values.now }
{
    'values: for value in values {
        if !is_storable_value(value) {
            return false;
        }
    }
    true
}

#[tactic(auto, unfolding(crate::specs::BigEndian::big_endian))]
fn value_length(value: &Value) -> usize
    requires { HasLength value.now }
    ensures length { result ≡ length (value_bytes value.now) }
    ensures short { result ≤ lengths_end + 2 }
{
    match value {
        Value::Null => 1,
        Value::Int(_) => 9,
        Value::Number { .. } => 10,
        Value::Text(text) => 3 + text.as_bytes().len(),
    }
}

// Writes a value at the front, and answers its length.
#[tactic(auto, unfolding(crate::specs::BigEndian::big_endian))]
fn write_value(value: &Value, out: &mut [u8]) -> usize
    requires text { HasLength value.now }
    requires room { length (value_bytes value.now) ≤ length out.old }
    ensures length { result ≡ length (value_bytes value.now) }
    ensures bytes { out.new ≡ value_bytes value.now ++ drop (length (value_bytes value.now)) out.old }
{
    match value {
        Value::Null => {
            out[0] = 0;
            1
        }
        Value::Int(n) => {
            out[0] = 1;
            write_i64(&mut out[1..], *n);
            9
        }
        Value::Number { scale, units } => {
            out[0] = 2;
            out[1] = *scale;
            write_i64(&mut out[2..], *units);
            10
        }
        Value::Text(text) => {
            let bytes = text.as_bytes();
            let end = 3 + bytes.len();
            out[0] = 3;
            write_u16(&mut out[1..], bytes.len() as u16);
            out[3..end].copy_from_slice(bytes);
            end
        }
    }
}

// Writes a value over the bytes from an offset on, and answers its length.
fn write_value_at(value: &Value, out: &mut [u8], at: usize) -> usize
    requires text { HasLength value.now }
    requires room { at + length (value_bytes value.now) ≤ length out.old }
    ensures length { result ≡ length (value_bytes value.now) }
    ensures bytes { out.new ≡ take at out.old ++ (value_bytes value.now ++ drop (length (value_bytes value.now)) (drop at out.old)) }
{
    write_value(value, &mut out[at..])
}

// Writes values one after another, and answers their length.
fn write_values(values: &[Value], out: &mut [u8]) -> usize
    requires texts { All HasLength values.now }
    requires room { length (values_bytes values.now) ≤ length out.old }
    ensures length { result ≡ length (values_bytes values.now) }
    ensures bytes { out.new ≡ values_bytes values.now ++ drop (length (values_bytes values.now)) out.old }
{
    let mut at = 0;
    'values: for value in values {
        let length = write_value_at(value, out, at);
        at += length;
    }
    at
}

// The row of these bytes, if they are a row's.
#[tactic(auto, unfolding(crate::specs::ReadingRows::row_in))]
fn read_whole(alloc: Global, bytes: &[u8]) -> Result<Option<Row>, AllocError>
    ensures { IfOk result (λ o. o ≡ row_in bytes.now) }
{
    if bytes.is_empty() || bytes.len() > ROW_MAX {
        return Ok(None);
    }
    let count = bytes[0] as usize;
    if count < 1 || count > VALUES_MAX {
        return Ok(None);
    }
    match read_values(alloc, count, &bytes[1..])? {
        Some(values) => Ok(Some(Row { values })),
        None => Ok(None),
    }
}

// So many values, and nothing behind them.
#[tactic(auto, using(crate::proofs::ValueLemmas::begin_values))]
fn read_values(alloc: Global, count: usize, bytes: &[u8]) -> Result<Option<List<Value>>, AllocError>
    ensures { IfOk result (λ o. o ≡ values_in count bytes.now) }
{
    let mut values = Vec::with_capacity(alloc, count)?;
    let mut at = 0;
    'values: for done in 0..count {
        match read_value_from(alloc, bytes, at)? {
            Some((value, length)) => {
                values.push(value)?;
                at += length;
            }
            None => return Ok(None),
        }
    }
    if at < bytes.len() {
        return Ok(None);
    }
    Ok(Some(List::from_vec(values)))
}

// The value from an offset on.
fn read_value_from(
    alloc: Global,
    bytes: &[u8],
    at: usize,
) -> Result<Option<(Value, usize)>, AllocError>
    requires { at ≤ length bytes.now }
    ensures value { IfOk result (λ o. o ≡ value_at (drop at bytes.now)) }
    ensures within { IfOk result (λ o. IfSome o (λ p. at + p.1 ≤ length bytes.now)) }
{
    read_value(alloc, &bytes[at..])
}

// The value at the front, and how many bytes it takes.
#[tactic(auto, unfolding(crate::specs::ReadingRows::value_at))]
fn read_value(alloc: Global, bytes: &[u8]) -> Result<Option<(Value, usize)>, AllocError>
    ensures value { IfOk result (λ o. o ≡ value_at bytes.now) }
    ensures within { IfOk result (λ o. IfSome o (λ p. p.1 ≤ length bytes.now)) }
{
    if bytes.is_empty() {
        return Ok(None);
    }
    let rest = &bytes[1..];
    match bytes[0] {
        0 => Ok(Some((Value::Null, 1))),
        1 => Ok(read_int(rest)),
        2 => Ok(read_number(rest)),
        3 => read_text(alloc, rest),
        _ => Ok(None),
    }
}

#[tactic(auto, unfolding(crate::specs::ReadingRows::int_at))]
fn read_int(bytes: &[u8]) -> Option<(Value, usize)>
    ensures value { result ≡ int_at bytes.now }
    ensures within { IfSome result (λ p. p.1 ≤ length bytes.now + 1) }
{
    if bytes.len() < 8 {
        return None;
    }
    Some((Value::Int(read_i64(bytes)), 9))
}

#[tactic(auto, unfolding(crate::specs::ReadingRows::number_at))]
fn read_number(bytes: &[u8]) -> Option<(Value, usize)>
    ensures value { result ≡ number_at bytes.now }
    ensures within { IfSome result (λ p. p.1 ≤ length bytes.now + 1) }
{
    if bytes.len() < 9 {
        return None;
    }
    let scale = bytes[0];
    let units = read_i64(&bytes[1..]);
    if scale > SCALE_MAX || units.unsigned_abs() >= UNITS_END {
        return None;
    }
    Some((Value::Number { scale, units }, 10))
}

#[tactic(auto, unfolding(crate::specs::ReadingRows::text_at))]
fn read_text(alloc: Global, bytes: &[u8]) -> Result<Option<(Value, usize)>, AllocError>
    ensures value { IfOk result (λ o. o ≡ text_at bytes.now) }
    ensures within { IfOk result (λ o. IfSome o (λ p. p.1 ≤ length bytes.now + 1)) }
{
    if bytes.len() < 2 {
        return Ok(None);
    }
    let size = read_u16(bytes) as usize;
    if size > TEXT_MAX || bytes.len() < size + 2 {
        return Ok(None);
    }
    match utf8_text(alloc, &bytes[2..2 + size])? {
        Some(text) => Ok(Some((Value::Text(text), size + 3))),
        None => Ok(None),
    }
}

#[tactic(auto, using(crate::proofs::Utf8::passes, crate::proofs::Utf8::fails))]
fn utf8_text(alloc: Global, bytes: &[u8]) -> Result<Option<Text>, AllocError>
    ensures { IfOk result (λ o. o ≡ (if is_utf8 bytes.now then Some bytes.now else None)) }
{
    match Text::of(alloc, bytes)? {
        Some(text) => Ok(Some(text)),
        None => Ok(None),
    }
}
