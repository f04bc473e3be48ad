//! Cuts the token at the front of a line. Each is as long as it can be.

ghost use Rattle.std.specs.Prelude.{◌≡◌, ◌≢◌, ◌<◌, ◌≤◌, ◌+◌, length, slice_index, drop, true, false};
ghost use Rattle.tt_parse.specs.Tokens as spec;

use crate::kind::Kind;

#[derive(Clone, Copy, Debug)]
pub enum Class {
    Blank,
    Digit,
    Word,
    Continuation,
}

/// The kind and the length of the token at the front.
#[tactic(auto, unfolding(crate::specs::Tokens::first))]
pub fn first(z: &[u8]) -> (Kind, usize)
    requires some { 0 < length z.now }
    ensures value { result ≡ spec.first z.now }
    ensures within { (1 ≤ result.1) × (result.1 ≤ length z.now + 1) }
    ensures kind { (result.0 ≢ Kind.End) × (result.0 ≢ Kind.Unclosed) }
    ensures quote { result.0 ≡ Kind.Text → slice_index z.now 0 ≡ 39 }
    ensures text { result.0 ≡ Kind.Text → result.1 ≡ 1 + spec.text_rest false (drop 1 z.now) }
{
    let b = z[0];
    if is_in(Class::Digit, b) {
        (Kind::Number, number_len(z))
    } else if is_in(Class::Word, b) {
        (Kind::Word, past(Class::Word, z, 0))
    } else if b == b'\'' {
        (Kind::Text, 1 + text_rest(&z[1..]))
    } else if b == b'<' {
        less(byte(z, 1))
    } else if b == b'>' {
        greater(byte(z, 1))
    } else {
        (single(b), character_len(z))
    }
}

pub fn is_in(class: Class, b: u8) -> bool
    ensures { result ≡ spec.is_in class b }
{
    match class {
        Class::Blank => b == b' ' || b == b'\t',
        Class::Digit => b'0' <= b && b <= b'9',
        Class::Word => b.is_ascii_alphanumeric() || b == b'_',
        Class::Continuation => 128 <= b && b < 192,
    }
}

pub fn past(class: Class, z: &[u8], at: usize) -> usize
    requires { at ≤ length z.now }
    ensures value { result ≡ spec.past class z.now at }
    ensures within { (at ≤ result) × (result ≤ length z.now) }
    ensures moves { at < length z.now → spec.is_in class (slice_index z.now at) ≡ true → at < result }
{
    let mut end = at;
    while end < z.len() && is_in(class, z[end]) {
        end += 1;
    }
    end
}

pub fn text_rest(mut z: &[u8]) -> usize
    ensures value { result ≡ spec.text_rest false z.entry.now }
    ensures within { (1 ≤ result) × (result ≤ length z.entry.now + 1) }
{
    let mut is_second = false;
    let mut at = 1;
    while let [b, rest @ ..] = z {
        if !is_second && *b == b'\'' && byte(rest, 0) != b'\'' {
            return at;
        }
        is_second = !is_second && *b == b'\'';
        at += 1;
        z = rest;
    }
    at
}

fn number_len(z: &[u8]) -> usize
    requires { spec.is_in Class.Digit (slice_index z.now 0) ≡ true }
    ensures value { result ≡ spec.number_len z.now }
    ensures within { (1 ≤ result) × (result ≤ length z.now) }
{
    let whole = past(Class::Digit, z, 0);
    if byte(z, whole) == b'.' && is_in(Class::Digit, byte(z, whole + 1)) {
        past(Class::Digit, z, whole + 1)
    } else {
        whole
    }
}

fn byte(z: &[u8], at: usize) -> u8
    ensures value { result ≡ slice_index z.now at }
    ensures within { result ≢ 0 → at < length z.now }
{
    if at < z.len() { z[at] } else { 0 }
}

fn less(next: u8) -> (Kind, usize)
    ensures value { result ≡ spec.less next }
    ensures within { (1 ≤ result.1) × (result.1 ≤ 2) × (next ≡ 0 → result.1 ≡ 1) }
    ensures kind { (result.0 ≢ Kind.End) × (result.0 ≢ Kind.Unclosed) × (result.0 ≢ Kind.Text) }
{
    match next {
        b'=' => (Kind::LessEqual, 2),
        b'>' => (Kind::NotEqual, 2),
        _ => (Kind::Less, 1),
    }
}

fn greater(next: u8) -> (Kind, usize)
    ensures value { result ≡ spec.greater next }
    ensures within { (1 ≤ result.1) × (result.1 ≤ 2) × (next ≡ 0 → result.1 ≡ 1) }
    ensures kind { (result.0 ≢ Kind.End) × (result.0 ≢ Kind.Unclosed) × (result.0 ≢ Kind.Text) }
{
    match next {
        b'=' => (Kind::GreaterEqual, 2),
        _ => (Kind::Greater, 1),
    }
}

fn single(b: u8) -> Kind
    ensures value { result ≡ spec.single b }
    ensures kind { (result ≢ Kind.End) × (result ≢ Kind.Unclosed) × (result ≢ Kind.Text) }
{
    match b {
        b'@' => Kind::At,
        b'(' => Kind::Open,
        b')' => Kind::Close,
        b',' => Kind::Comma,
        b';' => Kind::Semicolon,
        b'*' => Kind::Star,
        b'=' => Kind::Equal,
        b'+' => Kind::Plus,
        b'-' => Kind::Minus,
        _ => Kind::Other,
    }
}

fn character_len(z: &[u8]) -> usize
    requires { 0 < length z.now }
    ensures value { result ≡ spec.past Class.Continuation z.now 1 }
    ensures within { (1 ≤ result) × (result ≤ length z.now) }
{
    past(Class::Continuation, z, 1)
}
