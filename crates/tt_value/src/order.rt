//! What a comparison of a script answers, and the total order of values and rows by which keys are kept.

ghost use Rattle.std.specs.Prelude.{◌≡◌, ◌≤◌, ◌+◌, ◌^◌, ◌*ℤ◌, ◌≤ℤ◌, pos, min};
ghost use Rattle.std.specs.Result.{result_ok};
ghost use Rattle.std.specs.Cmp.{partial_order_from_agreeing_total};
ghost use Rattle.std.specs.Prelude.{refl};
ghost use Rattle.std.specs.Cmp.Lexicographic.{slice_cmp};
ghost use Rattle.std.specs.Ordering.{as_partial_cmp, ordering_then, nat_cmp};
ghost use Rattle.std.specs.declared.cmp.Ordering.{Ordering};
ghost use Rattle.tt_value.specs.OrderLaws.{value_total, value_ties, row_total, row_ties};
ghost use Rattle.tt_value.specs.Order.{units_of, scale_of, kind_of, form_of, text_of, amount_cmp, number_cmp, value_cmp, row_cmp, compared};

use crate::value::{Row, Value};
use std::cmp::Ordering;

/// A text and a number, which have no order in a comparison.
#[derive(Clone, Copy, Debug, PartialEq, Eq)]
pub struct WrongKinds;

/// What a comparison of two values answers: `None` where one is Null; an error where one is a text and the other a
/// number. Numbers of any scales are compared exactly, texts by their bytes.
pub fn compare(a: &Value, b: &Value) -> Result<Option<Ordering>, WrongKinds>
    // No answer is one of a text and a number.
    ensures { result_ok result ≡ compared a.now b.now }
{
    match (a, b) {
        (Value::Null, _) | (_, Value::Null) => Ok(None),
        (Value::Text(a), Value::Text(b)) => Ok(Some(a.as_bytes().cmp(b.as_bytes()))),
        (Value::Text(_), _) | (_, Value::Text(_)) => Err(WrongKinds),
        _ => Ok(Some(compare_amounts(a, b))),
    }
}

/// The order of two rows, value by value: numbers before texts, Null after both; numbers by their amount, then by
/// their scale, where a whole number has scale 0, and then a whole number before another; texts by their bytes; a row
/// before its longer extension. It is a total order, and only equal rows are equal in it.
pub fn key_order(a: &Row, b: &Row) -> Ordering
    ensures order { result ≡ row_cmp a.now b.now }
    ensures equal { result ≡ Ordering.Equal → a.now ≡ b.now }
{
    a.cmp(b)
}

impl Ord for Value {
    ghost cmp = { value_cmp };

    ghost total = { value_total };

    ghost matches_partial_cmp = { λ a b. refl };

    ghost matches_eq = { value_ties };

    fn cmp(&self, other: &Value) -> Ordering {
        value_order(self, other)
    }
}

impl PartialOrd for Value {
    ghost partial_cmp = { as_partial_cmp value_cmp };

    ghost laws = { partial_order_from_agreeing_total value_cmp value_total (λ a b. refl) value_ties };

    fn partial_cmp(&self, other: &Value) -> Option<Ordering> {
        Some(value_order(self, other))
    }
}

impl Ord for Row {
    ghost cmp = { row_cmp };

    ghost total = { row_total };

    ghost matches_partial_cmp = { λ a b. refl };

    ghost matches_eq = { row_ties };

    fn cmp(&self, other: &Row) -> Ordering {
        self.values.as_slice().cmp(other.values.as_slice())
    }
}

impl PartialOrd for Row {
    ghost partial_cmp = { as_partial_cmp row_cmp };

    ghost laws = { partial_order_from_agreeing_total row_cmp row_total (λ a b. refl) row_ties };

    fn partial_cmp(&self, other: &Row) -> Option<Ordering> {
        Some(self.cmp(other))
    }
}

fn value_order(a: &Value, b: &Value) -> Ordering
    ensures { result ≡ value_cmp a.now b.now }
{
    match kind(a).cmp(&kind(b)) {
        Ordering::Equal => compare_within(a, b),
        other => other,
    }
}

// Values of one kind.
fn compare_within(a: &Value, b: &Value) -> Ordering
    requires { kind_of a.now ≡ kind_of b.now }
    ensures { result ≡ ordering_then (number_cmp a.now b.now) (slice_cmp nat_cmp (text_of a.now) (text_of b.now)) }
{
    match a {
        Value::Text(text_a) => text_a.as_bytes().cmp(text(b)),
        _ => compare_numbers(a, b),
    }
}

fn compare_numbers(a: &Value, b: &Value) -> Ordering
    ensures { result ≡ number_cmp a.now b.now }
{
    compare_amounts(a, b).then(scale(a).cmp(&scale(b)).then(form(a).cmp(&form(b))))
}

fn compare_amounts(a: &Value, b: &Value) -> Ordering
    ensures { result ≡ amount_cmp a.now b.now }
{
    if scale(a) <= scale(b) {
        compare_aligned(a, b)
    } else {
        compare_aligned(b, a).reverse()
    }
}

// Two numbers, of which the first has no larger scale.
fn compare_aligned(a: &Value, b: &Value) -> Ordering
    requires { scale_of a.now ≤ scale_of b.now }
    ensures { result ≡ amount_cmp a.now b.now }
{
    with_digits(units(a), scale(b) - scale(a)).cmp(&i128::from(units(b)))
}

// Units with so many more digits, of which 19 are enough to pass all units.
fn with_digits(units: i64, digits: u8) -> i128
    ensures { result ≡ units *ℤ pos (10 ^ min digits 19) }
{
    i128::from(units) * i128::from(power_of_ten(digits.min(DIGITS_MAX)))
}

// Ten to the power of 19 is more than any units are in size.
const DIGITS_MAX: u8 = 19;

// Ten to the power of at most 19.
#[tactic(auto, using(crate::proofs::TenLemmas::power_fits))]
fn power_of_ten(digits: u8) -> u64
    requires { digits ≤ 19 }
    ensures power { result ≡ 10 ^ digits }
    ensures small { result ≤ 10 ^ 19 }
{
    10_u64.pow(u32::from(digits))
}

fn kind(value: &Value) -> u8
    ensures { result ≡ kind_of value.now }
{
    match value {
        Value::Null => 2,
        Value::Text(_) => 1,
        _ => 0,
    }
}

fn form(value: &Value) -> u8
    ensures { result ≡ form_of value.now }
{
    match value {
        Value::Number { .. } => 1,
        _ => 0,
    }
}

fn units(value: &Value) -> i64
    ensures { result ≡ units_of value.now }
{
    match value {
        Value::Int(n) => *n,
        Value::Number { units, .. } => *units,
        _ => 0,
    }
}

fn scale(value: &Value) -> u8
    ensures { result ≡ scale_of value.now }
{
    match value {
        Value::Number { scale, .. } => *scale,
        _ => 0,
    }
}

// The bytes of a text; none of another value.
fn text(value: &Value) -> &[u8]
    ensures { result.now ≡ text_of value.now }
{
    match value {
        Value::Text(text) => text.as_bytes(),
        _ => &[],
    }
}
