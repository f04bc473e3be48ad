use super::*;
use std::alloc::Global;
use std::cmp::Ordering;
use std::collections::HashMap;
use std::process::Abort;
use std::test::Fail;

// A value of the tables below; a text is told by its bytes, or by the count of its letters, each an `a`.
#[derive(Clone, Copy)]
enum Plain {
    Null,
    Int(i64),
    Number(u8, i64),
    Said(&'static [u8]),
    Letters(usize),
}

use Plain::{Int, Letters, Null, Number, Said};

const MOST_UNITS: i64 = 999_999_999_999_999_999;

const STORED: [(&[Plain], &[u8]); 8] = [
    (
        &[Int(1), Int(10)],
        b"\x02\x01\0\0\0\0\0\0\0\x01\x01\0\0\0\0\0\0\0\x0a",
    ),
    (&[Null], b"\x01\0"),
    (
        &[Int(i64::MIN), Int(i64::MAX)],
        b"\x02\x01\x80\0\0\0\0\0\0\0\x01\x7f\xff\xff\xff\xff\xff\xff\xff",
    ),
    (
        &[Number(18, MOST_UNITS)],
        b"\x01\x02\x12\x0d\xe0\xb6\xb3\xa7\x63\xff\xff",
    ),
    (
        &[Number(0, -MOST_UNITS)],
        b"\x01\x02\0\xf2\x1f\x49\x4c\x58\x9c\0\x01",
    ),
    (&[Letters(0), Letters(3)], b"\x02\x03\0\0\x03\0\x03aaa"),
    (
        &[Int(1), Said(b"Ada's desk"), Number(4, 10_000_000)],
        b"\x03\x01\0\0\0\0\0\0\0\x01\x03\0\x0aAda's desk\x02\x04\0\0\0\0\0\x98\x96\x80",
    ),
    (
        &[Null; 16],
        &[16, 0, 0, 0, 0, 0, 0, 0, 0, 0, 0, 0, 0, 0, 0, 0, 0],
    ),
];

const NO_ROWS: [&[u8]; 13] = [
    b"",
    b"\0",
    b"\x11\0\0\0\0\0\0\0\0\0\0\0\0\0\0\0\0\0",
    b"\x01",
    b"\x01\x04",
    b"\x01\x01\0\0\0\0\0\0\0",
    b"\x01\0\0",
    b"\x02\0",
    b"\x01\x02\x13\0\0\0\0\0\0\0\0",
    b"\x01\x02\0\x0d\xe0\xb6\xb3\xa7\x64\0\0",
    b"\x01\x02\0\xf2\x1f\x49\x4c\x58\x9c\0\0",
    b"\x01\x03\0\x01\xff",
    b"\x01\x03\0\x02a",
];

// The bytes of each, as fronts with so many letters behind them, and whether they are a row's.
const LONG: [(&[Plain], &[(&[u8], usize)], bool); 5] = [
    (&[Letters(200)], &[(b"\x01\x03\0\xc8", 200)], true),
    (&[Letters(201)], &[(b"\x01\x03\0\xc9", 201)], false),
    (
        &[Letters(200), Letters(33)],
        &[(b"\x02\x03\0\xc8", 200), (b"\x03\0\x21", 33)],
        true,
    ),
    (
        &[Letters(200), Letters(34)],
        &[(b"\x02\x03\0\xc8", 200), (b"\x03\0\x22", 34)],
        false,
    ),
    (&[], &[(b"\0", 0)], false),
];

const COMPARED: [(Plain, Plain, Ordering); 12] = [
    (
        Int(9),
        Number(18, 9_000_000_000_000_000_001),
        Ordering::Less,
    ),
    (
        Int(9),
        Number(18, 9_000_000_000_000_000_000),
        Ordering::Equal,
    ),
    (
        Int(9),
        Number(18, 8_999_999_999_999_999_999),
        Ordering::Greater,
    ),
    (Int(i64::MAX), Number(18, i64::MAX), Ordering::Greater),
    (Int(i64::MIN), Number(255, i64::MIN), Ordering::Less),
    (Number(18, MOST_UNITS), Int(1), Ordering::Less),
    (Number(18, -MOST_UNITS), Int(-1), Ordering::Greater),
    (Number(19, 1), Number(0, 1), Ordering::Less),
    (Number(0, i64::MAX), Number(1, i64::MAX), Ordering::Greater),
    (Number(2, 100), Number(0, 1), Ordering::Equal),
    (Number(255, 0), Int(0), Ordering::Equal),
    (Number(255, -1), Int(0), Ordering::Less),
];

const ASCENDING: [&[Plain]; 10] = [
    &[Int(i64::MIN)],
    &[Int(1)],
    &[Int(1), Int(i64::MIN)],
    &[Number(0, 1)],
    &[Number(1, 10)],
    &[Int(2)],
    &[Letters(0)],
    &[Letters(1)],
    &[Letters(2)],
    &[Null],
];

const REFUSALS: [(Refusal, &str, Option<(&str, u64)>); 30] = [
    (Refusal::Syntax { at: 9 }, "Syntax", Some(("at", 9))),
    (Refusal::NoTable, "NoTable", None),
    (Refusal::NoColumn, "NoColumn", None),
    (Refusal::WrongType, "WrongType", None),
    (
        Refusal::TooWide { bytes: 241 },
        "TooWide",
        Some(("bytes", 241)),
    ),
    (Refusal::DuplicateKey, "DuplicateKey", None),
    (Refusal::NullRefused, "NullRefused", None),
    (Refusal::KeyUpdate, "KeyUpdate", None),
    (Refusal::NameThere, "NameThere", None),
    (Refusal::NotEmpty, "NotEmpty", None),
    (
        Refusal::LockConflict { holder: 3 },
        "LockConflict",
        Some(("holder", 3)),
    ),
    (
        Refusal::PermFull { cells: 32 },
        "PermFull",
        Some(("cells", 32)),
    ),
    (Refusal::InTransaction, "InTransaction", None),
    (
        Refusal::CkptOpen { number: 2 },
        "CkptOpen",
        Some(("number", 2)),
    ),
    (Refusal::NoBookmark, "NoBookmark", None),
    (Refusal::BookmarkThere, "BookmarkThere", None),
    (
        Refusal::BookmarkBusy { session: 2 },
        "BookmarkBusy",
        Some(("session", 2)),
    ),
    (Refusal::NotSubscribed, "NotSubscribed", None),
    (Refusal::NoReader, "NoReader", None),
    (Refusal::SetThere, "SetThere", None),
    (Refusal::NoSet, "NoSet", None),
    (Refusal::NotIncremental, "NotIncremental", None),
    (
        Refusal::TooMany { limit: 16 },
        "TooMany",
        Some(("limit", 16)),
    ),
    (Refusal::OutOfRange, "OutOfRange", None),
    (Refusal::LineTooLong, "LineTooLong", None),
    (Refusal::LogOut, "LogOut", None),
    (
        Refusal::TransactionOpen { number: 2 },
        "TransactionOpen",
        Some(("number", 2)),
    ),
    (Refusal::NoMemory, "NoMemory", None),
    (Refusal::NoIndex, "NoIndex", None),
    (Refusal::NotBuilt, "NotBuilt", None),
];

const NAMES: [(&[u8], bool); 11] = [
    (b"kv", true),
    (b"_9", true),
    (b"flush", true),
    (b"a23456789012345678901234567890", true),
    (b"a234567890123456789012345678901", false),
    (b"", false),
    (b"9a", false),
    (b"Kv", false),
    (b"a-b", false),
    (b"where", false),
    (b"and", false),
];

fn value_of(alloc: Global, plain: Plain) -> Result<Value, Fail> {
    match plain {
        Null => Ok(Value::Null),
        Int(n) => Ok(Value::Int(n)),
        Number(scale, units) => Ok(Value::Number { scale, units }),
        Said(bytes) => {
            let text = Text::of(alloc, bytes)?;
            Ok(Value::Text(text.ok_or("ASCII is UTF-8")?))
        }
        Letters(count) => {
            let text = Text::from_vec(vec![in alloc; b'a'; count]?);
            Ok(Value::Text(text.ok_or("ASCII is UTF-8")?))
        }
    }
}

fn row_of(alloc: Global, plain: &[Plain]) -> Result<Row, Fail> {
    let mut values = List::new(alloc);
    for value in plain {
        values.push(value_of(alloc, *value)?)?;
    }
    Ok(Row { values })
}

// The row has these bytes, which are read as it.
fn is_stored_as(rt: &impl Abort, alloc: Global, plain: &[Plain], bytes: &[u8]) -> Result<(), Fail> {
    let row = row_of(alloc, plain)?;
    assert!(rt; is_storable(&row));
    let mut written = Vec::new(alloc);
    write_row(&row, &mut written)?;
    assert_eq!(rt; written.as_slice(), bytes);
    assert_eq!(rt; read_row(alloc, bytes)?, Some(row.copy()?));
    Ok(())
}

#[test]
fn rows_are_stored(rt: HostRuntime) -> Result<(), Fail> {
    for (plain, bytes) in STORED.iter() {
        is_stored_as(&rt, rt.alloc(), plain, bytes)?;
    }
    for bytes in NO_ROWS.iter() {
        assert_eq!(rt; read_row(rt.alloc(), bytes)?, None);
    }
    Ok(())
}

fn with_letters(alloc: Global, parts: &[(&[u8], usize)]) -> Result<Vec<u8>, Fail> {
    let mut bytes = Vec::new(alloc);
    for (front, count) in parts {
        bytes.extend_from_slice(front)?;
        bytes.extend_from_slice(vec![in alloc; b'a'; *count]?.as_slice())?;
    }
    Ok(bytes)
}

#[test]
fn rows_have_a_length(rt: HostRuntime) -> Result<(), Fail> {
    for (plain, parts, storable) in LONG.iter() {
        let bytes = with_letters(rt.alloc(), parts)?;
        let row = row_of(rt.alloc(), plain)?;
        assert_eq!(rt; is_storable(&row), *storable);
        if is_storable(&row) {
            assert_eq!(rt; stored_length(&row), bytes.len() as u64);
            is_stored_as(&rt, rt.alloc(), plain, bytes.as_slice())?;
        } else {
            assert_eq!(rt; read_row(rt.alloc(), bytes.as_slice())?, None);
        }
        let cell = Cell::Full { table: 16, row };
        assert_eq!(rt; cell.copy()?, cell);
    }
    Ok(())
}

// The stored length of a row of two texts.
fn length_of_two(rt: &impl Abort, alloc: Global, first: Text, second: Text) -> Result<u64, Fail> {
    assert!(rt; first.as_bytes().len() < 65536);
    assert!(rt; second.as_bytes().len() < 65536);
    let mut values = List::new(alloc);
    values.push(Value::Text(first))?;
    values.push(Value::Text(second))?;
    Ok(stored_length(&Row { values }))
}

#[test]
fn rows_that_are_too_long_have_a_length(rt: HostRuntime) -> Result<(), Fail> {
    for (first, second, length) in [(200, 34, 241), (201, 0, 208), (65535, 65535, 131077)] {
        let first = Text::from_vec(vec![in rt.alloc(); b'a'; first]?);
        let second = Text::from_vec(vec![in rt.alloc(); b'a'; second]?);
        if let (Some(first), Some(second)) = (first, second) {
            assert_eq!(rt; length_of_two(&rt, rt.alloc(), first, second)?, length);
        }
    }
    Ok(())
}

#[test]
fn numbers_of_any_scales_compare(rt: HostRuntime) -> Result<(), Fail> {
    for (a, b, order) in COMPARED.iter() {
        let a = value_of(rt.alloc(), *a)?;
        let b = value_of(rt.alloc(), *b)?;
        assert_eq!(rt; compare(&a, &b), Ok(Some(*order)));
        assert_eq!(rt; compare(&b, &a), Ok(Some(order.reverse())));
    }
    let letter = value_of(rt.alloc(), Letters(1))?;
    assert_eq!(rt; compare(&letter, &Value::Int(1)), Err(WrongKinds));
    assert_eq!(rt; compare(&letter, &Value::Null), Ok(None));
    Ok(())
}

#[test]
fn rows_have_an_order(rt: HostRuntime) -> Result<(), Fail> {
    for (i, a) in ASCENDING.iter().enumerate() {
        let a = row_of(rt.alloc(), a)?;
        for (j, b) in ASCENDING.iter().enumerate() {
            let b = row_of(rt.alloc(), b)?;
            assert_eq!(rt; key_order(&a, &b), i.cmp(&j));
        }
    }
    Ok(())
}

#[test]
fn rows_are_sorted(rt: HostRuntime) -> Result<(), Fail> {
    let mut rows = Vec::new(rt.alloc());
    for plain in ASCENDING.iter().rev() {
        rows.push(row_of(rt.alloc(), plain)?)?;
    }
    rows.sort()?;
    for (row, plain) in rows.iter().zip(ASCENDING.iter()) {
        assert_eq!(rt; *row, row_of(rt.alloc(), plain)?);
    }
    Ok(())
}

#[test]
fn rows_are_keys(rt: HostRuntime) -> Result<(), Fail> {
    let mut places = HashMap::new(rt.alloc());
    for (i, plain) in ASCENDING.iter().enumerate() {
        let _ = places.insert(row_of(rt.alloc(), plain)?, i)?;
    }
    for (i, plain) in ASCENDING.iter().enumerate() {
        let row = row_of(rt.alloc(), plain)?;
        assert_eq!(rt; places.get(&row).copied(), Some(i));
    }
    Ok(())
}

#[test]
fn refusals_have_numbers_and_names(rt: HostRuntime) {
    for (i, (refusal, name, field)) in REFUSALS.iter().enumerate() {
        assert_eq!(rt; refusal.number() as usize, i + 1);
        assert_eq!(rt; refusal.name(), *name);
        assert_eq!(rt; refusal.field(), *field);
    }
}

#[test]
fn names_are_told(rt: HostRuntime) -> Result<(), Fail> {
    let mut names = List::new(rt.alloc());
    for (bytes, told) in NAMES.iter() {
        let name = Ident::of(rt.alloc(), bytes)?;
        assert_eq!(rt; name.is_some(), *told);
        if let Some(name) = name {
            names.push(name)?;
        }
    }
    assert_eq!(rt; names.copy()?, names);
    assert!(rt; names.get(4).is_none());
    assert_eq!(rt; names.len(), 4);
    assert_eq!(rt; names.remove(0).as_bytes(), b"kv".as_slice());
    assert_eq!(rt; names.into_vec().len(), 3);
    assert!(rt; Text::of(rt.alloc(), b"\xc3")?.is_none());
    assert!(rt; Text::from_vec(vec![in rt.alloc(); 0xc3]?).is_none());
    Ok(())
}
