//! Each source gives its entries, in order.
use crate::{Entries, Noted, Undoing};
use std::alloc::{AllocError, Global};
use std::test::Fail;
use tt_record::Entry;
use tt_value::{Cell, List, Row, Value};

fn full(alloc: Global, n: i64) -> Result<Cell, AllocError> {
    let mut values = List::new(alloc);
    values.push(Value::Int(n))?;
    Ok(Cell::Full {
        table: 16,
        row: Row { values },
    })
}

// The digit of an entry: that of its place, if it is a change of one below 7, 7 for a commit, 8 for an abort, 9 for any other.
fn digit_of(entry: &Entry) -> u64 {
    match entry {
        Entry::Change { place, .. } => { if *place < 7 { u64::from(*place) } else { 9 } }
        Entry::Commit { .. } => 7,
        Entry::Abort { .. } => 8,
        _ => 9,
    }
}

// The digits of the first five entries that a source gives, behind a 1.
fn digits<E: Entries + Drop>(entries: E) -> u64 {
    let mut entries = entries;
    let mut code: u64 = 1;
    for _ in 0..5 {
        match entries.next_entry() {
            Some(entry) => code = code.wrapping_mul(10).wrapping_add(digit_of(&entry)),
            None => return code,
        }
    }
    code
}

// A transaction that put a row into place 4, and then another into place 2.
fn undoing(alloc: Global) -> Result<Undoing, AllocError> {
    let first = Noted {
        place: 4,
        before: Cell::Empty,
        after: full(alloc, 1)?,
    };
    let second = Noted {
        place: 2,
        before: Cell::Empty,
        after: full(alloc, 2)?,
    };
    let noted = vec![in alloc; first, second]?;
    Ok(Undoing::new(3, noted))
}

#[test]
fn sources_give_their_entries(rt: HostRuntime) -> Result<(), Fail> {
    let alloc = rt.alloc();
    let none: Option<Entry> = None;
    assert_eq!(rt; digits(none), 1);
    assert_eq!(rt; digits(Some(Entry::Commit { transaction: 3 })), 17);
    let undone = undoing(alloc)?;
    assert_eq!(rt; digits(undone), 1_248);
    let listed = vec![in alloc;
        Entry::Commit { transaction: 1 },
        Entry::Mark,
        Entry::Abort { transaction: 2 },
    ]?;
    assert_eq!(rt; digits(listed.into_iter()), 1_798);
    Ok(())
}
