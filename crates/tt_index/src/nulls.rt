//! The places of the key Null, where it has any.
ghost use Rattle.std.specs.Prelude.{◌≡◌, [], ◌∷◌, OnOk, OnErr, unwrap_or};
ghost use Rattle.std.specs.BTreeMap.Range.{is_from_start, is_past_end, range_contains};
ghost use Rattle.std.specs.Cmp.Lexicographic.{slice_cmp};
ghost use Rattle.tt_value.specs.Order.{value_cmp, row_cmp};
ghost use Rattle.tt_value.specs.declared.value.Value.TheVariants.{Null};
ghost use Rattle.tt_index.specs.Indexes.{places_between, with_place, without_place};
ghost use Rattle.tt_index.specs.Nulls.{null_row, is_null_row, null_entries, joined_by_null, some_places};

use crate::place_set::{KeyPlaces, PlaceSet};
use std::alloc::{AllocError, Global};
use std::cmp::Ordering;
use std::collections::BTreeMap;
use std::ops::Bound;
use tt_value::{List, Row, Value};

/// Whether a row is one Null.
pub fn is_null(row: &Row) -> bool
    ensures { result ≡ is_null_row row.now }
{
    matches!(row.values.as_slice(), [Value::Null])
}

/// Adds a place. Where memory is wanting the places stay as they were.
pub fn add_null(nulls: &mut Option<PlaceSet>, alloc: Global, place: u32) -> Result<(), AllocError>
    ensures ok { OnOk result (nulls.new ≡ some_places (with_place place (unwrap_or nulls.old []))) }
    ensures err { OnErr result (nulls.new ≡ nulls.old) }
{
    match nulls {
        Some(places) => places.add(alloc, place),
        None => {
            *nulls = Some(PlaceSet::one(place));
            Ok(())
        }
    }
}

/// Takes a place away.
pub fn drop_null(nulls: &mut Option<PlaceSet>, place: u32)
    ensures { nulls.new ≡ some_places (without_place place (unwrap_or nulls.old [])) }
{
    let last = match nulls {
        Some(places) => places.remove(place),
        None => true,
    };
    if last {
        *nulls = None;
    }
}

fn values_order(first: &Value, rest: &[Value]) -> Ordering
    ensures { result ≡ slice_cmp value_cmp (first.now ∷ rest.now) (Null ∷ []) }
{
    match first {
        Value::Null => match rest {
            [] => Ordering::Equal,
            [_, ..] => Ordering::Greater,
        },
        Value::Int(_) => Ordering::Less,
        Value::Number { .. } => Ordering::Less,
        Value::Text(_) => Ordering::Less,
    }
}

// How a row compares to that of one Null.
fn null_order(row: &Row) -> Ordering
    ensures { result ≡ row_cmp row.now null_row }
{
    match row.values.as_slice() {
        [] => Ordering::Less,
        [first, rest @ ..] => values_order(first, rest),
    }
}

fn begins_by_null(low: &Bound<Row>) -> bool
    ensures { result ≡ is_from_start row_cmp low.now null_row }
{
    match low {
        Bound::Included(row) => null_order(row).is_le(),
        Bound::Excluded(row) => null_order(row).is_lt(),
        Bound::Unbounded => true,
    }
}

fn ends_before_null(high: &Bound<Row>) -> bool
    ensures { result ≡ is_past_end row_cmp high.now null_row }
{
    match high {
        Bound::Included(row) => null_order(row).is_lt(),
        Bound::Excluded(row) => null_order(row).is_le(),
        Bound::Unbounded => false,
    }
}

/// The places of Null, where it is between two bounds.
pub fn nulls_between<'a>(
    nulls: &'a Option<PlaceSet>,
    low: &Bound<Row>,
    high: &Bound<Row>,
) -> KeyPlaces<'a>
    ensures { result ≡ places_between low.now high.now (null_entries nulls.now) }
{
    match nulls {
        Some(places) => {
            if begins_by_null(low) && !ends_before_null(high) {
                places.iter()
            } else {
                KeyPlaces::none()
            }
        }
        None => KeyPlaces::none(),
    }
}

/// Puts the entry of Null behind rows.
pub fn copy_nulls(
    nulls: &Option<PlaceSet>,
    alloc: Global,
    rows: &mut BTreeMap<Row, PlaceSet>,
) -> Result<(), AllocError>
    ensures { OnOk result (rows.new.entries ≡ joined_by_null nulls.now rows.old.entries) }
{
    let Some(places) = nulls else {
        return Ok(());
    };
    let mut values = List::new(alloc);
    values.push(Value::Null)?;
    let places = places.copy(alloc)?;
    rows.insert(Row { values }, places)?;
    Ok(())
}
