//! An index whose keys are whole numbers and Null, as those of one nullable column of whole numbers are. A whole number takes
//! less room as a key than a row does. In the order of rows Null stands behind all numbers, so its places come last.
ghost use Rattle.std.specs.Prelude.{◌≡◌, ◌↔◌, [], IsTrue, IfOk, OnOk, OnErr};
ghost use Rattle.std.specs.Bool.{OnTrue, OnFalse};
ghost use Rattle.std.specs.BTreeMap.{is_at};
ghost use Rattle.std.specs.List.Sorted.{IsStrictlySortedBy};
ghost use Rattle.std.specs.Map.{keys_of, lookup};
ghost use Rattle.std.specs.Option.{option_copied};
ghost use Rattle.std.specs.Ordering.{nat_cmp, int_cmp};
ghost use Rattle.tt_value.specs.Order.{row_cmp};
ghost use Rattle.tt_index.specs.Rows.{without, values_at, changed, SameBut};
ghost use Rattle.tt_index.specs.Indexes.{places_at, places_between, with_place, without_place, entries_without};
ghost use Rattle.tt_index.specs.Nulls.{null_row};
ghost use Rattle.tt_index.specs.Numbers.{as_rows, with_nulls, with_whole};
ghost use Rattle.tt_index.specs.Whole.{whole_row};

use crate::nulls::{add_null, copy_nulls, drop_null, is_null, nulls_between};
use crate::place_set::PlaceSet;
use crate::places::Places;
use crate::whole::{among, row_of, whole};
use std::alloc::{AllocError, Global};
use std::collections::BTreeMap;
use std::marker::Model;
use std::ops::Bound;
use tt_value::Row;

/// Whole numbers as keys, each once, and the places of Null, if it has any.
#[derive(Drop)]
pub struct Numbers {
    keys: BTreeMap<i64, PlaceSet>,
    nulls: Option<PlaceSet>,
}

impl Model for Numbers {
    ghost use Rattle.tt_index.specs.Indexes.{Entries};
    ghost use Rattle.tt_index.specs.Numbers.{with_nulls};

    ghost Value = { Entries };

    ghost view = { λ n. with_nulls n.keys.entries n.nulls };
}

impl Numbers {
    pub fn new(alloc: Global) -> Numbers
        ensures { result ≡ [] }
    {
        Numbers {
            keys: BTreeMap::new(alloc),
            nulls: None,
        }
    }

    pub fn add(&mut self, alloc: Global, key: &i64, place: u32) -> Result<(), AllocError>
        ensures ok { OnOk result
            (self.new ≡ changed row_cmp (with_place place) (whole_row key.now) self.old) }
        ensures err { OnErr result (self.new ≡ self.old) }
    {
        add_whole(&mut self.keys, alloc, key, place)
    }

    pub fn add_null(&mut self, alloc: Global, place: u32) -> Result<(), AllocError>
        ensures ok { OnOk result (self.new ≡ changed row_cmp (with_place place) null_row self.old) }
        ensures err { OnErr result (self.new ≡ self.old) }
    {
        add_null(&mut self.nulls, alloc, place)
    }

    pub fn drop_entry(&mut self, key: &Row, place: u32)
        ensures { self.new ≡ entries_without key.now place self.old }
    {
        match whole(key) {
            Some(n) => drop_whole(&mut self.keys, n, place),
            None => {
                if is_null(key) {
                    drop_null(&mut self.nulls, place);
                }
            }
        }
    }

    pub fn is_empty(&self) -> bool
        ensures { IsTrue result ↔ (self.now ≡ []) }
    {
        self.keys.is_empty() && self.nulls.is_none()
    }

    pub fn find(&self, key: &Row) -> Places<'_>
        ensures places { result ≡ places_at key.now self.now }
        ensures ordered { IsStrictlySortedBy nat_cmp (places_at key.now self.now) }
    {
        match places_of_key(&self.keys, &self.nulls, key) {
            Some(places) => Places::of(places),
            None => Places::none(),
        }
    }

    pub fn range(&self, low: &Bound<Row>, high: &Bound<Row>) -> Places<'_>
        ensures places { result ≡ places_between low.now high.now self.now }
        ensures ordered { IsStrictlySortedBy row_cmp (keys_of self.now) }
    {
        let nulls = nulls_between(&self.nulls, low, high);
        Places::over_numbers(self.keys.range(among(low, high)), nulls)
    }

    /// The same entries with rows as keys.
    pub fn to_rows(&self, alloc: Global) -> Result<BTreeMap<Row, PlaceSet>, AllocError>
        ensures { IfOk result (λ m. m.entries ≡ self.now) }
    {
        let mut rows = rows_of(&self.keys, alloc)?;
        copy_nulls(&self.nulls, alloc, &mut rows)?;
        Ok(rows)
    }
}

fn add_whole(
    keys: &mut BTreeMap<i64, PlaceSet>,
    alloc: Global,
    key: &i64,
    place: u32,
) -> Result<(), AllocError>
    ensures ok { OnOk result
        (keys.new.entries ≡ changed int_cmp (with_place place) key.now keys.old.entries) }
    ensures err { OnErr result (keys.new.entries ≡ keys.old.entries) }
{
    if let Some(places) = keys.get_mut(key) {
        return places.add(alloc, place);
    }
    keys.insert(*key, PlaceSet::one(place))?;
    Ok(())
}

// Takes a place of a key away and answers false; or answers true, where the key would keep none.
fn take_place(keys: &mut BTreeMap<i64, PlaceSet>, key: &i64, place: u32) -> bool
    ensures last { OnTrue result (without_place place (values_at int_cmp key.now keys.old.entries) ≡ []) }
    ensures others { OnTrue result (SameBut (is_at (int_cmp key.now)) keys.old.entries keys.new.entries) }
    ensures left { OnFalse result
        (keys.new.entries ≡ changed int_cmp (without_place place) key.now keys.old.entries) }
{
    match keys.get_mut(key) {
        Some(places) => places.remove(place),
        None => false,
    }
}

fn forget_key(keys: &mut BTreeMap<i64, PlaceSet>, key: &i64)
    ensures { keys.new.entries ≡ without (is_at (int_cmp key.now)) keys.old.entries }
{
    keys.remove(key);
}

fn drop_whole(keys: &mut BTreeMap<i64, PlaceSet>, key: &i64, place: u32)
    ensures { keys.new.entries ≡ changed int_cmp (without_place place) key.now keys.old.entries }
{
    if take_place(keys, key, place) {
        forget_key(keys, key);
    }
}

// The places of a key, which only a whole number and Null can have.
fn places_of_key<'a>(
    keys: &'a BTreeMap<i64, PlaceSet>,
    nulls: &'a Option<PlaceSet>,
    key: &Row,
) -> Option<&'a PlaceSet>
    ensures { option_copied result
        ≡ lookup (is_at (row_cmp key.now)) (with_nulls keys.now.entries nulls.now) }
{
    match whole(key) {
        Some(n) => keys.get(n),
        None => { if is_null(key) { nulls.as_ref() } else { None } }
    }
}

fn put_copy(
    rows: &mut BTreeMap<Row, PlaceSet>,
    alloc: Global,
    key: &i64,
    places: &PlaceSet,
) -> Result<(), AllocError>
    ensures { OnOk result (rows.new.entries ≡ with_whole key.now places.now rows.old.entries) }
{
    let row = row_of(alloc, *key)?;
    let places = places.copy(alloc)?;
    rows.insert(row, places)?;
    Ok(())
}

fn rows_of(
    keys: &BTreeMap<i64, PlaceSet>,
    alloc: Global,
) -> Result<BTreeMap<Row, PlaceSet>, AllocError>
    ensures { IfOk result (λ m. m.entries ≡ as_rows keys.now.entries) }
{
    let mut rows = BTreeMap::new(alloc);
    let mut left = keys.iter();
    'keys: while let Some((key, places)) = left.next() {
        put_copy(&mut rows, alloc, key, places)?;
    }
    Ok(rows)
}
