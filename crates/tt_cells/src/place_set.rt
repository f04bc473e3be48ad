//! The reserved places, with a mark for each full word of them, so that the least free one is found by looking at marks.
ghost use Rattle.std.specs.Prelude.{◌≡◌, ◌<◌, ◌≤◌, ◌+◌, if◌then◌else◌, OnOk, OnErr};
ghost use Rattle.std.specs.FinSet as set;
ghost use Rattle.tt_cells.specs.NumberSet.{IsLeastAbsent};
ghost use Rattle.tt_cells.specs.Limits.{places_end};

use crate::PLACES_END;
use crate::number_set::NumberSet;
use std::alloc::{AllocError, Global};
use std::marker::Model;

/// A set of places whose least absent one is found by looking at the marks of 64 words, or 4,096 places, at a time.
#[derive(Drop)]
pub(crate) struct PlaceSet {
    places: NumberSet,
    full: NumberSet,
}

impl Model for PlaceSet {
    ghost use Rattle.tt_cells.specs.NumberSet.{Numbers, numbers_code};
    ghost use Rattle.tt_cells.specs.PlaceSet.{MarksFull};

    ghost Value = { Numbers };

    ghost coded = { numbers_code };

    ghost view = { λ s. s.places };

    ghost invariant = { λ s. MarksFull s.places s.full };
}

// Marks a word where it is full.
fn mark(full: &mut NumberSet, at: u32, is_full: bool)
    requires { at < full.old.room }
    ensures members { full.new.members ≡ (if is_full then set.insert full.old.members at else full.old.members) }
    ensures room { full.new.room ≡ full.old.room }
{
    if is_full {
        full.insert(at);
    }
}

impl PlaceSet {
    /// The empty set. It takes no memory.
    pub(crate) fn new(alloc: Global) -> PlaceSet
        ensures members { result.members ≡ set.empty }
        ensures room { result.room ≡ 0 }
    {
        PlaceSet {
            places: NumberSet::new(alloc),
            full: NumberSet::new(alloc),
        }
    }

    pub(crate) fn len(&self) -> u32
        ensures { result ≡ set.len self.now.members }
    {
        self.places.len()
    }

    /// The set has room for the places below this.
    pub(crate) fn room(&self) -> u32
        ensures { result ≡ self.now.room }
    {
        self.places.room()
    }

    /// Makes room for one more word, and for its mark.
    pub(crate) fn widen(&mut self) -> Result<(), AllocError>
        requires { self.old.room < places_end }
        ensures members { self.new.members ≡ self.old.members }
        ensures ok { OnOk result (self.new.room ≡ self.old.room + 64) }
        ensures err { OnErr result (self.new.room ≡ self.old.room) }
    {
        if 64 * self.full.room() < self.places.room() + 64 {
            self.full.widen()?;
        }
        self.places.widen()
    }

    /// Takes no memory.
    pub(crate) fn insert(&mut self, place: u32)
        requires { place < self.old.room }
        ensures members { self.new.members ≡ set.insert self.old.members place }
        ensures room { self.new.room ≡ self.old.room }
    {
        self.places.insert(place);
        let is_full = self.places.has_full_word(place / 64);
        mark(&mut self.full, place / 64, is_full);
    }

    pub(crate) fn remove(&mut self, place: u32)
        ensures members { self.new.members ≡ set.remove self.old.members place }
        ensures room { self.new.room ≡ self.old.room }
    {
        self.places.remove(place);
        self.full.remove(place / 64);
    }

    /// The least place that is no member, at most the room. The set stays as it is.
    pub(crate) fn least_absent(&mut self) -> u32
        ensures least { IsLeastAbsent self.old.members result }
        ensures within { result ≤ self.old.room }
        ensures same { self.new ≡ self.old }
    {
        let word = self.full.least_absent();
        self.places.least_absent_in(word)
    }
}
