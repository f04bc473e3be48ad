//! The slots of one session: which entries of the table of locks are its names, in the order taken. A name that was given back
//! before a later one leaves an empty slot, so that no slot behind it moves; the last slot is never empty for long.
ghost use Rattle.std.specs.Prelude.{◌≡◌, ◌<◌, ℕ, [], ◌∷◌, ◌++◌, Option, None, Some, length, get_or, slice_set, nat_eq, if◌then◌else◌, OnOk, OnErr};
ghost use Rattle.tt_txn.specs.Slots.{slot_in};

use std::alloc::{AllocError, Global};
use std::marker::Model;

/// A list of slots. Each has the index of an entry, or is empty.
#[derive(Drop)]
pub struct Slots {
    slots: Vec<Option<usize>>,
}

impl Model for Slots {
    ghost use Rattle.std.specs.Prelude.{List, Option, ℕ};

    ghost Value = { List (Option ℕ) };

    ghost view = { λ s. s.slots.items };
}

impl Slots {
    pub fn new(alloc: Global) -> Slots
        ensures { result ≡ [] }
    {
        Slots {
            slots: Vec::new(alloc),
        }
    }

    pub fn len(&self) -> usize
        ensures { result ≡ length self.now }
    {
        self.slots.len()
    }

    /// Adds an empty slot behind the others.
    pub fn push_empty(&mut self) -> Result<(), AllocError>
        ensures ok { OnOk result (self.new ≡ self.old ++ None ∷ []) }
        ensures err { OnErr result (self.new ≡ self.old) }
    {
        self.slots.push(None)?;
        Ok(())
    }

    /// Writes the index of an entry into a slot.
    pub fn put(&mut self, at: usize, entry: usize)
        requires { at < length self.old }
        ensures { self.new ≡ slice_set self.old at (Some entry) }
    {
        self.slots[at] = Some(entry);
    }

    /// Takes the last slot away.
    pub fn pop(&mut self) -> Option<Option<usize>>
        ensures none { result ≡ None → (self.old ≡ []) × (self.new ≡ []) }
        ensures some { (slot : Option ℕ) → result ≡ Some slot → self.old ≡ self.new ++ slot ∷ [] }
    {
        self.slots.pop()
    }

    /// Empties a slot, and takes the empty ones at the end away.
    pub fn free(&mut self, at: usize)
        requires { at < length self.old }
        ensures { (q : ℕ) → slot_in q self.new ≡ (if nat_eq at q then None else slot_in q self.old) }
    {
        self.slots[at] = None;
        trim(&mut self.slots);
    }
}

// Takes the empty slots at the end away.
fn trim(slots: &mut Vec<Option<usize>>)
    ensures { (q : ℕ) → slot_in q slots.new.items ≡ slot_in q slots.old.items }
{
    while let Some(None) = slots.last() {
        slots.pop();
    }
}
