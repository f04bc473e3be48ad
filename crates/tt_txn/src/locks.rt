//! The table of locks: one map from each name to the session that holds it, and for each session the slots that have its names
//! in the order taken. A slot has the index of an entry of the map, and the entry tells session and slot. So a name's holder is
//! found by one look-up, and a session's names are given back one by one, whatever the others hold. Where an entry leaves the
//! map, the last one takes its index, and its slot is written anew.
ghost use Rattle.std.specs.Prelude.{◌≡◌, ◌<◌, ◌++◌, ◌∷◌, [], ℕ, Bool, true, false, None, length, get_or, nat_eq, if◌then◌else◌, OnOk, OnErr, IsTrue};
ghost use Rattle.std.specs.List.{list_any};
ghost use Rattle.std.specs.Set.{remove_key};
ghost use Rattle.indexmap.specs.IndexMap.{IsUnique, get};
ghost use Rattle.tt_txn.specs.Same.{same_name};
ghost use Rattle.tt_txn.specs.Locks.{names_of, is_session, Holds, names_in, IsTied, IsTiedBut, Moves, HaveNames, AddsName, KeepsOthers, same_names, without_name, without_session};
ghost use Rattle.tt_txn.specs.Slots.{slots_of, slot_at};

use crate::held::Held;
use crate::lock_name::LockName;
use crate::session::SESSIONS_END;
use crate::slots::Slots;
use indexmap::IndexMap;
use std::alloc::{AllocError, Global};
use std::array;
use std::marker::Model;

/// The names that sessions hold. Contracts see a list of them for each session, in the order taken.
#[derive(Drop)]
pub struct Locks {
    names: IndexMap<LockName, Held>,
    slots: [Slots; SESSIONS_END],
}

impl Model for Locks {
    ghost use Rattle.std.specs.Prelude.{map};
    ghost use Rattle.indexmap.specs.IndexMap.{IsUnique};
    ghost use Rattle.tt_txn.specs.Same.{same_name};
    ghost use Rattle.tt_txn.specs.Locks.{Holdings, names_in, IsTied};

    ghost Value = { Holdings };

    ghost view = { λ l. map (names_in l.names.entries) l.slots };

    ghost invariant = { λ l. IsTied l.slots l.names.entries × IsUnique same_name l.names };
}

impl Locks {
    pub fn new(alloc: Global) -> Locks
        ensures { (session : ℕ) → names_of session result ≡ [] }
    {
        Locks {
            names: IndexMap::new(alloc),
            slots: array::from_fn(
                |_: usize| -> Slots
                    ensures { result ≡ [] }
                { Slots::new(alloc) },
            ),
        }
    }

    /// The session that holds a name.
    pub fn holder(&self, name: &LockName) -> Option<u8>
        ensures { (s : ℕ) → list_any (same_name name.now) (names_of s self.now) ≡ is_session s result }
    {
        let held = self.names.get(name)?;
        Some(held.session)
    }

    /// Takes a name that no session holds.
    pub fn take(&mut self, session: u8, name: LockName) -> Result<(), AllocError>
        requires in_range { session < SESSIONS_END }
        requires free { (s : ℕ) → list_any (same_name name) (names_of s self.old) ≡ false }
        ensures ok { OnOk result (Holds session (names_of session self.old ++ name ∷ []) self.old self.new) }
        ensures err { OnErr result ((s : ℕ) → names_of s self.new ≡ names_of s self.old) }
    {
        take_in(&mut self.names, &mut self.slots, session, name)
    }

    /// Gives a name back, where one holds it.
    pub fn give_back(&mut self, name: &LockName)
        ensures { (s : ℕ) → names_of s self.new ≡ remove_key (same_name name.now) (names_of s self.old) }
    {
        give_back_in(&mut self.names, &mut self.slots, name);
    }

    /// Gives all names of a session back, the last first.
    pub fn end(&mut self, session: u8)
        requires { session < SESSIONS_END }
        ensures { Holds session [] self.old self.new }
    {
        release_all(&mut self.names, &mut self.slots, session as usize);
    }
}

// Takes an entry out of the map. The last one takes its index.
fn take_out(names: &mut IndexMap<LockName, Held>, at: usize)
    requires { at < length names.old.entries }
    ensures moves { Moves at names.old.entries names.new.entries }
    ensures unique { IsUnique same_name names.new }
{
    names.swap_remove_index(at);
}

// Takes an entry away that no slot has. The last one takes its index.
fn release(names: &mut IndexMap<LockName, Held>, slots: &mut [Slots], at: usize)
    requires { IsTiedBut at slots.old names.old.entries }
    ensures tied { IsTied slots.new names.new.entries }
    ensures names { HaveNames names.new.entries slots.new (same_names names.old.entries slots.old) }
    ensures unique { IsUnique same_name names.new }
    ensures counts { (session : ℕ) → length (slots_of session slots.new) ≡ length (slots_of session slots.old) }
{
    take_out(names, at);
    if let Some((_, held)) = names.get_index(at) {
        let owner = &mut slots[held.session as usize];
        owner.put(held.at, at);
    }
}

// Puts an entry behind the others.
fn put_name(
    names: &mut IndexMap<LockName, Held>,
    name: LockName,
    held: Held,
) -> Result<(), AllocError>
    requires { get same_name names.old name ≡ None }
    ensures unique { IsUnique same_name names.new }
    ensures ok { OnOk result (names.new.entries ≡ names.old.entries ++ (name, held) ∷ []) }
    ensures err { OnErr result (names.new.entries ≡ names.old.entries) }
{
    names.insert(name, held)?;
    Ok(())
}

// Takes a name that no slot has, in a slot of its own behind the session's others.
fn take_in(
    names: &mut IndexMap<LockName, Held>,
    slots: &mut [Slots],
    session: u8,
    name: LockName,
) -> Result<(), AllocError>
    requires in_range { session < length slots.old }
    requires tied { IsTied slots.old names.old.entries }
    requires unique { IsUnique same_name names.old }
    requires free { get same_name names.old name ≡ None }
    ensures tied { IsTied slots.new names.new.entries }
    ensures unique { IsUnique same_name names.new }
    ensures ok { OnOk result (AddsName session name names.old.entries slots.old names.new.entries slots.new) }
    ensures err { OnErr result (HaveNames names.new.entries slots.new (same_names names.old.entries slots.old)) }
{
    let owner = &mut slots[session as usize];
    let at = owner.len();
    owner.push_empty()?;
    let entry = names.len();
    match put_name(names, name, Held { session, at }) {
        Ok(()) => {
            owner.put(at, entry);
            Ok(())
        }
        Err(AllocError) => {
            owner.free(at);
            Err(AllocError)
        }
    }
}

// Gives a name back, where a slot has it.
fn give_back_in(names: &mut IndexMap<LockName, Held>, slots: &mut [Slots], name: &LockName)
    requires tied { IsTied slots.old names.old.entries }
    requires unique { IsUnique same_name names.old }
    ensures tied { IsTied slots.new names.new.entries }
    ensures unique { IsUnique same_name names.new }
    ensures left { HaveNames names.new.entries slots.new (without_name name.now names.old.entries slots.old) }
{
    let Some((at, _, held)) = names.get_full(name) else {
        return;
    };
    let held = *held;
    let owner = &mut slots[held.session as usize];
    owner.free(held.at);
    release(names, slots, at);
}

// Takes the last slot of a session away, and gives its name back; false where it has none.
fn release_last(names: &mut IndexMap<LockName, Held>, slots: &mut [Slots], session: usize) -> bool
    requires in_range { session < length slots.old }
    requires tied { IsTied slots.old names.old.entries }
    requires unique { IsUnique same_name names.old }
    ensures tied { IsTied slots.new names.new.entries }
    ensures unique { IsUnique same_name names.new }
    ensures others { KeepsOthers session names.old.entries slots.old names.new.entries slots.new }
    ensures fewer { IsTrue result → length (slots_of session slots.new) < length (slots_of session slots.old) }
    ensures none { result ≡ false → slots_of session slots.new ≡ [] }
{
    let owner = &mut slots[session];
    match owner.pop() {
        None => false,
        Some(None) => true,
        Some(Some(at)) => {
            release(names, slots, at);
            true
        }
    }
}

// Takes all slots of a session away, and gives their names back.
fn release_all(names: &mut IndexMap<LockName, Held>, slots: &mut [Slots], session: usize)
    requires in_range { session < length slots.old }
    requires tied { IsTied slots.old names.old.entries }
    requires unique { IsUnique same_name names.old }
    ensures tied { IsTied slots.new names.new.entries }
    ensures unique { IsUnique same_name names.new }
    ensures others { HaveNames names.new.entries slots.new (without_session session names.old.entries slots.old) }
{
    while release_last(names, slots, session) {}
}
