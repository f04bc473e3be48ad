//! What one more entry does to transactions, to the places and to the forced part of the log.
ghost use Rattle.std.specs.Prelude.{◌≡◌, ◌≤◌, ◌<◌, ◌+◌, ◌∷◌, ◌^◌, ℕ, max, true, false, IsTrue};
ghost use Rattle.tt_record.specs.Entry.{IsEntry};
ghost use Rattle.tt_model.specs.Trail.{Trail, position_lt, placed_end};
ghost use Rattle.tt_model.specs.Committed.{Cells, changed, is_full};
ghost use Rattle.tt_model.specs.Forced.{forces_earlier};
ghost use Rattle.tt_model.specs.Holds.{first_entry, is_change_of, low, older_or};
ghost use Rattle.tt_model.specs.Live.{after_number, ends, in_use, is_live, names, touched};
ghost use Rattle.tt_model.specs.Steady.{HasInHand, changes_place, leaves_in_hand};

use tt_record::Entry;
use tt_set::Settings;
use tt_value::Position;

/// Whether an entry ends a transaction: its commit or its abort does, and a mark ends each.
pub fn ends_transaction(entry: &Entry, transaction: u64) -> bool
    ensures ends { result ≡ ends transaction entry.now }
    ensures mark { entry.now ≡ Entry.Mark → IsTrue result }
{
    match entry {
        Entry::Commit { transaction: ended } => *ended == transaction,
        Entry::Abort { transaction: ended } => *ended == transaction,
        Entry::Mark => true,
        _ => false,
    }
}

/// The next transaction's number once an entry is in the log: it is above the entry's number.
pub fn next_number(next: u64, entry: &Entry) -> u64
    requires { IsEntry entry.now }
    ensures next { result ≡ max (after_number entry.now) next }
    ensures onward { next ≤ result }
{
    let after = match entry {
        Entry::Change { transaction, .. } => *transaction + 1,
        Entry::Commit { transaction } => *transaction + 1,
        Entry::Abort { transaction } => *transaction + 1,
        Entry::Mark => 0,
        Entry::Switch { .. } => 0,
    };
    after.max(next)
}

/// Whether an entry of a length forces all entries before it: where it begins a new file, or where the lengths of the
/// unforced entries and its own together pass the buffer's size. `end` is the end of the log.
pub fn forces_earlier(settings: &Settings, end: Position, unforced: u64, length: u64) -> bool
    requires room { unforced + length < 2 ^ 64 }
    requires offset { end.offset + length < 2 ^ 64 }
    ensures forces { result ≡ forces_earlier settings.now.log_file_size settings.now.log_buf_size end unforced length }
{
    let begins_file = u64::from(end.offset) + length > u64::from(settings.log_file_size);
    begins_file || unforced + length > u64::from(settings.log_buf_size)
}

/// Whether a change counts at a place once a commit of this transaction stands behind it. One of another transaction
/// doesn't, and leaves what is there.
pub fn counts_at_commit(entry: &Entry, transaction: u64, place: u32) -> bool
    ensures counts { result ≡ names transaction place entry.now }
    ensures others { (cells : Cells) → result ≡ false → changed transaction entry.now cells place ≡ cells place }
{
    match entry {
        Entry::Change {
            transaction: changed_by,
            place: changed,
            ..
        } => *changed_by == transaction && *changed == place,
        _ => false,
    }
}

/// Whether an entry is a change of this transaction.
pub fn is_change_of(entry: &Entry, transaction: u64) -> bool
    ensures { result ≡ is_change_of transaction entry.now }
{
    match entry {
        Entry::Change {
            transaction: own,
            ..
        } => *own == transaction,
        _ => false,
    }
}

/// Where the first entry of a transaction stands once an entry stands at a position. While the transaction is live, Low
/// of the end isn't behind it.
pub fn first_entry_with(
    first: Option<Position>,
    entry: &Entry,
    transaction: u64,
    at: Position,
) -> Option<Position>
    ensures one_more { result ≡ older_or first (is_change_of transaction entry.now) at }
    ensures first { (older : Trail) → first_entry transaction older ≡ first → first_entry transaction (record { at = at; entry = entry.now } ∷ older) ≡ result }
    ensures low { (older : Trail) (p : Position) → first_entry transaction older ≡ first → is_live transaction (record { at = at; entry = entry.now } ∷ older) ≡ true → result ≡ Some p → position_lt p (low (placed_end (record { at = at; entry = entry.now })) (record { at = at; entry = entry.now } ∷ older)) ≡ false }
{
    match first {
        Some(older) => Some(older),
        None => {
            if is_change_of(entry, transaction) {
                Some(at)
            } else {
                None
            }
        }
    }
}

/// Whether an entry changes this place.
pub fn changes_place(entry: &Entry, place: u32) -> bool
    ensures { result ≡ changes_place place entry.now }
{
    match entry {
        Entry::Change { place: changed, .. } => *changed == place,
        _ => false,
    }
}

/// Whether an entry leaves a place in the hand of its holder, the live transaction that has changed it: unless it ends
/// that transaction.
pub fn leaves_in_hand(entry: &Entry, holder: Option<u64>) -> bool
    ensures { result ≡ leaves_in_hand holder entry.now }
{
    match holder {
        Some(transaction) => !ends_transaction(entry, transaction),
        None => false,
    }
}

/// Whether a place is in use once an entry is in the log. `holder` is the live transaction that has changed the place,
/// where one has, and `full` says whether a row is committed there once the entry is in the log.
pub fn in_use_after(entry: &Entry, place: u32, holder: Option<u64>, full: bool) -> bool
    ensures used { (cells : Cells) (older : Trail) → HasInHand holder place older → full ≡ is_full (cells place) → ((t : ℕ) → is_live t older ≡ false → touched t place older ≡ false) → (at : Position) → in_use cells (record { at = at; entry = entry.now } ∷ older) place ≡ result }
{
    if full {
        return true;
    }
    changes_place(entry, place) || leaves_in_hand(entry, holder)
}
