//! The parts of the engine in memory: what a line's answer is, what it does to the log, and how they stand behind it. Nothing here
//! knows of a volume. All memory is taken before anything changes, so that a refusal leaves all as it was.
ghost use Rattle.std.specs.Prelude.{◌≡◌, ◌<◌, ◌≤◌, ◌^◌, ◌||◌, ℤ, false, Some, None, IsTrue, ◌↔◌, IfOk, IfSome};
ghost use Rattle.tt_record.specs.Limits.{transactions_end};
ghost use Rattle.std.specs.Option.{ForSome};
ghost use Rattle.tt_record.specs.declared.entry.Entry.TheVariants.{Change};
ghost use Rattle.tt_value.specs.declared.value.Cell.TheVariants.{Empty, Full};
ghost use Rattle.tt_log.specs.Log.{write_position_of, file_size_of};
ghost use Rattle.tt_journal.specs.LogTrail.{HasEnds};
ghost use Rattle.tt_journal.specs.Journal.{CanFollow, listed};
ghost use Rattle.tt_model.specs.State.{State};
ghost use Rattle.tt_engine.specs.declared.request.Request.TheVariants.{Bookmark, Commit, DurableCommit, Flush, Insert, Refused};
ghost use Rattle.tt_engine.specs.Request.{IsReplyInUse, own_number, row_of};

use crate::request::Request;
use crate::rows::{KV, Rows};
use std::alloc::{AllocError, Global};
use tt_log::Log;
use tt_record::Entry;
use tt_value::{Cell, List, Position, Refusal, Reply, Row, Value};

// No transaction has this number or one above it.
const TRANSACTIONS_END: u64 = 1 << 48;

/// What is kept in memory of the tables and of the session.
#[derive(Drop)]
pub(crate) struct Memory {
    pub(crate) durable_commits: bool,
    // The number of the next transaction.
    pub(crate) next_transaction: u64,
    // The live transaction of the session.
    pub(crate) transaction: Option<u64>,
    // Whether the session asked for a durable commit since its last one.
    pub(crate) next_commit_durable: bool,
    pub(crate) rows: Rows,
    ghost first: { 1 ≤ next_transaction },
    ghost last: { next_transaction ≤ transactions_end },
    ghost numbered: { ForSome transaction (λ t. (1 ≤ t) × (t < next_transaction)) },
}

/// A line's answer, and what it does to the log: the entry that it appends, and whether all is forced behind it.
#[derive(Drop)]
pub(crate) struct Decided {
    pub(crate) reply: Reply,
    pub(crate) entry: Option<Entry>,
    pub(crate) force: bool,
}

// An answer that leaves the log.
fn answered(reply: Reply) -> Decided
    ensures { (result.reply ≡ reply) × (result.entry ≡ None) × (result.force ≡ false) }
{
    Decided {
        reply,
        entry: None,
        force: false,
    }
}

// The Change that puts a row of kv into a place.
fn insert_entry(
    alloc: Global,
    transaction: u64,
    place: u32,
    key: i64,
    value: i64,
) -> Result<Entry, AllocError>
    ensures entry { IfOk result (λ entry. entry ≡ Change transaction place Empty (Full 16 (row_of key value))) }
{
    let values = vec![in alloc; Value::Int(key), Value::Int(value)]?;
    let row = Row {
        values: List::from_vec(values),
    };
    Ok(Entry::Change {
        transaction,
        place,
        before: Cell::Empty,
        after: Cell::Full { table: KV, row },
    })
}

impl Memory {
    ghost use Rattle.tt_engine.specs.Memory.{InMemory, IsDecided, IsInsert, IsOwnChange, Decides, IsEnding, KeepsRest};

    // The number that the session's next change has; `None` where no transaction can begin.
    fn change_number(&self) -> Option<u64>
        ensures number { result ≡ own_number self.now.transaction self.now.next_transaction }
        ensures range { IfSome result (λ t. (1 ≤ t) × (t < transactions_end)) }
    {
        match self.transaction {
            Some(transaction) => Some(transaction),
            None => {
                if self.next_transaction < TRANSACTIONS_END {
                    return Some(self.next_transaction);
                }
                None
            }
        }
    }

    // Puts a row of kv into the free place, by a Change that is given.
    fn change(&mut self, log: &Log, entry: Entry, transaction: u64, key: i64) -> Decided
        requires own { IsOwnChange self.old transaction entry }
        ensures decided { (s : State) (value : ℤ) → HasEnds log.now s → InMemory self.old s
            → IsInsert s self.old transaction key value entry → IsDecided (Insert key value) s result self.new }
        ensures follow { CanFollow (file_size_of log.now) (write_position_of log.now) (listed result.entry) }
        ensures given { IsReplyInUse result.reply }
    {
        if !log.has_place(&entry) {
            return answered(Reply::Refused(Refusal::LogOut));
        }
        match self.rows.take(key) {
            Ok(()) => {}
            Err(_) => return answered(Reply::Refused(Refusal::NoMemory)),
        }
        self.transaction = Some(transaction);
        self.next_transaction = self.next_transaction.max(transaction + 1);
        Decided {
            reply: Reply::Changed(1),
            entry: Some(entry),
            force: false,
        }
    }

    fn insert(&mut self, alloc: Global, log: &Log, key: i64, value: i64) -> Decided
        ensures decided { Decides log.now self.old (Insert key value) result self.new }
        ensures follow { CanFollow (file_size_of log.now) (write_position_of log.now) (listed result.entry) }
        ensures given { IsReplyInUse result.reply }
    {
        if self.rows.has_key(key) {
            return answered(Reply::Refused(Refusal::DuplicateKey));
        }
        let Some(transaction) = self.change_number() else {
            return answered(Reply::Refused(Refusal::LogOut));
        };
        let Some(place) = self.rows.free_place() else {
            return answered(Reply::Refused(Refusal::NoMemory));
        };
        match insert_entry(alloc, transaction, place, key, value) {
            Ok(entry) => self.change(log, entry, transaction, key),
            Err(_) => answered(Reply::Refused(Refusal::NoMemory)),
        }
    }

    // The end of a transaction, by this entry: the log is forced where the commit is durable, and the wish for that ends.
    fn ended(&mut self, entry: Option<Entry>) -> Decided
        ensures work { IsEnding self.old entry result }
        ensures own { (self.new.transaction ≡ None) × (self.new.next_commit_durable ≡ false) }
        ensures unchanged { KeepsRest self.old self.new }
    {
        let force = self.durable_commits || self.next_commit_durable;
        self.transaction = None;
        self.next_commit_durable = false;
        Decided {
            reply: Reply::Done,
            entry,
            force,
        }
    }

    fn commit(&mut self, log: &Log) -> Decided
        ensures decided { Decides log.now self.old Commit result self.new }
        ensures follow { CanFollow (file_size_of log.now) (write_position_of log.now) (listed result.entry) }
        ensures given { IsReplyInUse result.reply }
    {
        let Some(transaction) = self.transaction else {
            return self.ended(None);
        };
        let entry = Entry::Commit { transaction };
        if !log.has_place(&entry) {
            return answered(Reply::Refused(Refusal::LogOut));
        }
        self.ended(Some(entry))
    }

    // Wishes that the next commit is durable.
    fn make_next_durable(&mut self) -> Decided
        ensures decided { (s : State) → InMemory self.old s → IsDecided DurableCommit s result self.new }
        ensures entry { result.entry ≡ None }
        ensures given { IsReplyInUse result.reply }
    {
        self.next_commit_durable = true;
        answered(Reply::Done)
    }

    // The positions of the log. No checkpoint file holds a later one than its beginning.
    fn positions(&self, log: &Log) -> Decided
        ensures decided { Decides log.now self.now Bookmark result self.now }
        ensures entry { result.entry ≡ None }
        ensures given { IsReplyInUse result.reply }
    {
        answered(Reply::Positions {
            write: log.write_position(),
            force: log.force_position(),
            hold: Position { file: 0, offset: 0 },
        })
    }

    /// Decides a line: its answer, and what it does to the log. The memory stands behind the line from then on; after a refusal,
    /// want of memory too, it is as it was.
    pub(crate) fn decide(&mut self, alloc: Global, log: &Log, request: Request) -> Decided
        ensures decided { Decides log.now self.old request result self.new }
        ensures follow { CanFollow (file_size_of log.now) (write_position_of log.now) (listed result.entry) }
        ensures given { IsReplyInUse result.reply }
    {
        match request {
            Request::Insert { key, value } => self.insert(alloc, log, key, value),
            Request::Commit => self.commit(log),
            Request::Flush => Decided {
                reply: Reply::Done,
                entry: None,
                force: true,
            },
            Request::DurableCommit => self.make_next_durable(),
            Request::Bookmark => self.positions(log),
            Request::Refused(refusal) => answered(Reply::Refused(refusal)),
        }
    }
}
