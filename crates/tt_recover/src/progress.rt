//! The entries of a log that were read so far.
ghost use Rattle.std.specs.Prelude.{◌≡◌, ◌≤◌, ◌^◌, [], ℕ, IfOk};
ghost use Rattle.tt_record.specs.Limits.{transactions_end};
ghost use Rattle.tt_model.specs.Trail.{Trail};

use crate::replay::{RecoveredRow, Replay};
use std::alloc::{AllocError, Global};
use tt_log::EntryVisitor;
use tt_model::next_number;
use tt_record::Entry;
use tt_value::Position;

// The entries that were read so far: what they leave, and the next transaction's number.
#[derive(Drop)]
pub(crate) struct Progress {
    replay: Replay,
    next: u64,
    ghost least: { 1 ≤ next },
    ghost most: { next ≤ transactions_end },
}

impl Progress {
    ghost use Rattle.tt_model.specs.Committed.{no_cells};
    ghost use Rattle.tt_model.specs.Standing.{standing};
    ghost use Rattle.tt_recover.specs.Progress.{HasRead};
    ghost use Rattle.tt_recover.specs.Replay.{AreInOrder, cell_shown, ShowTrail};

    // Without an entry.
    pub(crate) fn new(alloc: Global) -> Progress
        ensures { HasRead result [] }
    {
        Progress {
            replay: Replay::new(alloc),
            next: 1,
        }
    }

    // The number of the next transaction.
    pub(crate) fn next_transaction(&self) -> u64
        ensures next { result ≡ self.now.next }
        ensures range { (1 ≤ result) × (result ≤ transactions_end) }
    {
        self.next
    }

    // The rows that lie in places.
    pub(crate) fn finish(self) -> Result<Vec<RecoveredRow>, AllocError>
        ensures found { (trail : Trail) → HasRead self trail → IfOk result (λ rows. ShowTrail rows.items trail) }
        ensures ordered { IfOk result (λ rows. AreInOrder rows.items) }
    {
        let Progress { replay, next: _ } = self;
        replay.finish()
    }
}

impl EntryVisitor for Progress {
    ghost use Rattle.tt_recover.specs.Opening.{newest_first};
    ghost use Rattle.tt_recover.specs.Progress.{HasRead};

    ghost visited = { λ progress ps. HasRead progress (newest_first ps) };

    fn visit(&mut self, _: Position, entry: Entry) -> Result<(), AllocError> {
        let next = next_number(self.next, &entry);
        self.replay.take(entry)?;
        self.next = next;
        Ok(())
    }
}
