//! What the entries of a log leave in the places: the last change of each by a transaction that has ended well.
ghost use Rattle.std.specs.Prelude.{◌≡◌, ◌∷◌, [], OnOk, OnErr, IfOk, ℕ, None, unwrap_or};
ghost use Rattle.tt_value.specs.declared.position.Position.{Position};
ghost use Rattle.tt_value.specs.declared.value.Cell.TheVariants.{Empty};
ghost use Rattle.tt_model.specs.Trail.{Trail};
ghost use Rattle.tt_model.specs.Committed.{no_cells};
ghost use Rattle.tt_model.specs.Standing.{standing};
ghost use Rattle.tt_recover.specs.Replay.{HasTaken, AreInOrder, cell_shown, changes_in, laid, laid_one, rows_in, ShowTrail};
ghost use Rattle.std.specs.BTreeMap.{get};
ghost use Rattle.std.specs.BTreeSet.{contains};
ghost use Rattle.std.specs.Ordering.{nat_cmp};

use std::alloc::{AllocError, Global};
use std::collections::{BTreeMap, BTreeSet};
use tt_record::Entry;
use tt_value::{Cell, Row};

/// A row that was found in a place: `place` is its number, `table` the id of its table.
#[derive(Debug, Drop)]
pub struct RecoveredRow {
    pub place: u32,
    pub table: u32,
    pub row: Row,
}

// A change as its entry says it.
#[derive(Debug, Drop)]
struct TakenChange {
    transaction: u64,
    place: u32,
    before: Cell,
    after: Cell,
}

/// The entries of a log that were taken so far, the oldest first. It finds the rows that they stand for.
#[derive(Drop)]
pub struct Replay {
    // The changes, the oldest first.
    changes: Vec<TakenChange>,
    // The transactions with a commit or an abort.
    ended: BTreeSet<u64>,
}

// Lays a change over the cells of the places: an after of an ended transaction, or the first before of one that isn't.
fn lay(
    cells: &mut BTreeMap<u32, Cell>,
    ended: &BTreeSet<u64>,
    change: TakenChange,
) -> Result<(), AllocError>
    ensures laid { OnOk result ((q : ℕ) → get nat_cmp cells.new q ≡ laid_one (contains nat_cmp ended.now) q (get nat_cmp cells.old q) change) }
{
    let TakenChange {
        transaction,
        place,
        before,
        after,
    } = change;
    if ended.contains(&transaction) {
        cells.insert(place, after)?;
    } else if !cells.contains_key(&place) {
        cells.insert(place, before)?;
    }
    Ok(())
}

// The cells that changes leave in the places that they name.
fn lay_all(
    alloc: Global,
    changes: Vec<TakenChange>,
    ended: &BTreeSet<u64>,
) -> Result<BTreeMap<u32, Cell>, AllocError>
    ensures laid { IfOk result (λ cells. (q : ℕ) → get nat_cmp cells q ≡ laid (contains nat_cmp ended.now) q None changes.items) }
{
    let mut cells = BTreeMap::new(alloc);
    for change in changes {
        lay(&mut cells, ended, change)?;
    }
    Ok(cells)
}

// The rows in the cells.
fn rows_of(alloc: Global, cells: BTreeMap<u32, Cell>) -> Result<Vec<RecoveredRow>, AllocError>
    ensures shown { IfOk result (λ rows. (q : ℕ) → cell_shown rows.items q ≡ unwrap_or (get nat_cmp cells q) Empty) }
    ensures ordered { IfOk result (λ rows. AreInOrder rows.items) }
{
    let mut rows = Vec::new(alloc);
    for (place, cell) in cells {
        if let Cell::Full { table, row } = cell {
            rows.push(RecoveredRow { place, table, row })?;
        }
    }
    Ok(rows)
}

impl Replay {
    /// Without an entry. It takes no memory.
    pub fn new(alloc: Global) -> Replay
        ensures { HasTaken result [] }
    {
        Replay {
            changes: Vec::new(alloc),
            ended: BTreeSet::new(alloc),
        }
    }

    /// Takes one more entry. Marks and switches count for nothing. Where memory is wanting, it stands for what it stood for.
    pub fn take(&mut self, entry: Entry) -> Result<(), AllocError>
        ensures taken { (trail : Trail) (at : Position) → HasTaken self.old trail → OnOk result (HasTaken self.new (record { at = at; entry = entry } ∷ trail)) }
        ensures still { (trail : Trail) → HasTaken self.old trail → OnErr result (HasTaken self.new trail) }
    {
        match entry {
            Entry::Change {
                transaction,
                place,
                before,
                after,
            } => {
                self.changes.push(TakenChange {
                    transaction,
                    place,
                    before,
                    after,
                })?;
            }
            Entry::Commit { transaction } => {
                self.ended.insert(transaction)?;
            }
            Entry::Abort { transaction } => {
                self.ended.insert(transaction)?;
            }
            Entry::Mark => {}
            Entry::Switch { file: _ } => {}
        }
        Ok(())
    }

    /// The rows that the entries leave in places, behind an image without a row: at each place the last row after of an ended
    /// transaction, else the first row before of one that isn't. They are in the order of their places.
    pub fn finish(self) -> Result<Vec<RecoveredRow>, AllocError>
        ensures found { (trail : Trail) → HasTaken self trail → IfOk result (λ rows. ShowTrail rows.items trail) }
        ensures ordered { IfOk result (λ rows. AreInOrder rows.items) }
    {
        let Replay { changes, ended } = self;
        let alloc = *changes.allocator();
        let cells = lay_all(alloc, changes, &ended)?;
        rows_of(alloc, cells)
    }
}
