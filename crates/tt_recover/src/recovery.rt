//! A log read from its beginning to its end, once. What it stands for is known only at its end: a change counts where its transaction has
//! ended well.
ghost use Rattle.std.specs.Prelude.{◌≡◌, ◌⊎◌, ◌≤◌, ◌^◌, length, IfOk, IfErr, IsErrOf, Err};
ghost use Rattle.tt_record.specs.Limits.{transactions_end};
ghost use Rattle.tt_recover.specs.Calls.{RecoversOn, RefusesOn};
ghost use Rattle.tt_disk.specs.Calls.{KeepsFiles};
ghost use Rattle.tt_disk.specs.Faults.{RoseWhere};
ghost use Rattle.tt_log.specs.declared.refusal.LogRefusal.TheVariants.{Failed, NoMemory};
ghost use Rattle.tt_log.specs.Limits.{file_least, file_most, buffer_least, buffer_most};
ghost use Rattle.tt_log.specs.Log.{IsFresh};
ghost use Rattle.tt_recover.specs.Replay.{AreInOrder};

use crate::progress::Progress;
use crate::replay::RecoveredRow;
use std::alloc::Global;
use tt_disk::Volume;
use tt_log::{Log, LogRefusal};
use tt_value::Position;

/// What opening found of a log: the log for adding to it, the rows in the order of their places, and the next transaction's number.
#[derive(Drop)]
pub struct Recovered {
    pub log: Log,
    pub rows: Vec<RecoveredRow>,
    pub next_transaction: u64,
}

/// Opens a log from the file numbered 0 on, and finds what its entries stand for. It reads each file once, and changes none. Sizes are in bytes; that of a
/// file counts its entries alone.
///
/// The first damage on the walk through the files is refused, as `Gap` or as `BadBatch`; `Failed` where a call of the volume
/// failed, and `NoMemory` where memory is wanting.
pub fn recover<V: Volume>(
    alloc: Global,
    volume: &mut V,
    log_file_size: u32,
    log_buf_size: u32,
) -> Result<Recovered, LogRefusal>
    requires file_size { (file_least ≤ log_file_size) × (log_file_size ≤ file_most) }
    requires buffer_size { (buffer_least ≤ log_buf_size) × (log_buf_size ≤ buffer_most) }
    ensures recovered { IfOk result (λ r. RecoversOn V.Volume volume.old r volume.new) }
    ensures fresh { IfOk result (λ r. IsFresh 0 log_file_size log_buf_size r.log) }
    ensures refused { RefusesOn V.Volume volume.old result }
    ensures ordered { IfOk result (λ r. AreInOrder r.rows.items) }
    ensures numbers { IfOk result (λ r. (1 ≤ r.next_transaction) × (r.next_transaction ≤ transactions_end)) }
    ensures keeps { KeepsFiles V.Volume volume.old volume.new }
    ensures cause { RoseWhere V.exact (IsErrOf result Failed) (V.faults volume.old) (V.faults volume.new) }
{
    let origin = Position { file: 0, offset: 0 };
    let mut progress = Progress::new(alloc);
    let log = match Log::start_with(
        alloc,
        volume,
        origin,
        log_file_size,
        log_buf_size,
        &mut progress,
    ) {
        Ok(log) => log,
        Err(refusal) => return Err(refusal),
    };
    let next_transaction = progress.next_transaction();
    let rows = match progress.finish() {
        Ok(rows) => rows,
        Err(_) => return Err(LogRefusal::NoMemory),
    };
    Ok(Recovered {
        log,
        rows,
        next_transaction,
    })
}
