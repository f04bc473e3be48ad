//! Entries appended to the log, and their force, by one call. It takes no memory; where a call of the volume fails it makes no other, and a
//! crash leaves a prefix of the entries.
ghost use Rattle.std.specs.Prelude.{◌≡◌, [], ◌∷◌, ℕ, List, map, true, OnOk};
ghost use Rattle.tt_journal.specs.Calls.{LeadsOn};
ghost use Rattle.tt_log.specs.Calls.{IsOpenOn};
ghost use Rattle.tt_disk.specs.Faults.{HasCause};
ghost use Rattle.tt_record.specs.Entry.{length_of};
ghost use Rattle.tt_log.specs.Log.{IsOpen, write_position_of, file_size_of};
ghost use Rattle.tt_model.specs.Entries.{IsPlain};
ghost use Rattle.tt_model.specs.State.{all_forced, lengths_fit, with_entry};
ghost use Rattle.tt_model.specs.Works.{performed, with_entries, Work};
ghost use Rattle.tt_journal.specs.Journal.{CanFollow, Performs, LeavesRoom, written};

use crate::entries::Entries;
use tt_disk::{Failed, Volume};
use tt_log::Log;
use tt_record::Entry;

// Appends an entry.
fn add<V: Volume>(log: &mut Log, volume: &mut V, entry: Entry) -> Result<(), Failed>
    requires entry { IsPlain entry }
    requires place { lengths_fit (file_size_of log.old) (write_position_of log.old) (length_of entry ∷ []) ≡ true }
    requires open { IsOpenOn V.Volume log.old volume.old }
    ensures performed { LeadsOn V.Volume log.old volume.old log.new volume.new (with_entry entry) result }
    ensures rest { OnOk result (LeavesRoom log.old (length_of entry) log.new) }
    ensures cause { HasCause V.exact (V.faults volume.old) (V.faults volume.new) result }
{
    match log.append(volume, &entry) {
        Ok(_) => Ok(()),
        Err(failed) => Err(failed),
    }
}

// Forces the log.
fn force_all<V: Volume>(log: &mut Log, volume: &mut V) -> Result<(), Failed>
    requires open { IsOpenOn V.Volume log.old volume.old }
    ensures performed { LeadsOn V.Volume log.old volume.old log.new volume.new all_forced result }
    ensures cause { HasCause V.exact (V.faults volume.old) (V.faults volume.new) result }
{
    match log.force(volume) {
        Ok(()) => Ok(()),
        Err(failed) => Err(failed),
    }
}

// Appends entries, one after another.
fn add_all<V: Volume, E: Entries + Drop>(
    log: &mut Log,
    volume: &mut V,
    entries: E,
) -> Result<(), Failed>
    requires follow { CanFollow (file_size_of log.old) (write_position_of log.old) (E.left entries) }
    requires open { IsOpenOn V.Volume log.old volume.old }
    ensures performed { LeadsOn V.Volume log.old volume.old log.new volume.new (with_entries (E.left entries)) result }
    ensures cause { HasCause V.exact (V.faults volume.old) (V.faults volume.new) result }
{
    let mut entries = entries;
    'entries: while let Some(entry) = entries.next_entry() {
        match add(log, volume, entry) {
            Ok(()) => {}
            Err(failed) => return Err(failed),
        }
    }
    Ok(())
}

/// Appends entries, one after another, and then forces the log where that is asked for. It takes no memory. For each state that
/// the log stood for, it stands for the one behind the entries and the force; or, where a call failed, a crash leaves a prefix of
/// that one's trail, and the log is done with.
pub fn write<V: Volume, E: Entries + Drop>(
    log: &mut Log,
    volume: &mut V,
    entries: E,
    force: bool,
) -> Result<(), Failed>
    requires follow { CanFollow (file_size_of log.old) (write_position_of log.old) (E.left entries) }
    requires open { IsOpenOn V.Volume log.old volume.old }
    ensures performed { LeadsOn V.Volume log.old volume.old log.new volume.new
        (written (E.left entries) force) result }
    ensures cause { HasCause V.exact (V.faults volume.old) (V.faults volume.new) result }
{
    match add_all(log, volume, entries) {
        Ok(()) => {}
        Err(failed) => return Err(failed),
    }
    if !force {
        return Ok(());
    }
    match force_all(log, volume) {
        Ok(()) => Ok(()),
        Err(failed) => Err(failed),
    }
}
