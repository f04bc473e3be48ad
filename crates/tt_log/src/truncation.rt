//! The removal of log files that nothing holds, the least number first: so what a crash leaves has no gap.
ghost use Rattle.std.specs.Prelude.{◌≤◌, OnOk};
ghost use Rattle.tt_gate.specs.Calls.{HasCauseOn};
ghost use Rattle.tt_log.specs.Calls.{HasNoLogOn, ChangesLogsOn, GoneInOrderOn, CrashRemovesLogsOn};
ghost use Rattle.tt_log.specs.Limits.{log_names_end};

use tt_disk::{Failed, Name, Volume};

// Removes the log files of these numbers, the least first.
pub(crate) fn remove_logs<V: Volume>(volume: &mut V, from: u32, end: u64) -> Result<(), Failed>
    requires { end ≤ log_names_end }
    ensures gone { OnOk result (HasNoLogOn V.Volume from end volume.new) }
    ensures others { ChangesLogsOn V.Volume from end volume.old volume.new }

    // However it ends, they went in ascending order.
    ensures ascending { GoneInOrderOn V.Volume from end volume.old volume.new }
    ensures crash { CrashRemovesLogsOn V.Volume volume.old volume.new }
    ensures cause { HasCauseOn V.Volume volume.old volume.new result }
{
    let mut at = from as u64;
    'logs: while at < end {
        let Some(n) = volume.next_log(at as u32)? else {
            return Ok(());
        };
        if n as u64 >= end {
            return Ok(());
        }
        volume.remove(Name::Log(n))?;
        at = n as u64 + 1;
    }
    Ok(())
}
