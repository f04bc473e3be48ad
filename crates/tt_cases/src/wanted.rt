//! Whether a run came to what its case wants.
ghost use Rattle.std.specs.Prelude.{◌≡◌, OnOk, string_bytes};

use crate::fault::Trouble;
use crate::files::Volumes;
use crate::model::{Device, FileWant, Outcome, Run, Standing};
use crate::text::shown;
use std::alloc::{AllocError, Global};

/// What a run came to.
#[derive(Drop)]
pub struct Ended {
    pub output: Vec<u8>,
    /// The status with its number.
    pub status: String,
}

impl Ended {
    /// How many whole lines it wrote.
    pub fn answered(&self) -> u64 {
        let mut count = 0u64;
        for byte in self.output.as_slice() {
            if *byte == b'\n' {
                count = count.saturating_add(1);
            }
        }
        count
    }
}

/// The status of a run whose device failed.
pub fn failed_status(device: Device) -> &'static str {
    match device {
        Device::Script => "1 ScriptFault",
        Device::Attributes => "1 AttributesFault",
        Device::Sink => "2 SinkFault",
        Device::Logs => "3 VolumeFault Logs",
        Device::Images => "3 VolumeFault Images",
        Device::Backups => "3 VolumeFault Backups",
    }
}

/// That one of the outcomes came that are right after so many replies before the last crash.
pub fn check_outcomes(
    alloc: Global,
    run: &Run,
    ended: &Ended,
    volumes: &Volumes,
    answered: u64,
) -> Result<(), Trouble> {
    let mut first = None;
    for outcome in run.outcomes.as_slice() {
        if is_foreseen(outcome, answered) {
            match check_outcome(alloc, run.line, outcome, ended, volumes) {
                Ok(()) => return Ok(()),
                Err(trouble) => first = Some(first.unwrap_or(trouble)),
            }
        }
    }
    Err(first.unwrap_or(Trouble::Unforeseen {
        line: run.line,
        answered,
    }))
}

fn is_foreseen(outcome: &Outcome, answered: u64) -> bool {
    match outcome.answered {
        Some((least, greatest)) => least <= answered && answered <= greatest,
        None => true,
    }
}

fn check_outcome(
    alloc: Global,
    line: u64,
    outcome: &Outcome,
    ended: &Ended,
    volumes: &Volumes,
) -> Result<(), Trouble> {
    check_output(alloc, line, &ended.output, &outcome.output)?;
    let status = match &outcome.status {
        Some(status) => status.as_str(),
        None => "0 Done",
    };
    check_status(alloc, line, ended, status)?;
    for want in outcome.files.as_slice() {
        check_file(alloc, want, volumes)?;
    }
    Ok(())
}

/// That a run whose device failed has the status of that, and wrote a front of the replies wanted: whole lines, but to a
/// sink that failed.
pub fn check_failed(
    alloc: Global,
    run: &Run,
    device: Device,
    ended: &Ended,
) -> Result<(), Trouble> {
    check_status(alloc, run.line, ended, failed_status(device))?;
    for outcome in run.outcomes.as_slice() {
        if is_front(&ended.output, &outcome.output, device) {
            return Ok(());
        }
    }
    Err(Trouble::Front {
        line: run.line,
        wrote: shown(alloc, &ended.output)?,
    })
}

fn is_front(wrote: &[u8], wanted: &[u8], device: Device) -> bool {
    let is_whole = match wrote.last() {
        Some(byte) => *byte == b'\n' || device == Device::Sink,
        None => true,
    };
    is_whole && wanted.starts_with(wrote)
}

fn check_status(alloc: Global, line: u64, ended: &Ended, wanted: &str) -> Result<(), Trouble>
    ensures { OnOk result (string_bytes ended.now.status ≡ wanted.now) }
{
    if ended.status.as_str() == wanted {
        return Ok(());
    }
    Err(Trouble::Ending {
        line,
        ended: ended.status.clone()?,
        wanted: String::from_str(alloc, wanted)?,
    })
}

fn check_output(alloc: Global, line: u64, wrote: &[u8], wanted: &[u8]) -> Result<(), Trouble>
    ensures { OnOk result (wrote.now ≡ wanted.now) }
{
    if wrote == wanted {
        return Ok(());
    }
    Err(first_difference(alloc, line, wrote, wanted)?)
}

// The first line that differs, or the first after both where none does.
fn first_difference(
    alloc: Global,
    line: u64,
    wrote: &[u8],
    wanted: &[u8],
) -> Result<Trouble, AllocError> {
    let mut wrote = wrote.split_inclusive(|byte| *byte == b'\n');
    let mut wanted = wanted.split_inclusive(|byte| *byte == b'\n');
    for number in 1..u64::MAX {
        let (wrote, wanted) = (wrote.next(), wanted.next());
        if wrote != wanted || wrote.is_none() {
            return Ok(Trouble::Reply {
                line,
                number,
                wrote: shown(alloc, wrote.unwrap_or(b""))?,
                wanted: shown(alloc, wanted.unwrap_or(b""))?,
            });
        }
    }
    Ok(Trouble::Reply {
        line,
        number: u64::MAX,
        wrote: String::new(alloc),
        wanted: String::new(alloc),
    })
}

fn check_file(alloc: Global, want: &FileWant, volumes: &Volumes) -> Result<(), Trouble> {
    let bytes = volumes.read(alloc, want.name)?;
    let is_right = match (&want.standing, &bytes) {
        (Standing::Absent, None) => true,
        (Standing::Size(size), Some(bytes)) => bytes.len() as u64 == *size,
        (Standing::Bytes(wanted), Some(bytes)) => bytes.as_slice() == wanted.as_slice(),
        _ => false,
    };
    if is_right {
        return Ok(());
    }
    Err(Trouble::Standing {
        line: want.line,
        found: match &bytes {
            Some(bytes) => {
                let count = bytes.len();
                let bytes = shown(alloc, bytes)?;
                format!(in alloc; "`{bytes}`, of {count} bytes")?
            }
            None => String::from_str(alloc, "absent")?,
        },
    })
}
