//! How the run of a script ended, and what came of one line. The status with which a run ends is a function of the former.
ghost use Rattle.std.specs.Prelude.{◌≡◌};
ghost use Rattle.tt_run.specs.RunEnd.{status_of};

use crate::status::Status;
use tt_value::{Reply, Stop};

/// What came of a line: its reply, where it has one, and the volume of which a call failed.
#[derive(Drop)]
pub(crate) struct Round {
    pub(crate) reply: Option<Reply>,
    pub(crate) stop: Option<Stop>,
}

/// How the run of a script ended.
#[derive(Drop)]
pub(crate) enum RunEnd {
    /// Behind the last line; what the end of a script does was stopped by this volume.
    AtEnd { stop: Option<Stop> },
    /// In a line that was stopped by this volume. If the line has a reply, it was written.
    AtLine { reply: Option<Reply>, stop: Stop },
    /// At the reply to a line, which the sink took in part at most. This volume had stopped the line, too.
    AtSink { stop: Option<Stop> },
    /// Where the script couldn't be read on.
    AtScript,
    /// Where the script has more bytes than one may have.
    ScriptOver,
    /// Behind the last line, where the log has no place for what the end of a script writes.
    NoPlaceAtEnd,
}

impl RunEnd {
    /// The status of a run that ended so. Where a line was stopped and the sink failed at its reply, it names the sink.
    pub(crate) fn status(self) -> Status
        ensures { result ≡ status_of self }
    {
        match self {
            RunEnd::AtEnd { stop: None } => Status::Done,
            RunEnd::AtEnd { stop: Some(stop) } => Status::VolumeFault(stop),
            RunEnd::AtLine { stop, .. } => Status::VolumeFault(stop),
            RunEnd::AtSink { .. } => Status::SinkFault,
            RunEnd::AtScript => Status::ScriptFault,
            RunEnd::ScriptOver => Status::ScriptTooLong,
            RunEnd::NoPlaceAtEnd => Status::LogOut,
        }
    }
}
