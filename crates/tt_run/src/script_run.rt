//! A script that is being done. A line is read, done by the engine, and its reply is written; behind the last line the log is forced.
//! The run ends at the first call that fails.
ghost use Rattle.std.specs.Prelude.{◌≡◌, ◌<◌, Result, Option, Some, None, IfOk, IfNone, IfSome};
ghost use Rattle.tt_flow.specs.Lines.{bytes_to_come};
ghost use Rattle.tt_engine.specs.Request.{IsReplyInUse};
ghost use Rattle.tt_log.specs.Calls.{IsOpenOn};
ghost use Rattle.tt_run.specs.Devices.{KeepsRest, SinkFaults, SourceFaults, VolumeFaults};
ghost use Rattle.tt_run.specs.RunEnd.{status_of};
ghost use Rattle.tt_run.specs.ScriptRun.{DoesScript, IsRunEnd};

use crate::devices::Devices;
use crate::reply::reply_text;
use crate::request::read_request;
use crate::run_end::{Round, RunEnd};
use crate::status::Status;
use std::alloc::Global;
use tt_disk::{Failed, Volume};
use tt_engine::{Engine, Request};
use tt_flow::{LineBuf, LineRead, LineReader, Sink, Source};
use tt_value::{Refusal, Reply, Stop};

// What comes next in a script.
pub(crate) enum NextLine {
    /// A line that is answered, by what it asks for.
    Asks(Request),
    /// A blank line, or a comment.
    Skipped,
    End,
    ScriptTooLong,
}

/// Does the lines of a script on an open database, up to the first that fails, and forces the log at the end.
pub(crate) fn do_script<S: Source, A, K: Sink, L: Volume, C, B>(
    alloc: Global,
    engine: Engine,
    devices: &mut Devices<S, A, K, L, C, B>,
) -> RunEnd
    requires open { IsOpenOn L.Volume engine.log devices.old.logs }
    ensures ran { DoesScript S.Source K.Sink L.Volume engine devices.old devices.new result }
    ensures ends { IsRunEnd result }
    ensures rest { KeepsRest devices.old devices.new }
    ensures script_fault { SourceFaults S.Source Status.ScriptFault devices.old.script devices.new.script (status_of result) }
    ensures sink_fault { SinkFaults K.Sink devices.old.sink devices.new.sink (status_of result) }
    ensures logs_fault { VolumeFaults L.Volume Stop.Logs devices.old.logs devices.new.logs (status_of result) }
{
    let mut run = ScriptRun::new(alloc, engine, devices);
    let end = run.do_lines();
    // What the borrowed devices came to is known where the run is taken apart, and not where it is dropped.
    let ScriptRun {
        alloc: _alloc,
        engine: _engine,
        reader: _reader,
        line: _line,
        devices: _devices,
    } = run;
    end
}

// A script that is being done on an open database.
struct ScriptRun<'a, S, A, K, L, C, B> {
    alloc: Global,
    engine: Engine,
    reader: LineReader,
    line: LineBuf,
    devices: &'a mut Devices<S, A, K, L, C, B>,
}

impl<'a, S: Source, A, K: Sink, L: Volume, C, B> ScriptRun<'a, S, A, K, L, C, B> {
    ghost use Rattle.tt_run.specs.Devices.{KeepsRest};
    ghost use Rattle.tt_run.specs.RunEnd.{status_of};
    ghost use Rattle.tt_run.specs.ScriptRun.{DoesLine, DoesLines, EndsScript, EndsWith, HasScriptCause, HasSinkCause, IsAtStart, IsEnd, IsLine, IsReady, IsRunEnd, KeepsReferences, LogsRose, MakesRound, OnlyLogs, OnlyScript, OnlySink, PutsReply, ReadsNext, RepliesRose, ScriptRose, WritesIn, round};
    ghost use Rattle.tt_run.specs.declared.status.Status.TheVariants.{ScriptFault, SinkFault, VolumeFault};
    ghost use Rattle.tt_value.specs.declared.reply.Stop.TheVariants.{Logs};

    // A run of which no line was done yet.
    fn new(
        alloc: Global,
        engine: Engine,
        devices: &'a mut Devices<S, A, K, L, C, B>,
    ) -> ScriptRun<'a, S, A, K, L, C, B>
        ensures same_devices { result.devices.ghost_name ≡ devices.entry.ghost_name }
        ensures devices { result.devices.now ≡ devices.old }
        ensures engine { result.engine ≡ engine }
        ensures start { IsAtStart result.reader }
    {
        ScriptRun {
            alloc,
            engine,
            reader: LineReader::new(),
            line: LineBuf::new(),
            devices,
        }
    }

    // Does the lines of the script, up to the first that fails, and forces the log at the end.
    fn do_lines(&mut self) -> RunEnd
        requires open { IsReady L.Volume self.old }
        requires start { IsAtStart self.old.reader }
        ensures ran { DoesLines S.Source K.Sink L.Volume self.old self.new result }
        ensures ends { IsRunEnd result }
        ensures same_devices { self.new.devices.ghost_name ≡ self.old.devices.ghost_name }
        ensures rest { KeepsRest self.old.devices.now self.new.devices.now }
        ensures script_fault { ScriptRose S.Source (status_of result ≡ ScriptFault) self.old self.new }
        ensures sink_fault { RepliesRose K.Sink (status_of result ≡ SinkFault) self.old self.new }
        ensures logs_fault { LogsRose L.Volume (status_of result ≡ VolumeFault Logs) self.old self.new }
    {
        'lines: loop {
            match self.do_line() {
                Some(end) => return end,
                None => {}
            }
        }
    }

    // Does the next line; answers how the run ends where it ends with it.
    fn do_line(&mut self) -> Option<RunEnd>
        requires open { IsReady L.Volume self.old }
        ensures open { IfNone result (IsReady L.Volume self.new) }
        ensures step { DoesLine S.Source K.Sink L.Volume self.old self.new result }
        ensures fewer { IfNone result (bytes_to_come self.new.reader < bytes_to_come self.old.reader) }
        ensures ends { IfSome result IsRunEnd }
        ensures references { KeepsReferences self.old self.new }
        ensures rest { KeepsRest self.old.devices.now self.new.devices.now }
        ensures script_fault { ScriptRose S.Source (EndsWith ScriptFault result) self.old self.new }
        ensures sink_fault { RepliesRose K.Sink (EndsWith SinkFault result) self.old self.new }
        ensures logs_fault { LogsRose L.Volume (EndsWith (VolumeFault Logs) result) self.old self.new }
    {
        let request = match self.next_line() {
            Ok(NextLine::Asks(request)) => request,
            Ok(NextLine::Skipped) => return None,
            Ok(NextLine::End) => return Some(self.end_script()),
            Ok(NextLine::ScriptTooLong) => return Some(RunEnd::ScriptOver),
            Err(_) => return Some(RunEnd::AtScript),
        };
        let round = self.round_of(request);
        self.write_round(round)
    }

    // Reads the next line.
    fn next_line(&mut self) -> Result<NextLine, Failed>
        ensures read { ReadsNext S.Source self.old self.new result }
        ensures fewer { IfOk result (λ next. IsLine next → bytes_to_come self.new.reader < bytes_to_come self.old.reader) }
        ensures rest { OnlyScript self.old self.new }
        ensures references { KeepsReferences self.old self.new }
        ensures cause { HasScriptCause S.Source self.old self.new result }
    {
        match self.reader.next(&mut self.devices.script, &mut self.line) {
            Ok(LineRead::Line) => Ok(match read_request(self.alloc, self.line.line()) {
                Some(request) => NextLine::Asks(request),
                None => NextLine::Skipped,
            }),
            Ok(LineRead::TooLong) => Ok(NextLine::Asks(Request::Refused(Refusal::LineTooLong))),
            Ok(LineRead::End) => Ok(NextLine::End),
            Ok(LineRead::ScriptTooLong) => Ok(NextLine::ScriptTooLong),
            Err(failed) => Err(failed),
        }
    }

    // Does what a line asks for.
    fn round_of(&mut self, request: Request) -> Round
        requires open { IsReady L.Volume self.old }
        ensures made { MakesRound L.Volume request self.old self.new result }
        ensures given { IfSome result.reply IsReplyInUse }
        ensures rest { OnlyLogs self.old self.new }
        ensures references { KeepsReferences self.old self.new }
        ensures fault { LogsRose L.Volume (result.stop ≡ Some Logs) self.old self.new }
    {
        match self
            .engine
            .step(self.alloc, &mut self.devices.logs, request)
        {
            Ok(reply) => Round {
                reply: Some(reply),
                stop: None,
            },
            Err(_) => Round {
                reply: None,
                stop: Some(Stop::Logs),
            },
        }
    }

    // Writes the reply of a round; answers how the run ends where it ends with it.
    fn write_round(&mut self, round: Round) -> Option<RunEnd>
        requires { IfSome round.reply IsReplyInUse }
        ensures written { WritesIn K.Sink round self.old self.new result }
        ensures rest { OnlySink self.old self.new }
        ensures references { KeepsReferences self.old self.new }
        ensures fault { RepliesRose K.Sink (EndsWith SinkFault result) self.old self.new }
    {
        let Round { reply, stop } = round;
        match stop {
            Some(stop) => Some(self.write_stopped(reply, stop)),
            None => self.write_reply(reply),
        }
    }

    // Writes the reply of a line that was stopped, if it has one. Where the sink fails, too, the run ends with the sink.
    fn write_stopped(&mut self, reply: Option<Reply>, stop: Stop) -> RunEnd
        requires { IfSome reply IsReplyInUse }
        ensures written { WritesIn K.Sink (round reply (Some stop)) self.old self.new (Some result) }
        ensures rest { OnlySink self.old self.new }
        ensures references { KeepsReferences self.old self.new }
        ensures fault { RepliesRose K.Sink (EndsWith SinkFault (Some result)) self.old self.new }
    {
        let reply = match reply {
            Some(reply) => reply,
            None => return RunEnd::AtLine { reply: None, stop },
        };
        match self.put_reply(&reply) {
            Ok(()) => RunEnd::AtLine {
                reply: Some(reply),
                stop,
            },
            Err(_) => RunEnd::AtSink { stop: Some(stop) },
        }
    }

    // Writes the reply of a line that wasn't stopped.
    fn write_reply(&mut self, reply: Option<Reply>) -> Option<RunEnd>
        requires { IfSome reply IsReplyInUse }
        ensures written { WritesIn K.Sink (round reply None) self.old self.new result }
        ensures rest { OnlySink self.old self.new }
        ensures references { KeepsReferences self.old self.new }
        ensures fault { RepliesRose K.Sink (EndsWith SinkFault result) self.old self.new }
    {
        let reply = match reply {
            Some(reply) => reply,
            None => return None,
        };
        match self.put_reply(&reply) {
            Ok(()) => None,
            Err(_) => Some(RunEnd::AtSink { stop: None }),
        }
    }

    // Writes the text of a reply.
    fn put_reply(&mut self, reply: &Reply) -> Result<(), Failed>
        requires { IsReplyInUse reply.now }
        ensures written { PutsReply K.Sink reply.now self.old.devices.now.sink self.new.devices.now.sink result }
        ensures rest { OnlySink self.old self.new }
        ensures references { KeepsReferences self.old self.new }
        ensures cause { HasSinkCause K.Sink self.old self.new result }
    {
        let text = reply_text(reply);
        self.devices.sink.put(text.as_slice())
    }

    // Ends a run at the end of its script: the log is forced.
    fn end_script(&mut self) -> RunEnd
        requires open { IsReady L.Volume self.old }
        ensures ended { EndsScript L.Volume self.old self.new result }
        ensures ends { IsEnd result }
        ensures rest { OnlyLogs self.old self.new }
        ensures references { KeepsReferences self.old self.new }
        ensures fault { LogsRose L.Volume (status_of result ≡ VolumeFault Logs) self.old self.new }
    {
        match self.engine.end(&mut self.devices.logs) {
            Ok(()) => RunEnd::AtEnd { stop: None },
            Err(_) => RunEnd::AtEnd {
                stop: Some(Stop::Logs),
            },
        }
    }
}
