//! The top call: what the words of the command line ask for is done, and the status tells how it ended.
ghost use Rattle.std.specs.Prelude.{◌≡◌, ◌↔◌, None, map, string_bytes};
ghost use Rattle.tt_set.specs.Settings.{AreInRange};
ghost use Rattle.tt_run.specs.Devices.{DoesNothing, KeepsRest, SinkFaults, SourceFaults, VolumeFaults};
ghost use Rattle.tt_run.specs.Openings.{IsBeforeLines, IsCreateEnd, IsScriptRunEnd};
ghost use Rattle.tt_run.specs.TopCall.{Asks, CrashLeavesNoOtherOn, CreatedOn, Creates, JudgesAttributes, KeepsDatabase, KeepsRefused, Runs, RunsWith, Untouched, WritesCreated, WritesNothing};
ghost use Rattle.tt_run.specs.Words.{form_of};

use crate::attributes::settings_of;
use crate::devices::Devices;
use crate::script_run::do_script;
use crate::status::Status;
use crate::words::{Action, read_words};
use std::alloc::Global;
use std::thread::Threads;
use tt_disk::{Name, Volume};
use tt_engine::{Engine, OpenRefusal};
use tt_flow::{Sink, Source};
use tt_log::Log;
use tt_set::Settings;
use tt_value::Stop;

/// Does what the words ask for: `create DIR` makes a database, `run DIR` does the lines of the script and writes the reply to each.
/// The attributes are read before either.
pub fn run<
    R: Threads,
    S: Source,
    A: Source,
    K: Sink,
    L: Volume + Send,
    C: Volume + Send,
    B: Volume + Send,
>(rt: &R, alloc: Global, words: &[String], devices: &mut Devices<S, A, K, L, C, B>) -> Status
    // The words have no form exactly where the status says so.
    ensures usage { (result ≡ Status.Usage) ↔ (form_of (map string_bytes words.now) ≡ None) }

    // The attributes aren't right exactly where the status says so, and it has the first such name, unless they couldn't be read.
    ensures attributes { JudgesAttributes A.Source words.now devices.old.attributes result }

    // `create DIR` makes a database where there is none, and leaves one that is there as it is.
    ensures creates { Asks words.now Action.Create → Creates A.Source K.Sink L.Volume devices.old devices.new result }

    // `run DIR` opens the database and does the lines: what was answered, what was written, what the log files have between two lines
    // and at the end, and what a crash leaves, are all of one run of the model from the state that opening found.
    ensures runs { Asks words.now Action.Run → Runs S.Source A.Source K.Sink L.Volume devices.old devices.new result }

    // By status, which devices had no call.
    ensures untouched { Untouched A.Source L.Volume words.now devices.old devices.new result }

    // A count of faults rose exactly where the status names its device, if it is exact; it never falls.
    ensures script_fault { SourceFaults S.Source Status.ScriptFault devices.old.script devices.new.script result }
    ensures attributes_fault { SourceFaults A.Source Status.AttributesFault devices.old.attributes devices.new.attributes result }
    ensures sink_fault { SinkFaults K.Sink devices.old.sink devices.new.sink result }
    ensures logs_fault { VolumeFaults L.Volume Stop.Logs devices.old.logs devices.new.logs result }
    ensures images_fault { VolumeFaults C.Volume Stop.Images devices.old.images devices.new.images result }
    ensures backups_fault { VolumeFaults B.Volume Stop.Backups devices.old.backups devices.new.backups result }
{
    let _ = rt;
    let action = match read_words(words) {
        None => return Status::Usage,
        Some(action) => action,
    };
    let settings = match settings_of(alloc, &mut devices.attributes) {
        Ok(settings) => settings,
        Err(status) => return status,
    };
    match action {
        Action::Create => create(&mut devices.sink, &mut devices.logs),
        Action::Run => run_script(alloc, &settings, devices),
    }
}

fn create<K: Sink, L: Volume>(sink: &mut K, logs: &mut L) -> Status
    ensures created { CreatedOn L.Volume logs.old logs.new result }
    ensures there { KeepsDatabase L.Volume logs.old logs.new }
    ensures no_other { CrashLeavesNoOtherOn L.Volume logs.old logs.new }
    ensures text { WritesCreated K.Sink sink.old sink.new result }
    ensures unbegun { IsBeforeLines result → WritesNothing L.Volume sink.old sink.new logs.old logs.new }
    ensures statuses { IsCreateEnd result }
    ensures sink_fault { SinkFaults K.Sink sink.old sink.new result }
    ensures logs_fault { VolumeFaults L.Volume Stop.Logs logs.old logs.new result }
{
    match logs.size(Name::Log(0)) {
        Ok(None) => {}
        Ok(Some(_)) => return Status::Exists,
        Err(_) => return Status::VolumeFault(Stop::Logs),
    }
    match Log::make(logs) {
        Ok(()) => {}
        Err(_) => return Status::VolumeFault(Stop::Logs),
    }
    match sink.put(b"created\n") {
        Ok(()) => Status::Done,
        Err(_) => Status::SinkFault,
    }
}

fn run_script<S: Source, A, K: Sink, L: Volume, C, B>(
    alloc: Global,
    settings: &Settings,
    devices: &mut Devices<S, A, K, L, C, B>,
) -> Status
    requires settings { AreInRange settings.now }
    ensures ran { L.told → RunsWith S.Source K.Sink L.Volume settings.now devices.old devices.new result }
    ensures refused { KeepsRefused L.Volume devices.old devices.new }
    ensures unbegun { IsBeforeLines result → DoesNothing L.Volume devices.old devices.new }
    ensures no_place { result ≡ Status.LogOut → DoesNothing L.Volume devices.old devices.new }
    ensures rest { KeepsRest devices.old devices.new }
    ensures statuses { IsScriptRunEnd result }
    ensures script_fault { SourceFaults S.Source Status.ScriptFault devices.old.script devices.new.script result }
    ensures sink_fault { SinkFaults K.Sink devices.old.sink devices.new.sink result }
    ensures logs_fault { VolumeFaults L.Volume Stop.Logs devices.old.logs devices.new.logs result }
{
    match Engine::start(alloc, settings, &mut devices.logs) {
        Ok(engine) => do_script(alloc, engine, devices).status(),
        Err(OpenRefusal::NoDatabase) => Status::NoDatabase,
        Err(OpenRefusal::Damaged(damage)) => Status::Damaged(damage),
        Err(OpenRefusal::LogOut) => Status::LogOut,
        Err(OpenRefusal::Failed) => Status::VolumeFault(Stop::Logs),
        Err(OpenRefusal::NoMemory) => Status::NoMemory,
    }
}
