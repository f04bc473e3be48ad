//! The machine of one table and one session. A line is decided in memory, without a volume, and its work is then performed by one call on
//! the log, which takes no memory. After a call that failed the engine is done with.
ghost use Rattle.std.specs.Prelude.{◌≡◌, ◌≤◌, ◌^◌, IsSome, IfOk};
ghost use Rattle.tt_record.specs.Limits.{transactions_end};
ghost use Rattle.tt_engine.specs.Calls.{OpensOn, StepsOn, EndsOn};
ghost use Rattle.tt_disk.specs.Calls.{HasFile};
ghost use Rattle.tt_disk.specs.Faults.{HasCause};
ghost use Rattle.tt_log.specs.Log.{IsOpen};
ghost use Rattle.tt_engine.specs.Prefixes.{IsSinceOpening};
ghost use Rattle.tt_engine.specs.Request.{IsReplyInUse};

use crate::memory::{Decided, Memory};
use crate::refusal::{OpenRefusal, refusal_of};
use crate::request::Request;
use crate::rows::Rows;
use std::alloc::{AllocError, Global};
use tt_disk::{Failed, Name, Volume};
use tt_journal::write;
use tt_log::Log;
use tt_record::Entry;
use tt_recover::{Recovered, recover};
use tt_set::Settings;
use tt_value::Reply;

/// An open database: its log, and what is kept in memory.
#[derive(Drop)]
pub struct Engine {
    log: Log,
    memory: Memory,
}

impl Engine {
    ghost use Rattle.std.specs.Prelude.{IsErrOf};
    ghost use Rattle.tt_disk.specs.Faults.{RoseWhere};
    ghost use Rattle.tt_disk.specs.declared.volume.Name.TheVariants.{Log as LogFile};
    ghost use Rattle.tt_set.specs.Settings.{AreInRange};
    ghost use Rattle.tt_model.specs.Opened.{Opened};
    ghost use Rattle.tt_engine.specs.Engine.{Ends, IsUpOn, Steps};
    ghost use Rattle.tt_engine.specs.Overs.{IsOver};
    ghost use Rattle.tt_engine.specs.Starts.{Opens, begun_over};

    // The engine over what was found, before its Mark.
    fn over(alloc: Global, settings: &Settings, recovered: Recovered) -> Result<Engine, AllocError>
        requires numbers { (1 ≤ recovered.next_transaction) × (recovered.next_transaction ≤ transactions_end) }
        ensures over { IfOk result (λ e. IsOver settings.now recovered e) }
    {
        let Recovered {
            log,
            rows,
            next_transaction,
        } = recovered;
        let rows = Rows::new(alloc, &rows)?;
        let memory = Memory {
            durable_commits: settings.durable_commits,
            next_transaction,
            transaction: None,
            next_commit_durable: false,
            rows,
        };
        Ok(Engine { log, memory })
    }

    // Opens the database whose first log file is there.
    fn open<L: Volume>(
        alloc: Global,
        settings: &Settings,
        logs: &mut L,
    ) -> Result<Engine, OpenRefusal>
        requires settings { AreInRange settings.now }
        requires there { HasFile L.Volume (LogFile 0) logs.old }
        ensures opens { OpensOn L.Volume settings.now logs.old logs.new result }
        ensures cause { RoseWhere L.exact (IsErrOf result OpenRefusal.Failed) (L.faults logs.old) (L.faults logs.new) }
    {
        let recovered = match recover(alloc, logs, settings.log_file_size, settings.log_buf_size) {
            Ok(recovered) => recovered,
            Err(refusal) => return Err(refusal_of(refusal)),
        };
        let mut engine = match Engine::over(alloc, settings, recovered) {
            Ok(engine) => engine,
            Err(_) => return Err(OpenRefusal::NoMemory),
        };
        let mark = Entry::Mark;
        if !engine.log.has_place(&mark) {
            return Err(OpenRefusal::LogOut);
        }
        match write(&mut engine.log, logs, Some(mark), false) {
            Ok(()) => Ok(engine),
            Err(_) => Err(OpenRefusal::Failed),
        }
    }

    /// Opens a database: finds what its log stands for, and adds the Mark with which a run begins, unforced. Where the
    /// first log file isn't there, there is no database. After a refusal the log files are as they were, unless a call on them
    /// failed.
    pub fn start<L: Volume>(
        alloc: Global,
        settings: &Settings,
        logs: &mut L,
    ) -> Result<Engine, OpenRefusal>
        requires settings { AreInRange settings.now }
        ensures opens { OpensOn L.Volume settings.now logs.old logs.new result }

        // The state with which a run begins is behind the opening.
        ensures since { (found : Opened) → IsSinceOpening (begun_over settings.now (L.now logs.old) found) }
        ensures cause { RoseWhere L.exact (IsErrOf result OpenRefusal.Failed) (L.faults logs.old) (L.faults logs.new) }
    {
        match logs.size(Name::Log(0)) {
            Ok(Some(_)) => Engine::open(alloc, settings, logs),
            Ok(None) => Err(OpenRefusal::NoDatabase),
            Err(_) => Err(OpenRefusal::Failed),
        }
    }

    /// Does what a line asks for, and answers it. For each state that the engine stood for, the reply is one that the line may have
    /// there, and the engine stands for the state behind it. Where a call on the log files failed, a crash leaves a prefix of
    /// the entries that the line has, and all that were forced before it; the engine is then done with.
    pub fn step<L: Volume>(
        &mut self,
        alloc: Global,
        logs: &mut L,
        request: Request,
    ) -> Result<Reply, Failed>
        requires open { IsUpOn L.Volume self.old logs.old }
        ensures steps { StepsOn L.Volume self.old logs.old request self.new logs.new result }
        ensures given { IfOk result IsReplyInUse }
        ensures cause { HasCause L.exact (L.faults logs.old) (L.faults logs.new) result }
    {
        let Decided {
            reply,
            entry,
            force,
        } = self.memory.decide(alloc, &self.log, request);
        match write(&mut self.log, logs, entry, force) {
            Ok(()) => Ok(reply),
            Err(failed) => Err(failed),
        }
    }

    /// The end of a script: forces the log. Where a call failed, a crash leaves all that was forced before, or all that there is.
    pub fn end<L: Volume>(&mut self, logs: &mut L) -> Result<(), Failed>
        requires open { IsUpOn L.Volume self.old logs.old }
        ensures ends { EndsOn L.Volume self.old logs.old self.new logs.new result }
        ensures cause { HasCause L.exact (L.faults logs.old) (L.faults logs.new) result }
    {
        match write(&mut self.log, logs, None, true) {
            Ok(()) => Ok(()),
            Err(failed) => Err(failed),
        }
    }
}
