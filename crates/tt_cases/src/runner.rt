//! Cases, done in each of their ways.
use crate::fault::Trouble;
use crate::files::{FailingCalls, Volumes};
use crate::model::{Device, FileChange, Run, Step};
use crate::wanted::{Ended, check_failed, check_outcomes, failed_status};
use crate::ways::Way;
use std::alloc::{AllocError, Global};
use std::mem;
use std::thread::Threads;
use tt_flow::{MemSink, MemSource};
use tt_run::Devices;

/// Does a case in each of its ways; adds to the text how the way went that isn't as it is wanted.
pub fn do_case<R: Threads>(
    rt: &R,
    alloc: Global,
    steps: &[Step],
    told: &mut String,
) -> Result<(), Trouble> {
    let mut way = Way::new(alloc);
    for _ in 0..u64::MAX {
        let result = do_way(rt, alloc, steps, &mut way);
        if result.is_err() {
            told.push_str(&way.told(alloc)?)?;
            return result;
        }
        if !way.turn() {
            return Ok(());
        }
    }
    Ok(())
}

// The calls of volumes that are to fail on one way. A volume is told at its making which of its calls fail, and only a
// run that comes later shows which these are: so the case is begun again each time that they change.
#[derive(Drop)]
struct Plan {
    // The calls from the beginning, and from each crash on.
    failing: Vec<FailingCalls>,
    // How many runs have added theirs.
    planned: u64,
}

// Does a case in one way.
fn do_way<R: Threads>(rt: &R, alloc: Global, steps: &[Step], way: &mut Way) -> Result<(), Trouble> {
    let mut plan = Plan {
        failing: Vec::new(alloc),
        planned: 0,
    };
    for _ in 0..u64::MAX {
        way.restart();
        if do_steps(rt, alloc, steps, way, &mut plan)? {
            return Ok(());
        }
    }
    Ok(())
}

// Does the steps, up to a run that changes the plan; answers false there.
fn do_steps<R: Threads>(
    rt: &R,
    alloc: Global,
    steps: &[Step],
    way: &mut Way,
    plan: &mut Plan,
) -> Result<bool, Trouble> {
    let mut scene = Scene {
        alloc,
        volumes: plan.volumes(alloc)?,
        crashes: 0,
        failing_runs: 0,
        answered: 0,
        answered_before: 0,
    };
    for step in steps {
        match step {
            Step::Run(run) => if !scene.do_run(rt, run, way, plan)? {
                return Ok(false);
            },
            Step::Crash(picks) => scene.crash(picks, way, plan)?,
            Step::Change(change) => scene.change(change)?,
        }
    }
    Ok(true)
}

impl Plan {
    // The calls that fail after so many crashes.
    fn after(&self, alloc: Global, crashes: usize) -> Result<FailingCalls, AllocError> {
        match self.failing.get(crashes) {
            Some(failing) => failing.copy(alloc),
            None => Ok(FailingCalls::new(alloc)),
        }
    }

    // Volumes with no files.
    fn volumes(&self, alloc: Global) -> Result<Volumes, AllocError> {
        let failing = self.after(alloc, 0)?;
        Volumes::new(alloc, &failing)
    }

    // Adds the calls of a run that begins after so many crashes on these volumes.
    fn add(
        &mut self,
        alloc: Global,
        run: &Run,
        call: u64,
        crashes: usize,
        volumes: &Volumes,
    ) -> Result<(), AllocError> {
        for _ in self.failing.len()..=crashes {
            self.failing.push(FailingCalls::new(alloc))?;
        }
        if let Some(failing) = self.failing.get_mut(crashes) {
            add_calls(
                &mut failing.logs,
                run,
                Device::Logs,
                call,
                volumes.logs.calls(),
            )?;
            add_calls(
                &mut failing.images,
                run,
                Device::Images,
                call,
                volumes.images.calls(),
            )?;
            add_calls(
                &mut failing.backups,
                run,
                Device::Backups,
                call,
                volumes.backups.calls(),
            )?;
        }
        self.planned = self.planned.saturating_add(1);
        Ok(())
    }

    // Takes the calls out that the run added last and didn't make on these volumes, so that no later run makes them;
    // answers whether there were some.
    fn drop_others(&mut self, crashes: usize, volumes: &Volumes) -> bool {
        match self.failing.get_mut(crashes) {
            Some(failing) => failing.keep_done(volumes),
            None => false,
        }
    }
}

// Adds the calls of a device that fail in a run, which begins after so many calls.
fn add_calls(
    calls: &mut Vec<u64>,
    run: &Run,
    device: Device,
    call: u64,
    before: u64,
) -> Result<(), AllocError> {
    for failing in run.failing.as_slice() {
        if failing.device == device {
            add_range(calls, before.saturating_add(failing.first), failing.count)?;
        }
    }
    if run.each == Some(device) {
        add_range(calls, before.saturating_add(call), 1)?;
    }
    Ok(())
}

fn add_range(calls: &mut Vec<u64>, first: u64, count: u64) -> Result<(), AllocError> {
    for further in 0..count {
        calls.push(first.saturating_add(further))?;
    }
    Ok(())
}

// What a case has come to.
#[derive(Drop)]
struct Scene {
    alloc: Global,
    volumes: Volumes,
    crashes: usize,
    // How many runs with a failing volume were begun.
    failing_runs: u64,
    // How many replies the last run wrote, and the last one before the last crash.
    answered: u64,
    answered_before: u64,
}

impl Scene {
    // Does a run, and sees that it ends as it is wanted; answers false where it changed the plan.
    fn do_run<R: Threads>(
        &mut self,
        rt: &R,
        run: &Run,
        way: &mut Way,
        plan: &mut Plan,
    ) -> Result<bool, Trouble> {
        let alloc = self.alloc;
        let call = match run.each {
            Some(_) => way.choose(alloc)?,
            None => 0,
        };
        if fails_a_volume(run) {
            self.failing_runs = self.failing_runs.saturating_add(1);
            if plan.planned < self.failing_runs {
                plan.add(alloc, run, call, self.crashes, &self.volumes)?;
                return Ok(false);
            }
        }
        match run.each {
            Some(device) => self.do_failing(rt, run, device, call, way)?,
            None => {
                let ended = self.run_once(rt, run, call)?;
                check_outcomes(alloc, run, &ended, &self.volumes, self.answered_before)?;
            }
        }
        let is_last = self.failing_runs == plan.planned;
        Ok(!(fails_a_volume(run) && is_last && plan.drop_others(self.crashes, &self.volumes)))
    }

    // Does a run whose device fails at this call, where it makes one of that number.
    fn do_failing<R: Threads>(
        &mut self,
        rt: &R,
        run: &Run,
        device: Device,
        call: u64,
        way: &mut Way,
    ) -> Result<(), Trouble> {
        let alloc = self.alloc;
        let failing_call = self.volumes.calls(device).saturating_add(call);
        way.tell(String::new(alloc), false);
        let ended = self.run_once(rt, run, call)?;
        let has_failed = if device.is_volume() {
            self.volumes.calls(device) > failing_call
        } else {
            ended.status.as_str() == failed_status(device)
        };
        if has_failed {
            way.tell(
                format!(in alloc; ", {device:?} failing at call {call}")?,
                true,
            );
            let behind = self
                .volumes
                .calls(device)
                .saturating_sub(failing_call.saturating_add(1));
            if device.is_volume() && behind > 0 {
                return Err(Trouble::Calls {
                    line: run.line,
                    behind,
                });
            }
            check_failed(alloc, run, device, &ended)
        } else {
            check_outcomes(alloc, run, &ended, &self.volumes, self.answered_before)
        }
    }

    // Does a run, with the calls of the script, the attributes and the sink failing that are to fail.
    fn run_once<R: Threads>(&mut self, rt: &R, run: &Run, call: u64) -> Result<Ended, AllocError> {
        let alloc = self.alloc;
        let script = MemSource::new(
            run.script.to_vec(alloc)?,
            stream_calls(alloc, run, Device::Script, call)?,
        );
        let attributes = MemSource::new(
            run.attributes.to_vec(alloc)?,
            stream_calls(alloc, run, Device::Attributes, call)?,
        );
        let sink = MemSink::new(alloc, stream_calls(alloc, run, Device::Sink, call)?);
        let Volumes {
            logs,
            images,
            backups,
        } = mem::replace(&mut self.volumes, Volumes::empty(alloc));
        let mut devices = Devices {
            script,
            attributes,
            sink,
            logs,
            images,
            backups,
        };
        let status = tt_run::run(rt, alloc, &run.words, &mut devices);
        let Devices {
            sink,
            logs,
            images,
            backups,
            ..
        } = devices;
        self.volumes = Volumes {
            logs,
            images,
            backups,
        };
        let exit = status.exit();
        let ended = Ended {
            output: sink.bytes().to_vec(alloc)?,
            status: format!(in alloc; "{exit} {status}")?,
        };
        self.answered = ended.answered();
        Ok(ended)
    }

    fn crash(&mut self, picks: &[u64], way: &mut Way, plan: &Plan) -> Result<(), Trouble> {
        let alloc = self.alloc;
        let chosen = way.choose(alloc)?;
        let pick = picks.get(chosen as usize).copied().unwrap_or(0);
        way.tell(
            format!(in alloc; ", crash {pick}")?,
            chosen.saturating_add(1) < picks.len() as u64,
        );
        self.crashes = self.crashes.saturating_add(1);
        let failing = plan.after(alloc, self.crashes)?;
        self.volumes = self.volumes.left(alloc, pick, &failing)?;
        self.answered_before = self.answered;
        Ok(())
    }

    fn change(&mut self, change: &FileChange) -> Result<(), Trouble> {
        if self
            .volumes
            .change(self.alloc, change.name, &change.change)?
        {
            return Ok(());
        }
        Err(Trouble::Change { line: change.line })
    }
}

fn stream_calls(
    alloc: Global,
    run: &Run,
    device: Device,
    call: u64,
) -> Result<Vec<u64>, AllocError> {
    let mut calls = Vec::new(alloc);
    add_calls(&mut calls, run, device, call, 0)?;
    Ok(calls)
}

fn fails_a_volume(run: &Run) -> bool {
    run.failing.iter().any(|failing| failing.device.is_volume())
        || run.each.is_some_and(|device| device.is_volume())
}
