//! Case files, read line by line.
use crate::fault::{Fault, Trouble};
use crate::model::{Change, Device, Failing, FileChange, FileWant, Outcome, Run, Standing, Step};
use crate::text::{read_hex, read_number, read_numbered, read_text};
use std::alloc::{AllocError, Global};
use tt_disk::Name;

// How many calls fail of a device that fails from a call on.
const MANY: u64 = 4096;

/// The steps of a case.
pub fn parse(alloc: Global, text: &str) -> Result<Vec<Step>, Trouble> {
    let mut parser = Parser {
        alloc,
        line: 0,
        steps: Vec::new(alloc),
        draft: None,
    };
    for line in text.lines() {
        parser.line = parser.line.saturating_add(1);
        match parser.read(line) {
            Ok(()) => {}
            Err(fault) => return Err(Trouble::Malformed {
                line: parser.line,
                fault,
            }),
        }
    }
    parser.end_run()?;
    Ok(parser.steps)
}

// A run whose statements aren't all read, and the outcome that is being read.
#[derive(Drop)]
struct Draft {
    run: Run,
    outcome: Outcome,
}

#[derive(Drop)]
struct Parser {
    alloc: Global,
    line: u64,
    steps: Vec<Step>,
    draft: Option<Draft>,
}

fn new_outcome(alloc: Global) -> Outcome {
    Outcome {
        answered: None,
        output: Vec::new(alloc),
        status: None,
        files: Vec::new(alloc),
    }
}

impl Parser {
    // Reads a line.
    fn read(&mut self, line: &str) -> Result<(), Fault> {
        if line.is_empty() || line.starts_with('#') {
            return Ok(());
        }
        let (word, rest) = line.split_once(' ').unwrap_or((line, ""));
        match word {
            "words" => self.begin_run(rest),
            "crash" => self.read_crash(rest),
            "set" | "cut" | "file" | "remove" => self.read_change(word, rest),
            _ => match &mut self.draft {
                Some(draft) => draft.read(self.alloc, self.line, word, rest),
                None => Err(Fault::NoRun),
            },
        }
    }

    fn begin_run(&mut self, words: &str) -> Result<(), Fault> {
        self.end_run()?;
        let run = Run {
            line: self.line,
            words: read_words(self.alloc, words)?,
            script: Vec::new(self.alloc),
            attributes: Vec::new(self.alloc),
            failing: Vec::new(self.alloc),
            each: None,
            outcomes: Vec::new(self.alloc),
        };
        self.draft = Some(Draft {
            run,
            outcome: new_outcome(self.alloc),
        });
        Ok(())
    }

    fn end_run(&mut self) -> Result<(), AllocError> {
        if let Some(draft) = self.draft.take() {
            let Draft { run, outcome } = draft;
            let mut run = run;
            run.outcomes.push(outcome)?;
            self.steps.push(Step::Run(run))?;
        }
        Ok(())
    }

    fn read_crash(&mut self, picks: &str) -> Result<(), Fault> {
        self.end_run()?;
        let mut numbers = Vec::new(self.alloc);
        for pick in picks.split_whitespace() {
            numbers.push(read_number(pick)?)?;
        }
        if numbers.is_empty() {
            return Err(Fault::Number);
        }
        self.steps.push(Step::Crash(numbers))?;
        Ok(())
    }

    fn read_change(&mut self, word: &str, rest: &str) -> Result<(), Fault> {
        self.end_run()?;
        let (file, rest) = rest.split_once(' ').unwrap_or((rest, ""));
        let name = read_name(file)?;
        let change = match word {
            "set" => {
                let (at, bytes) = rest.split_once(' ').ok_or(Fault::Number)?;
                Change::Set {
                    at: read_number(at)?,
                    bytes: read_hex(self.alloc, bytes)?,
                }
            }
            "cut" => Change::Cut(read_number(rest)?),
            "file" => Change::Put(read_hex(self.alloc, rest)?),
            _ if rest.is_empty() => Change::Remove,
            _ => return Err(Fault::Statement),
        };
        self.steps.push(Step::Change(FileChange {
            line: self.line,
            name,
            change,
        }))?;
        Ok(())
    }
}

impl Draft {
    // Reads a statement of the run.
    fn read(&mut self, alloc: Global, line: u64, word: &str, rest: &str) -> Result<(), Fault> {
        match word {
            ">" => put_line(&mut self.run.script, &read_text(alloc, rest)?)?,
            ">~" => self.run.script.extend_from_slice(&read_text(alloc, rest)?)?,
            ">for" => self
                .run
                .script
                .extend_from_slice(&read_numbered(alloc, rest)?)?,
            "attributes" => put_line(&mut self.run.attributes, &read_text(alloc, rest)?)?,
            "fail" => return self.read_failing(rest),
            "or" if rest.is_empty() => {
                let outcome = std::mem::replace(&mut self.outcome, new_outcome(alloc));
                self.run.outcomes.push(outcome)?;
            }
            _ => return self.outcome.read(alloc, line, word, rest),
        }
        Ok(())
    }

    // Reads `DEVICE CALL`, `DEVICE from CALL` or `DEVICE each`.
    fn read_failing(&mut self, text: &str) -> Result<(), Fault> {
        let (device, calls) = text.split_once(' ').ok_or(Fault::Number)?;
        let device = read_device(device)?;
        if calls == "each" {
            return match self.run.each.replace(device) {
                None => Ok(()),
                Some(_) => Err(Fault::SecondEach),
            };
        }
        let (first, count) = match calls.strip_prefix("from ") {
            Some(first) => (read_number(first)?, MANY),
            None => (read_number(calls)?, 1),
        };
        self.run.failing.push(Failing {
            device,
            first,
            count,
        })?;
        Ok(())
    }
}

impl Outcome {
    // Reads a statement on how the run ends.
    fn read(&mut self, alloc: Global, line: u64, word: &str, rest: &str) -> Result<(), Fault> {
        match word {
            "<" => put_line(&mut self.output, &read_text(alloc, rest)?)?,
            "<~" => self.output.extend_from_slice(&read_text(alloc, rest)?)?,
            "<for" => self.output.extend_from_slice(&read_numbered(alloc, rest)?)?,
            "status" => self.status = Some(String::from_str(alloc, rest)?),
            "answered" => {
                let (least, greatest) = rest.split_once(' ').ok_or(Fault::Number)?;
                self.answered = Some((read_number(least)?, read_number(greatest)?));
            }
            "size" | "bytes" | "absent" => {
                let want = read_want(alloc, line, word, rest)?;
                self.files.push(want)?;
            }
            _ => return Err(Fault::Statement),
        }
        Ok(())
    }
}

fn read_want(alloc: Global, line: u64, word: &str, rest: &str) -> Result<FileWant, Fault> {
    let (file, rest) = rest.split_once(' ').unwrap_or((rest, ""));
    let name = read_name(file)?;
    let standing = match word {
        "size" => Standing::Size(read_number(rest)?),
        "bytes" => Standing::Bytes(read_hex(alloc, rest)?),
        _ if rest.is_empty() => Standing::Absent,
        _ => return Err(Fault::Statement),
    };
    Ok(FileWant {
        line,
        name,
        standing,
    })
}

fn put_line(bytes: &mut Vec<u8>, line: &[u8]) -> Result<(), AllocError> {
    bytes.extend_from_slice(line)?;
    bytes.push(b'\n')?;
    Ok(())
}

// Words between blanks, each with escapes.
fn read_words(alloc: Global, text: &str) -> Result<Vec<String>, Fault> {
    let mut words = Vec::new(alloc);
    for word in text.split_whitespace() {
        let bytes = read_text(alloc, word)?;
        let word = str::from_utf8(&bytes).map_err(|_| Fault::Word)?;
        words.push(String::from_str(alloc, word)?)?;
    }
    Ok(words)
}

fn read_device(text: &str) -> Result<Device, Fault> {
    match text {
        "script" => Ok(Device::Script),
        "attributes" => Ok(Device::Attributes),
        "sink" => Ok(Device::Sink),
        "logs" => Ok(Device::Logs),
        "images" => Ok(Device::Images),
        "backups" => Ok(Device::Backups),
        _ => Err(Fault::Device),
    }
}

// The file of a name as `log0`, `ds1`, `set7.image` or `set7.log`.
fn read_name(text: &str) -> Result<Name, Fault> {
    match file_of(text) {
        Some(name) => Ok(name),
        None => Err(Fault::File),
    }
}

fn file_of(text: &str) -> Option<Name> {
    if let Some(number) = text.strip_prefix("log") {
        return Some(Name::Log(number.parse().ok()?));
    }
    if let Some(number) = text.strip_prefix("ds") {
        return Some(Name::Ds(number.parse().ok()?));
    }
    let set = text.strip_prefix("set")?;
    if let Some(number) = set.strip_suffix(".image") {
        return Some(Name::SetImage(number.parse().ok()?));
    }
    Some(Name::SetLog(set.strip_suffix(".log")?.parse().ok()?))
}
