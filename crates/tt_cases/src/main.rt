//! Does the cases of the folder that it is run in, and prints for each whether the database did what it is to do.
#![tactic(auto)]

mod fault;
mod files;
mod model;
mod parser;
mod runner;
mod text;
mod wanted;
mod ways;

use fault::Trouble;
use std::alloc::{AllocError, Global};
use std::process::ExitCode;
use std::rt::Files;
use std::thread::Threads;
use std::{fs, io};

fn main(rt: HostRuntime) -> ExitCode {
    match do_cases(&rt, rt.alloc()) {
        Ok(true) => ExitCode::SUCCESS,
        Ok(false) => ExitCode::FAILURE,
        Err(error) => {
            let _ = eprintln!(rt; "{error}");
            ExitCode::FAILURE
        }
    }
}

// Does each case, and prints a line for it; answers whether all are right.
fn do_cases<R: Threads + Files + AllocGlobal + Print + Clone + Drop>(
    rt: &R,
    alloc: Global,
) -> io::Result<bool> {
    let mut all_right = true;
    for name in case_names(rt, alloc)? {
        let mut told = String::new(alloc);
        match do_case(rt, alloc, &name, &mut told) {
            Ok(()) => println!(rt; "ok {name}")?,
            Err(trouble) => {
                all_right = false;
                println!(rt; "{name}: {trouble}{told}")?;
            }
        }
    }
    Ok(all_right)
}

// The names of the files `NAME.case`, in order.
fn case_names<R: Files + AllocGlobal + Clone + Drop>(
    rt: &R,
    alloc: Global,
) -> io::Result<Vec<String>> {
    let mut names = Vec::new(alloc);
    for entry in fs::read_dir(rt, ".")? {
        let entry = entry?;
        if let Some(name) = entry.file_name().strip_suffix(".case") {
            names
                .push(String::from_str(alloc, name)?)
                .map_err(AllocError::from)?;
        }
    }
    names.sort()?;
    Ok(names)
}

fn do_case<R: Threads + Files + AllocGlobal>(
    rt: &R,
    alloc: Global,
    name: &str,
    told: &mut String,
) -> Result<(), Trouble> {
    let path = format!(in alloc; "{name}.case")?;
    let text = fs::read_to_string(rt, path.as_str()).map_err(|_| Trouble::Unreadable)?;
    let steps = parser::parse(alloc, &text)?;
    runner::do_case(rt, alloc, &steps, told)
}
