//! The program `gitpool`. Without arguments it carries out one stream of git-fast-import(1) from
//! standard input over an empty repository, and writes its replies to standard output. With
//! arguments it works on the repositories of a pool file.
#![tactic(auto)]

mod hosting;
mod moves;
mod pools;
mod run_fault;
mod runs;

use crate::run_fault::RunFault;
use clap::error::ErrorKind as UsageKind;
use gitpool::Line;
use std::env;
use std::io::ErrorKind;
use std::process::ExitCode;

// The exit status if the arguments are not a command line.
const USAGE: u8 = 2;

// The arguments after the name of the program; `None` if one of them is not text.
fn words(rt: &HostRuntime) -> Result<Option<Vec<String>>, RunFault> {
    match env::args(rt) {
        Ok(words) => Ok(Some(words.skip(1).collect(rt.alloc())?)),
        Err(error) if error.kind() == ErrorKind::OutOfMemory => Err(RunFault::Memory),
        Err(_) => Ok(None),
    }
}

// Reports the fault of a run, if there is one, and gives the exit status.
fn ended(rt: &HostRuntime, outcome: Result<(), RunFault>) -> ExitCode {
    match outcome {
        Ok(()) => ExitCode::SUCCESS,
        Err(fault) => {
            let _ = eprintln!(rt; "gitpool: {fault}");
            ExitCode::from(fault.status())
        }
    }
}

// The version goes to standard output.
fn print_version(rt: &HostRuntime, version: &clap::Error) -> Result<(), RunFault> {
    Ok(print!(rt; "{version}")?)
}

// Usage and help go to standard error.
fn refused(rt: &HostRuntime, error: &clap::Error) -> ExitCode {
    match error.kind() {
        UsageKind::OutOfMemory => ended(rt, Err(RunFault::Memory)),
        UsageKind::DisplayVersion => ended(rt, print_version(rt, error)),
        _ => {
            let _ = eprint!(rt; "{error}");
            ExitCode::from(USAGE)
        }
    }
}

fn run(rt: &HostRuntime, words: &[String]) -> ExitCode {
    if words.is_empty() {
        return ended(rt, runs::run_alone(rt));
    }
    match Line::read(rt.alloc(), words) {
        Ok(line) => ended(rt, runs::run(rt, line)),
        Err(error) => refused(rt, &error),
    }
}

fn main(rt: HostRuntime) -> ExitCode {
    match words(&rt) {
        Ok(Some(words)) => run(&rt, &words),
        Ok(None) => {
            let _ = eprintln!(rt; "error: a word is not text");
            ExitCode::from(USAGE)
        }
        Err(fault) => ended(&rt, Err(fault)),
    }
}
