//! The program `gitpool_frames`, for tests and measurements: it reads frames of steps from standard
//! input, over an empty service, and writes their answers to standard output. Its one argument
//! chooses how objects are named: `sha1`, or `tail` for tests.
#![tactic(auto)]

use gitpool::{Counted, FrameFault, Naming, Service, Sha1Naming, TailNaming, serve};
use std::env;
use std::io::ErrorKind;
use std::process::ExitCode;

// Exit statuses other than 0: the frames were refused, or the arguments are wrong.
const REFUSED: u8 = 1;

const USAGE: u8 = 2;

const DEVICE: u8 = 4;

const MEMORY: u8 = 5;

// How objects are named.
enum Names {
    Sha1,
    Tail,
}

fn status(fault: FrameFault) -> u8 {
    match fault {
        FrameFault::BadFrame => REFUSED,
        FrameFault::CutOff => REFUSED,
        FrameFault::Device => DEVICE,
        FrameFault::Memory => MEMORY,
    }
}

fn named(word: &str) -> Option<Names> {
    match word {
        "sha1" => Some(Names::Sha1),
        "tail" => Some(Names::Tail),
        _ => None,
    }
}

// The one argument after the name of the program; `None` if the arguments are wrong.
fn chosen(rt: &HostRuntime) -> Result<Option<Names>, FrameFault> {
    let mut words = match env::args(rt) {
        Ok(words) => words,
        Err(error) if error.kind() == ErrorKind::OutOfMemory => return Err(FrameFault::Memory),
        Err(_) => return Ok(None),
    };
    if words.len() != 2 {
        return Ok(None);
    }
    match words.nth(1) {
        Some(word) => Ok(named(&word)),
        None => Ok(None),
    }
}

fn frames<N: Naming>(rt: &HostRuntime, naming: N) -> Result<(), FrameFault> {
    let mut service = Service::new(rt.alloc(), naming);
    let mut reader = Counted::new(rt.stdin());
    let mut writer = Counted::new(rt.stdout());
    serve(rt.alloc(), &mut service, &mut reader, &mut writer)
}

// Reports the fault of a run, if there is one, and gives the exit status.
fn ended(rt: &HostRuntime, outcome: Result<(), FrameFault>) -> ExitCode {
    match outcome {
        Ok(()) => ExitCode::SUCCESS,
        Err(fault) => {
            let _ = eprintln!(rt; "gitpool: {fault}");
            ExitCode::from(status(fault))
        }
    }
}

fn main(rt: HostRuntime) -> ExitCode {
    match chosen(&rt) {
        Ok(Some(Names::Sha1)) => ended(&rt, frames(&rt, Sha1Naming)),
        Ok(Some(Names::Tail)) => ended(&rt, frames(&rt, TailNaming)),
        Ok(None) => {
            let _ = eprintln!(rt; "usage: gitpool_frames sha1|tail < FRAMES");
            ExitCode::from(USAGE)
        }
        Err(fault) => ended(&rt, Err(fault)),
    }
}
