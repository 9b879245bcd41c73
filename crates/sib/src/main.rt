//! Shows, verifies, scans, explains and imports files of nested columns.
#![tactic(auto)]

use scan_run::{NoGate, StdOutput};
use scan_tool::{Terminals, run_sib};
use std::collections::hash_map::RandomState;
use std::env;
use std::io::{Error, ErrorKind, IsTerminal};
use std::process::ExitCode;

fn main(rt: HostRuntime) -> ExitCode {
    let args = match env::args(&rt) {
        Ok(args) => args,
        Err(fault) => return ExitCode::from(status_of(&fault)),
    };
    let mut words = Vec::new(rt.alloc());
    for word in args {
        if words.push(word).is_err() {
            return ExitCode::from(7);
        }
    }
    let terminals = Terminals {
        output: rt.stdout().is_terminal(),
        errors: rt.stderr().is_terminal(),
    };
    let mut output = StdOutput::new(rt.stdout());
    let gate = NoGate::new();
    let Ok(hasher) = RandomState::new(&rt) else {
        return ExitCode::from(7);
    };
    ExitCode::from(run_sib(
        &rt,
        rt.alloc(),
        words.as_slice(),
        terminals,
        &mut output,
        &gate,
        hasher,
    ))
}

/// The status where the words can't be had: want of memory, or a word that is no text.
fn status_of(fault: &Error) -> u8 {
    match fault.kind() {
        ErrorKind::OutOfMemory => 7,
        _ => 1,
    }
}
