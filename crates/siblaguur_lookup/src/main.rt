//! Reads a manifest and lists of places from standard input, and prints a line for each place.
#![tactic(auto)]

use scan_lookup_run::run_lookup;
use scan_run::{StdInput, StdOutput};
use std::collections::hash_map::RandomState;
use std::env;
use std::io::{Error, ErrorKind};
use std::process::ExitCode;

fn main(rt: HostRuntime) -> ExitCode {
    let args = match env::args(&rt) {
        Ok(args) => args,
        Err(fault) => return ExitCode::from(status_of(&fault)),
    };
    let mut words = Vec::new(rt.alloc());
    for word in args.skip(1) {
        if words.push(word).is_err() {
            return ExitCode::from(7);
        }
    }
    let mut input = StdInput::new(rt.stdin());
    let mut output = StdOutput::new(rt.stdout());
    let Ok(hasher) = RandomState::new(&rt) else {
        return ExitCode::from(7);
    };
    ExitCode::from(run_lookup(
        rt.alloc(),
        words.as_slice(),
        &mut input,
        &mut output,
        hasher,
    ))
}

/// The status where the words can't be had: want of memory, or a word that is no text.
fn status_of(fault: &Error) -> u8 {
    match fault.kind() {
        ErrorKind::OutOfMemory => 7,
        _ => 1,
    }
}
