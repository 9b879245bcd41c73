//! Runs the program on each case of `runs.txt`, reads each text of `texts.txt`, and prints a line for each case and for each
//! block of texts: whether all is as wanted. Both files say at their head how they are written.
#![tactic(auto)]

mod manifests;
mod runs;
mod texts;

use std::alloc::Global;
use std::collections::hash_map::RandomState;
use std::fs::Files;
use std::io;
use std::process::ExitCode;
use std::thread::Threads;

fn main(rt: HostRuntime) -> ExitCode {
    let Ok(hasher) = RandomState::new(&rt) else {
        return ExitCode::FAILURE;
    };
    match check_all(&rt, rt.alloc(), hasher) {
        Ok(()) => ExitCode::SUCCESS,
        Err(_) => ExitCode::FAILURE,
    }
}

fn check_all(
    rt: &(impl Threads + Sync + Files + Print + Alloc<A = Global>),
    alloc: Global,
    hasher: RandomState,
) -> io::Result<()> {
    runs::run_all(rt, alloc, hasher)?;
    texts::read_all(rt, alloc)
}
