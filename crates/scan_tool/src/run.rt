//! The program, over any output.
ghost use Rattle.std.specs.Prelude.{◌<◌};

use crate::explain::explained;
use crate::files::{open, open_all};
use crate::import::import;
use crate::scan::scan;
use crate::show::shown;
use crate::verify::verify;
use scan_jobs::{ImportJob, Job, Said, ScanJob, ToolFault, VerifyJob, words_said};
use scan_multi::{Gate, ScanReport};
use scan_printing::{Terminals, Watch};
use scan_run::{Output, WriteFault, write_all};
use std::alloc::Global;
use std::fs::{File, Files};
use std::hash::BuildHasher;
use std::thread::Threads;

/// Writes a text.
fn put<O: Output>(output: &mut O, text: &str) -> Result<(), ToolFault> {
    match write_all(output, text.as_bytes()) {
        Ok(()) => Ok(()),
        Err(WriteFault::Failed) => Err(ToolFault::Output),
        Err(WriteFault::NoMemory) => Err(ToolFault::NoMemory),
    }
}

fn verify_all<R: Files<File = File> + Eprint, O: Output>(
    rt: &R,
    alloc: Global,
    job: &VerifyJob,
    terminals: Terminals,
    output: &mut O,
) -> Result<(), ToolFault> {
    let watch = Watch::of_work(job.progress, terminals);
    for path in &job.paths {
        let path = path.as_str();
        let count = verify(rt, alloc, open(rt, alloc, path)?, watch)?;
        let line = format!(in alloc; "{path}: {count} segments have their digests\n")?;
        put(output, line.as_str())?;
    }
    Ok(())
}

/// Tells how many segments were wanted, hit, shared and asked for.
fn tell(rt: &impl Eprint, report: &ScanReport) {
    let wants = report.wants;
    let hits = report.hits;
    let shared = report.shared;
    let asks = report.asks;
    let _told = eprintln!(rt;
        "segments: {wants} wanted, {hits} in the cache, {shared} shared, {asks} asked for"
    );
}

fn run_scan<
    R: Files<File = File> + Threads + Sync + Eprint,
    O: Output,
    G: Gate,
    H: BuildHasher + Copy + Drop,
>(
    rt: &R,
    alloc: Global,
    job: &ScanJob,
    terminals: Terminals,
    output: &mut O,
    gate: &G,
    hasher: H,
) -> Result<(), ToolFault> {
    let opened = open_all(rt, alloc, job.paths.as_slice())?;
    let watch = Watch::of_rows(job.progress, terminals);
    let report = scan(rt, alloc, job, opened, output, gate, hasher, watch)?;
    if job.report {
        tell(rt, &report);
    }
    Ok(())
}

fn run_show<R: Files<File = File>, O: Output>(
    rt: &R,
    alloc: Global,
    path: &str,
    output: &mut O,
) -> Result<(), ToolFault> {
    let file = open(rt, alloc, path)?;
    let text = shown(alloc, &file)?;
    put(output, text.as_str())
}

fn run_explain<R: Files<File = File>, O: Output>(
    rt: &R,
    alloc: Global,
    job: &ScanJob,
    output: &mut O,
) -> Result<(), ToolFault> {
    let opened = open_all(rt, alloc, job.paths.as_slice())?;
    let text = explained(alloc, opened.as_slice(), job)?;
    put(output, text.as_str())
}

fn run_import<R: Files<File = File> + Eprint, O: Output>(
    rt: &R,
    alloc: Global,
    job: &ImportJob,
    terminals: Terminals,
    output: &mut O,
) -> Result<(), ToolFault> {
    let watch = Watch::of_work(job.progress, terminals);
    let (rows, dtype) = import(rt, alloc, job, watch)?;
    let path = job.to.as_str();
    let line = format!(in alloc; "{path}: {rows} rows of {dtype}\n")?;
    put(output, line.as_str())
}

/// Does a job.
fn run_job<
    R: Files<File = File> + Threads + Sync + Eprint,
    O: Output,
    G: Gate,
    H: BuildHasher + Copy + Drop,
>(
    rt: &R,
    alloc: Global,
    job: &Job,
    terminals: Terminals,
    output: &mut O,
    gate: &G,
    hasher: H,
) -> Result<(), ToolFault> {
    match job {
        Job::Show(path) => run_show(rt, alloc, path.as_str(), output),
        Job::Verify(job) => verify_all(rt, alloc, job, terminals, output),
        Job::Scan(job) => run_scan(rt, alloc, job, terminals, output, gate, hasher),
        Job::Explain(job) => run_explain(rt, alloc, job, output),
        Job::Import(job) => run_import(rt, alloc, job, terminals, output),
    }
}

/// The program: what its words ask for, over an output. The words are those of the command line, with the program's name
/// first. What stops it is told on standard error, and so is how far long work is, where that is a terminal or the words
/// ask for it. The answer is the exit status, as `ToolFault::status` has it, and 0 where all was done.
pub fn run_sib<
    R: Files<File = File> + Threads + Sync + Print + Eprint,
    O: Output,
    G: Gate,
    H: BuildHasher + Copy + Drop,
>(
    rt: &R,
    alloc: Global,
    words: &[String],
    terminals: Terminals,
    output: &mut O,
    gate: &G,
    hasher: H,
) -> u8
    ensures { result < 8 }
{
    let fault = match words_said(alloc, words) {
        Ok(Said::Told(error)) => {
            let _told = error.print(rt);
            return if error.use_stderr() { 1 } else { 0 };
        }
        Ok(Said::Job(job)) => match run_job(rt, alloc, &job, terminals, output, gate, hasher) {
            Ok(()) => return 0,
            Err(fault) => fault,
        },
        Err(fault) => fault,
    };
    let _told = eprintln!(rt; "sib: {fault}");
    fault.status()
}
