//! How far long work is, told on standard error.
use scan_multi::ColumnChunk;
use scan_values::NoMemory;
use std::alloc::Global;

/// Which of the standard outputs are terminals.
#[derive(Clone, Copy, Debug, PartialEq, Eq)]
pub struct Terminals {
    pub output: bool,
    pub errors: bool,
}

/// How progress is told: not at all, in lines, or in one line that is written over.
#[derive(Clone, Copy, Debug, PartialEq, Eq)]
pub enum Watch {
    Quiet,
    Lines,
    Over,
}

impl Watch {
    /// For work that prints one line at its end.
    pub fn of_work(asked: bool, terminals: Terminals) -> Watch {
        if terminals.errors {
            Watch::Over
        } else if asked {
            Watch::Lines
        } else {
            Watch::Quiet
        }
    }

    /// For work that prints rows as they come: where those go to a terminal they show it themselves.
    pub fn of_rows(asked: bool, terminals: Terminals) -> Watch {
        if terminals.errors && !terminals.output {
            Watch::Over
        } else if asked {
            Watch::Lines
        } else {
            Watch::Quiet
        }
    }
}

/// Tells what is done now.
pub fn tell_stage(rt: &impl Eprint, watch: Watch, path: &str, stage: &str) {
    if watch != Watch::Quiet {
        let _told = eprintln!(rt; "{path}: {stage}");
    }
}

/// How much of some work is done, told in hundredths of the whole.
#[derive(Drop)]
pub struct Meter {
    watch: Watch,
    what: String,
    whole: u64,
    /// From which hundredth on it is told next.
    next: u64,
}

impl Meter {
    /// Nothing is done yet, of so much.
    pub fn new(alloc: Global, watch: Watch, what: &str, whole: u64) -> Result<Meter, NoMemory> {
        Ok(Meter {
            watch,
            what: String::from_str(alloc, what)?,
            whole,
            next: 1,
        })
    }

    /// So much is done: each hundredth is told on a terminal, else each tenth.
    pub fn reach(&mut self, rt: &impl Eprint, done: u64) {
        if self.watch == Watch::Quiet || self.whole == 0 {
            return;
        }
        let percent = done.saturating_mul(100) / self.whole;
        if percent >= self.next {
            self.tell(rt, percent);
        }
    }

    /// Tells a hundredth, and from which on it is told next.
    fn tell(&mut self, rt: &impl Eprint, percent: u64) {
        let what = self.what.as_str();
        if self.watch == Watch::Over && percent < 100 {
            let _told = eprint!(rt; "{what}: {percent} %\r");
            self.next = percent.saturating_add(1);
        } else {
            let _told = eprintln!(rt; "{what}: {percent} %");
            self.next = percent.saturating_add(10);
        }
    }
}

/// What is told how far a scan is.
pub trait Progress {
    /// How many of the rows that are asked for stand before the end of a chunk.
    fn rows_to(&self, chunk: &ColumnChunk) -> u64;

    /// So many rows were written, or had no need to be.
    fn reach(&mut self, rows: u64);
}

/// Nothing is told.
#[derive(Clone, Copy, Debug)]
pub struct NoProgress;

impl Progress for NoProgress {
    fn rows_to(&self, _chunk: &ColumnChunk) -> u64 {
        0
    }

    fn reach(&mut self, _rows: u64) {}
}

/// How far a scan is, by the rows that were written.
#[derive(Drop)]
pub struct ScanProgress<'a, R> {
    rt: &'a R,
    meter: Meter,
    /// How many rows are asked for of the files before each, by its place.
    before: Vec<u64>,
    /// The first row that is asked for of each file.
    first: u64,
}

impl<'a, R> ScanProgress<'a, R> {
    /// Of the rows of files from the first one on that is asked for, where so many are asked for of the files before
    /// each.
    pub fn new(rt: &'a R, meter: Meter, before: Vec<u64>, first: u64) -> ScanProgress<'a, R> {
        ScanProgress {
            rt,
            meter,
            before,
            first,
        }
    }
}

impl<'a, R: Eprint> Progress for ScanProgress<'a, R> {
    fn rows_to(&self, chunk: &ColumnChunk) -> u64 {
        match (self.before.get(chunk.file), chunk.rows.last()) {
            (Some(before), Some(row)) => {
                let own = row.saturating_sub(self.first).saturating_add(1);
                before.saturating_add(own)
            }
            _ => 0,
        }
    }

    fn reach(&mut self, rows: u64) {
        self.meter.reach(self.rt, rows);
    }
}
