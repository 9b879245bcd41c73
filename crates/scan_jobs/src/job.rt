//! What the program is asked to do.
use scan_layout::Spelling;
use std::ops::Range;

/// How the rows of a scan are written.
#[derive(Clone, Copy, Debug, PartialEq, Eq)]
pub enum Format {
    Ndjson,
    Csv,
}

/// A scan of files.
#[derive(Drop)]
pub struct ScanJob {
    pub paths: Vec<String>,
    pub select: Option<String>,
    pub condition: Option<String>,
    pub range: Option<Range<u64>>,
    pub limit: Option<u64>,
    pub ordered: bool,
    pub workers: usize,
    pub format: Format,
    pub checks: bool,
    pub report: bool,
    pub progress: bool,
}

/// An import of a CSV or of lines of JSON.
#[derive(Drop)]
pub struct ImportJob {
    pub from: String,
    pub to: String,
    pub dtype: Option<String>,
    pub rows: usize,
    pub spelling: Spelling,
    pub progress: bool,
}

/// Files whose digests are compared.
#[derive(Drop)]
pub struct VerifyJob {
    pub paths: Vec<String>,
    pub progress: bool,
}

/// What the program is asked to do.
#[derive(Drop)]
pub enum Job {
    Show(String),
    Verify(VerifyJob),
    Scan(ScanJob),
    Explain(ScanJob),
    Import(ImportJob),
}
