//! The words of the command line.
use crate::fault::ToolFault;
use crate::job::{Format, ImportJob, Job, ScanJob, VerifyJob};
use clap::{Arg, ArgAction, ArgMatches, Command, Error, value_parser};
use scan_layout::Spelling;
use std::alloc::{AllocError, Global};
use std::ops::Range;

fn option<'a>(alloc: Global, name: &'a str, value: &'a str, help: &'a str) -> Arg<'a> {
    Arg::new(alloc, name)
        .long(name)
        .value_name(value)
        .action(ArgAction::Set)
        .help(help)
}

fn flag<'a>(alloc: Global, name: &'a str, help: &'a str) -> Arg<'a> {
    Arg::new(alloc, name)
        .long(name)
        .action(ArgAction::SetTrue)
        .help(help)
}

fn word<'a>(alloc: Global, name: &'a str, help: &'a str) -> Arg<'a> {
    Arg::new(alloc, name)
        .required(true)
        .action(ArgAction::Set)
        .help(help)
}

fn files_arg<'a>(alloc: Global) -> Arg<'a> {
    Arg::new(alloc, "FILE")
        .required(true)
        .num_args(1..)
        .action(ArgAction::Append)
        .help("Files that `sib import` wrote, or others of their form")
}

fn progress_flag<'a>(alloc: Global) -> Arg<'a> {
    flag(
        alloc,
        "progress",
        "Tells on standard error how far it is, also where that is no terminal",
    )
}

fn show_command<'a>(alloc: Global) -> Result<Command<'a>, AllocError> {
    Command::new(alloc, "show")
        .about("Prints the dtype, the layout and the sizes of a file")
        .arg(word(alloc, "FILE", "The file"))
}

fn verify_command<'a>(alloc: Global) -> Result<Command<'a>, AllocError> {
    Command::new(alloc, "verify")
        .about("Reads each segment of files and compares its digest")
        .arg(files_arg(alloc))?
        .arg(progress_flag(alloc))
}

fn scan_command<'a>(alloc: Global) -> Result<Command<'a>, AllocError> {
    let command = Command::new(alloc, "scan");
    scan_args(
        alloc,
        command.about("Prints a line of JSON for each row that is wanted"),
    )
}

fn explain_command<'a>(alloc: Global) -> Result<Command<'a>, AllocError> {
    let command = Command::new(alloc, "explain");
    scan_args(
        alloc,
        command.about("Prints what a scan of these words may ask for, and reads none of it"),
    )
}

/// The words that a scan has.
fn scan_args<'a>(alloc: Global, command: Command<'a>) -> Result<Command<'a>, AllocError> {
    run_args(alloc, wanted_args(alloc, command)?)
}

/// The words for the files and the rows that are wanted.
fn wanted_args<'a>(alloc: Global, command: Command<'a>) -> Result<Command<'a>, AllocError> {
    command
        .arg(files_arg(alloc))?
        .arg(option(
            alloc,
            "select",
            "FIELDS",
            "Fields that are wanted, as a,b.c",
        ))?
        .arg(option(
            alloc,
            "where",
            "CONDITION",
            "Which rows are wanted, as 'a >= 5 and is_not_null(b.c)'",
        ))?
        .arg(option(
            alloc,
            "range",
            "A..B",
            "Of each file, the rows from A up to B, without B",
        ))?
        .arg(option(alloc, "limit", "N", "No more than so many rows").value_parser(value_parser!(
            u64
        )))?
        .arg(flag(alloc, "unordered", "Takes the rows as they are read"))
}

/// The words for how files are read and rows are written.
fn run_args<'a>(alloc: Global, command: Command<'a>) -> Result<Command<'a>, AllocError> {
    command
        .arg(
            option(alloc, "workers", "N", "How many threads read")
                .value_parser(value_parser!(u16))
                .default_value("1"),
        )?
        .arg(
            option(alloc, "format", "F", "How rows are written, ndjson or csv")
                .value_parser(["ndjson", "csv"].as_slice())
                .default_value("ndjson"),
        )?
        .arg(flag(
            alloc,
            "check",
            "Compares the digest of each segment that is read, as verify does",
        ))?
        .arg(flag(
            alloc,
            "report",
            "Prints how many segments were wanted, hit, shared and asked for",
        ))?
        .arg(progress_flag(alloc))
}

fn import_command<'a>(alloc: Global) -> Result<Command<'a>, AllocError> {
    Command::new(alloc, "import")
        .about("Makes a file of a CSV, or of lines of JSON")
        .arg(word(
            alloc,
            "IN",
            "A CSV whose first line has names, or lines of JSON (.ndjson, .jsonl, .json)",
        ))?
        .arg(word(alloc, "OUT", "The file that is made"))?
        .arg(option(
            alloc,
            "dtype",
            "DTYPE",
            "The dtype of the rows, as 'id: i64, name: utf8?, tags: [utf8]'; the rows show their own",
        ))?
        .arg(
            option(alloc, "rows", "N", "How many rows a segment has at most")
                .value_parser(value_parser!(u32))
                .default_value("32768"),
        )?
        .arg(
            option(alloc, "spelling", "S", "How segments are spelt, 1 or 2")
                .value_parser(value_parser!(u8))
                .default_value("2"),
        )?
        .arg(progress_flag(alloc))
}

/// The command line of the program.
fn command<'a>(alloc: Global) -> Result<Command<'a>, AllocError> {
    Command::new(alloc, "sib")
        .about("Rows of nested columns in files on disk")
        .subcommand_required(true)
        .arg_required_else_help(true)
        .subcommand(show_command(alloc)?)?
        .subcommand(verify_command(alloc)?)?
        .subcommand(scan_command(alloc)?)?
        .subcommand(explain_command(alloc)?)?
        .subcommand(import_command(alloc)?)
}

/// What the words say: a job, or what the parser of words tells.
pub enum Said {
    Job(Job),
    Told(Error),
}

fn owned(alloc: Global, text: Option<&str>) -> Result<String, AllocError> {
    match text {
        Some(text) => String::from_str(alloc, text),
        None => Ok(String::new(alloc)),
    }
}

fn owned_if(alloc: Global, text: Option<&str>) -> Result<Option<String>, AllocError> {
    match text {
        Some(text) => Ok(Some(String::from_str(alloc, text)?)),
        None => Ok(None),
    }
}

fn paths_of(alloc: Global, matches: &ArgMatches<'_>) -> Result<Vec<String>, AllocError> {
    let mut paths = Vec::new(alloc);
    if let Some(texts) = matches.get_strs("FILE") {
        for text in texts {
            paths.push(String::from_str(alloc, text)?)?;
        }
    }
    Ok(paths)
}

/// The range that a text says, as `3..10`.
fn range_of(text: &str) -> Option<Range<u64>> {
    let (first, end) = text.split_once("..")?;
    match (first.parse::<u64>(), end.parse::<u64>()) {
        (Ok(first), Ok(end)) => Some(first..end),
        _ => None,
    }
}

fn range_in(alloc: Global, matches: &ArgMatches<'_>) -> Result<Option<Range<u64>>, ToolFault> {
    let Some(text) = matches.get_str("range") else {
        return Ok(None);
    };
    match range_of(text) {
        Some(range) => Ok(Some(range)),
        None => Err(ToolFault::Words(format!(in alloc;
            "--range '{text}' is no range, as 3..10 is"
        )?)),
    }
}

fn format_of(text: Option<&str>) -> Format {
    match text {
        Some("csv") => Format::Csv,
        _ => Format::Ndjson,
    }
}

fn scan_job(alloc: Global, matches: &ArgMatches<'_>) -> Result<ScanJob, ToolFault> {
    Ok(ScanJob {
        paths: paths_of(alloc, matches)?,
        select: owned_if(alloc, matches.get_str("select"))?,
        condition: owned_if(alloc, matches.get_str("where"))?,
        range: range_in(alloc, matches)?,
        limit: matches.get_one::<u64>("limit"),
        ordered: !matches.get_flag("unordered"),
        workers: usize::from(matches.get_one::<u16>("workers").unwrap_or(1)),
        format: format_of(matches.get_str("format")),
        checks: matches.get_flag("check"),
        report: matches.get_flag("report"),
        progress: matches.get_flag("progress"),
    })
}

fn spelling_of(alloc: Global, number: Option<u8>) -> Result<Spelling, ToolFault> {
    match number {
        Some(1) => Ok(Spelling::One),
        Some(2) => Ok(Spelling::Two),
        _ => Err(ToolFault::Words(String::from_str(alloc, "--spelling is 1 or 2")?)),
    }
}

fn import_job(alloc: Global, matches: &ArgMatches<'_>) -> Result<ImportJob, ToolFault> {
    Ok(ImportJob {
        from: owned(alloc, matches.get_str("IN"))?,
        to: owned(alloc, matches.get_str("OUT"))?,
        dtype: owned_if(alloc, matches.get_str("dtype"))?,
        rows: matches.get_one::<u32>("rows").unwrap_or(32_768) as usize,
        spelling: spelling_of(alloc, matches.get_one::<u8>("spelling"))?,
        progress: matches.get_flag("progress"),
    })
}

/// The job of a subcommand.
fn job_of(alloc: Global, name: &str, matches: &ArgMatches<'_>) -> Result<Job, ToolFault> {
    match name {
        "show" => Ok(Job::Show(owned(alloc, matches.get_str("FILE"))?)),
        "verify" => Ok(Job::Verify(VerifyJob {
            paths: paths_of(alloc, matches)?,
            progress: matches.get_flag("progress"),
        })),
        "explain" => Ok(Job::Explain(scan_job(alloc, matches)?)),
        "import" => Ok(Job::Import(import_job(alloc, matches)?)),
        _ => Ok(Job::Scan(scan_job(alloc, matches)?)),
    }
}

/// What the words of a command line say. The first is the program's name. Where they are no command, or ask for help, it
/// is what the parser of words tells.
///
/// # Errors
/// `Words` where a range or a spelling is none, and `NoMemory`.
pub fn words_said(alloc: Global, words: &[String]) -> Result<Said, ToolFault> {
    let matches = match command(alloc)?.try_get_matches_from(words) {
        Ok(matches) => matches,
        Err(error) => return Ok(Said::Told(error)),
    };
    match matches.subcommand() {
        Some((name, below)) => Ok(Said::Job(job_of(alloc, name, below)?)),
        None => Err(ToolFault::Words(String::from_str(alloc, "no command is named")?)),
    }
}
