//! The program, over any input and output.
ghost use Rattle.std.specs.Prelude.{◌≡◌, ◌↔◌, ◌<◌, ◌≤◌, ◌+◌, ◌++◌, ℕ, List, IfErr, IfOk, map, false, true, string_bytes};
ghost use Rattle.scan_values.specs.DataType.{struct_type};
ghost use Rattle.scan_values.specs.Val.{struct_val, vals_of};
ghost use Rattle.scan_values.specs.Values.{val_of};
ghost use Rattle.scan_values.specs.declared.ptype.Nullability.TheVariants.{NonNullable};
ghost use Rattle.scan_manifest.specs.Manifest.{all_agree};
ghost use Rattle.scan_run.specs.FileOf.{AreFilesOf, AreReady};
ghost use Rattle.scan_table.specs.AskedOf.{IsAsked};
ghost use Rattle.scan_table.specs.Runs.{Answers, EndsTable, HaltsTable, HasTableEnd, IsEnd, IsGiven, IsTableDone, IsTableReady, IsTextOf, TableWrites, WentWell, group_lines, is_table_words, named_fields, status_of_fault};
ghost use Rattle.scan_table.specs.declared.reading.Job.{Job};

use crate::fault::TableFault;
use crate::reading::{Job, job_of_bytes};
use crate::request::names_of;
use crate::scan::scan_table;
use crate::spec::TableSpec;
use scan_groups::Group;
use scan_manifest::{CacheSpec, ParseFault};
use scan_multi::{Gate, MemoryOpener, ScanFile};
use scan_run::run::{make_files, new_cache, status_of, stop_of};
use scan_run::{Input, MOST_BYTES, Output, ReadFault, WriteFault, push_value, read_all, write_all};
use scan_segments::MemorySource;
use scan_values::{DType, FieldName, NoMemory, Nullability, StructFields, Value, Values};
use std::alloc::Global;
use std::hash::BuildHasher;
use std::thread::Threads;

fn is_table(words: &[String]) -> bool
    ensures { result ≡ is_table_words (map string_bytes words.now) }
{
    match words {
        [word] => word.as_str() == "table",
        _ => false,
    }
}

/// The job of an input that is read to its end, or a status.
fn take_job<I: Input>(alloc: Global, input: &mut I) -> Result<Job, u8>
    ensures ok { IfOk result (λ j. IsGiven j (I.input input.old) (I.input input.new)) }
    ensures agree { IfOk result (λ j. all_agree j.files ≡ true) }
    ensures halt { IfErr result (λ s. HaltsTable s (I.input input.old) (I.input input.new)) }
    ensures stops { (I.input input.new).taken ≤ (I.input input.old).taken + (MOST_BYTES + 65_536) }
{
    match read_all(alloc, input) {
        Ok(bytes) => match job_of_bytes(alloc, bytes.as_slice()) {
            Ok(job) => Ok(job),
            Err(ParseFault::Bad) => Err(2),
            Err(ParseFault::NoMemory) => Err(7),
        },
        Err(ReadFault::TooLong) => Err(6),
        Err(ReadFault::Failed) => Err(6),
        Err(ReadFault::NoMemory) => Err(7),
    }
}

/// The status of a run whose table has a fault.
fn status_of_fault(fault: TableFault) -> u8
    ensures { result ≡ status_of_fault fault }
{
    match fault {
        TableFault::Scan(fault) => status_of(stop_of(fault)),
        TableFault::KeyType { key: _ } => 3,
        TableFault::MeasureType { measure: _ } => 3,
        TableFault::SumRange { measure: _ } => 4,
        TableFault::NoMemory => 7,
    }
}

/// A struct of scalars under these names. No dtype changes the text of a scalar.
fn line_dtype(alloc: Global, names: Vec<FieldName>) -> Result<DType, NoMemory>
    ensures { IfOk result (λ d. d ≡ struct_type (named_fields names.items) NonNullable) }
{
    let mut dtypes = Vec::with_capacity(alloc, names.len())?;
    for i in 0..names.len() {
        dtypes.push(DType::bool(Nullability::Nullable))?;
    }
    match DType::struct_(StructFields::new(names, dtypes), Nullability::NonNullable) {
        Ok(dtype) => Ok(dtype),
        Err(_) => Err(NoMemory),
    }
}

/// The values of a group, its key's before its measures'.
fn values_of(group: Group) -> Result<Value, NoMemory>
    ensures { IfOk result (λ v. val_of v ≡ struct_val (vals_of (group.key ++ group.measures))) }
{
    let Group { key, measures } = group;
    let mut values = key.into_vec();
    let mut measured = measures.into_vec();
    values.append(&mut measured)?;
    Ok(Value::Struct(Values::new(values)))
}

/// A line for each group: its key and its measures under these names.
fn text_of(alloc: Global, names: Vec<FieldName>, groups: Vec<Group>) -> Result<Vec<u8>, NoMemory>
    ensures { IfOk result (λ text. text.items ≡ group_lines names.items groups.items) }
{
    let dtype = line_dtype(alloc, names)?;
    let mut text = Vec::new(alloc);
    for group in groups {
        let values = values_of(group)?;
        push_value(&values, &dtype, &mut text)?;
        text.push(b'\n')?;
    }
    Ok(text)
}

/// What a job asks of its files.
struct Asked {
    dtype: DType,
    spec: TableSpec,
    workers: usize,
    cache: CacheSpec,
}

impl Drop for Asked {
    fn drop(self) {
        let Asked {
            dtype: _,
            spec: _,
            workers: _,
            cache: _,
        } = self;
    }
}

/// The lines of a table of files that were made.
fn made_text<R: Threads + Sync, G: Gate, H: BuildHasher + Copy + Drop>(
    rt: &R,
    alloc: Global,
    asked: &Asked,
    made: Vec<ScanFile<MemoryOpener, MemorySource>>,
    gate: &G,
    hasher: H,
) -> Result<Vec<u8>, TableFault>
    requires { AreReady made.items }
    ensures ok { IfOk result (λ text. (j : Job) → IsAsked j asked.now → AreFilesOf j.files made.items →
        IsTextOf j text.items) }
    ensures err { IfErr result (λ e. (j : Job) → IsAsked j asked.now → AreFilesOf j.files made.items →
        IsEnd j (status_of_fault e)) }
{
    let mut files = made;
    let mut cache = new_cache(alloc, &asked.cache, hasher)?;
    let table = scan_table(
        rt,
        alloc,
        &asked.dtype,
        &mut files,
        &mut cache,
        &asked.spec,
        asked.workers,
        gate,
    )?;
    let names = names_of(alloc, &asked.spec)?;
    Ok(text_of(alloc, names, table.groups)?)
}

/// The lines of a job's table.
fn table_text<R: Threads + Sync, G: Gate, H: BuildHasher + Copy + Drop>(
    rt: &R,
    alloc: Global,
    job: Job,
    gate: &G,
    hasher: H,
) -> Result<Vec<u8>, TableFault>
    requires { all_agree job.files ≡ true }
    ensures ok { IfOk result (λ text. IsTextOf job text.items) }
    ensures err { IfErr result (λ e. IsEnd job (status_of_fault e)) }
{
    let Job {
        dtype,
        files,
        spec,
        workers,
        cache,
    } = job;
    let asked = Asked {
        dtype,
        spec,
        workers,
        cache,
    };
    match make_files(alloc, files) {
        Ok(made) => made_text(rt, alloc, &asked, made, gate, hasher),
        Err(NoMemory) => Err(TableFault::NoMemory),
    }
}

/// The lines of the job that an input is, or a status.
fn take_text<R: Threads + Sync, I: Input, G: Gate, H: BuildHasher + Copy + Drop>(
    rt: &R,
    alloc: Global,
    input: &mut I,
    gate: &G,
    hasher: H,
) -> Result<Vec<u8>, u8>
    ensures ok { IfOk result (λ text. IsTableReady text.items (I.input input.old) (I.input input.new)) }
    ensures end { IfErr result (λ s. EndsTable s (I.input input.old) (I.input input.new)) }
    ensures stops { (I.input input.new).taken ≤ (I.input input.old).taken + (MOST_BYTES + 65_536) }
{
    match take_job(alloc, input) {
        Ok(job) => match table_text(rt, alloc, job, gate, hasher) {
            Ok(text) => Ok(text),
            Err(fault) => Err(status_of_fault(fault)),
        },
        Err(status) => Err(status),
    }
}

/// The program. With the word `table` it reads a manifest, keys and measures from the input, totals the rows of its
/// files, and writes a line for each group to the output. The words are those after the program's name. The answer is the
/// exit status: 0 the lines were written, 1 other words, 2 the input asks for no table, 3 the table has a fault, 4 a file
/// can't be read or a sum is neither an i64 nor a u64, 5 an opener or a source failed, 6 the input or the output failed
/// or the input has more than 67,108,864 bytes, 7 want of memory. The cache hashes names of the input by `hasher`.
pub fn run_table<R: Threads + Sync, I: Input, O: Output, G: Gate, H: BuildHasher + Copy + Drop>(
    rt: &R,
    alloc: Global,
    words: &[String],
    input: &mut I,
    output: &mut O,
    gate: &G,
    hasher: H,
) -> u8
    ensures words { (result ≡ 1) ↔ (is_table_words (map string_bytes words.now) ≡ false) }
    ensures unread { result ≡ 1 → I.input input.new ≡ I.input input.old }
    ensures done { result ≡ 0 →
        IsTableDone (I.input input.old) (I.input input.new) (O.output output.old) (O.output output.new) }
    ensures end { HasTableEnd result
        (I.input input.old) (I.input input.new) (O.output output.old) (O.output output.new) }
    ensures writes { TableWrites result
        (I.input input.old) (I.input input.new) (O.output output.old) (O.output output.new) }
    ensures answers { is_table_words (map string_bytes words.now) ≡ true → (bytes : List ℕ) →
        WentWell bytes (I.input input.old) (I.input input.new) (O.output output.old) (O.output output.new) →
        Answers bytes result }
    ensures stops { (I.input input.new).taken ≤ (I.input input.old).taken + (MOST_BYTES + 65_536) }
    ensures statuses { result < 8 }
{
    if !is_table(words) {
        return 1;
    }
    match take_text(rt, alloc, input, gate, hasher) {
        Ok(text) => match write_all(output, text.as_slice()) {
            Ok(()) => 0,
            Err(WriteFault::Failed) => 6,
            Err(WriteFault::NoMemory) => 7,
        },
        Err(status) => status,
    }
}
