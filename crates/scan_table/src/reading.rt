//! The input of the program: a manifest, keys and measures, read from JSON.
ghost use Rattle.std.specs.Prelude.{◌≡◌, Err, IfOk, option_and_then, string_bytes};
ghost use Rattle.std.specs.List.{list_all};
ghost use Rattle.std.specs.BTreeMap.{keys};
ghost use Rattle.serde_json.specs.View.{items_view, view};
ghost use Rattle.serde_json.specs.Find.{as_array, as_str, get};
ghost use Rattle.scan_manifest.specs.Exprs.{expr_in};
ghost use Rattle.scan_manifest.specs.Json.{each};
ghost use Rattle.scan_manifest.specs.Parse.{IsParse, IsParseBy};
ghost use Rattle.scan_table.specs.Jobs.{Asks, IsJob, IsOf, count_in, free_manifest_in, has_job_form, is_free, is_job_key, key_in, key_of, keys_at, manifest_at, measure_in, measure_of, measure_over, measures_at, named_count, named_over, named_part, over_in, rooted};
ghost use Rattle.scan_manifest.specs.Manifest.{manifest_in};
ghost use Rattle.scan_manifest.specs.declared.json.ParseFault.{ParseFault};
ghost use Rattle.scan_table.specs.declared.reading.Job.{Job};

use crate::spec::{Measure, TableSpec};
use scan_expr::{Expression, ScanRequest};
use scan_manifest::{CacheSpec, Files, Manifest, ParseFault, manifest_of, read_expression};
use scan_values::{DType, FieldName};
use serde_json::{Map, Value};
use std::alloc::Global;

/// What the program is to do: a table of files of a dtype, by so many workers over a cache.
#[derive(Drop)]
pub struct Job {
    pub dtype: DType,
    pub files: Files,
    pub spec: TableSpec,
    pub workers: usize,
    pub cache: CacheSpec,
}

fn is_job_key(key: &str) -> bool
    ensures { result ≡ is_job_key key.now }
{
    key == "manifest" || key == "keys" || key == "measures"
}

fn has_job_keys(map: &Map<String, Value>) -> bool
    ensures { result ≡ list_all (λ k. is_job_key (string_bytes k)) (keys map.now) }
{
    map.keys().all(|k| is_job_key(k.as_str()))
}

/// Whether a value is an object without a key of another name.
fn has_job_form(json: &Value) -> bool
    ensures { result ≡ has_job_form (view json.now) }
{
    match json.as_object() {
        Some(map) => has_job_keys(map),
        None => false,
    }
}

fn member<'a>(json: &'a Value, name: &str) -> Result<&'a Value, ParseFault>
    ensures { IsParseBy (λ v. view v.now) (get name.now (view json.now)) result }
{
    match json.get(name) {
        Some(value) => Ok(value),
        None => Err(ParseFault::Bad),
    }
}

fn read_items(json: &Value) -> Result<&[Value], ParseFault>
    ensures { IsParseBy (λ s. items_view s.now) (as_array (view json.now)) result }
{
    match json.as_array() {
        Some(items) => Ok(items.as_slice()),
        None => Err(ParseFault::Bad),
    }
}

fn read_text(json: &Value) -> Result<&str, ParseFault>
    ensures { IsParseBy (λ s. s.now) (as_str (view json.now)) result }
{
    match json.as_str() {
        Some(text) => Ok(text),
        None => Err(ParseFault::Bad),
    }
}

fn read_name(alloc: Global, json: &Value) -> Result<FieldName, ParseFault>
    ensures { IsParse (as_str (view json.now)) result }
{
    let text = read_text(json)?;
    Ok(FieldName::new(String::from_str(alloc, text)?))
}

fn read_part(alloc: Global, json: &Value) -> Result<Expression, ParseFault>
    ensures { IsParse (expr_in (view json.now)) result }
{
    match read_expression(alloc, json)? {
        Some(part) => Ok(part),
        None => Err(ParseFault::Bad),
    }
}

fn named_part(
    alloc: Global,
    name: &Value,
    part: &Value,
) -> Result<(FieldName, Expression), ParseFault>
    ensures { IsParse (named_part (view name.now) (view part.now)) result }
{
    let name = read_name(alloc, name)?;
    let part = read_part(alloc, part)?;
    Ok((name, part))
}

fn key_of(alloc: Global, items: &[Value]) -> Result<(FieldName, Expression), ParseFault>
    ensures { IsParse (key_of (items_view items.now)) result }
{
    match items {
        [name, part] => named_part(alloc, name, part),
        _ => Err(ParseFault::Bad),
    }
}

/// A key, as `[name, E]`.
fn read_key(alloc: Global, json: &Value) -> Result<(FieldName, Expression), ParseFault>
    ensures { IsParse (key_in (view json.now)) result }
{
    key_of(alloc, read_items(json)?)
}

fn read_key_list(alloc: Global, list: &[Value]) -> Result<Vec<(FieldName, Expression)>, ParseFault>
    ensures { IsParseBy (λ v. v.items) (each key_in (items_view list.now)) result }
{
    let mut keys = Vec::new(alloc);
    for json in list {
        keys.push(read_key(alloc, json)?)?;
    }
    Ok(keys)
}

fn read_keys(alloc: Global, json: &Value) -> Result<Vec<(FieldName, Expression)>, ParseFault>
    ensures { IsParseBy (λ v. v.items) (keys_at (view json.now)) result }
{
    read_key_list(alloc, read_items(member(json, "keys")?)?)
}

fn measure_over(kind: &str, part: Expression) -> Result<Measure, ParseFault>
    ensures { IsParse (measure_over kind.now part) result }
{
    if kind == "values" {
        return Ok(Measure::Values(part));
    }
    if kind == "sum" {
        return Ok(Measure::Sum(part));
    }
    if kind == "least" {
        return Ok(Measure::Least(part));
    }
    if kind == "greatest" {
        return Ok(Measure::Greatest(part));
    }
    Err(ParseFault::Bad)
}

/// `"count"` alone.
fn read_count(json: &Value) -> Result<Measure, ParseFault>
    ensures { IsParse (count_in (view json.now)) result }
{
    if read_text(json)? == "count" {
        Ok(Measure::Count)
    } else {
        Err(ParseFault::Bad)
    }
}

fn read_over(alloc: Global, kind: &Value, part: &Value) -> Result<Measure, ParseFault>
    ensures { IsParse (over_in (view kind.now) (view part.now)) result }
{
    let part = read_part(alloc, part)?;
    measure_over(read_text(kind)?, part)
}

fn named_count(
    alloc: Global,
    name: &Value,
    kind: &Value,
) -> Result<(FieldName, Measure), ParseFault>
    ensures { IsParse (named_count (view name.now) (view kind.now)) result }
{
    let name = read_name(alloc, name)?;
    let measure = read_count(kind)?;
    Ok((name, measure))
}

fn named_over(
    alloc: Global,
    name: &Value,
    kind: &Value,
    part: &Value,
) -> Result<(FieldName, Measure), ParseFault>
    ensures { IsParse (named_over (view name.now) (view kind.now) (view part.now)) result }
{
    let name = read_name(alloc, name)?;
    let measure = read_over(alloc, kind, part)?;
    Ok((name, measure))
}

fn measure_of(alloc: Global, items: &[Value]) -> Result<(FieldName, Measure), ParseFault>
    ensures { IsParse (measure_of (items_view items.now)) result }
{
    match items {
        [name, kind] => named_count(alloc, name, kind),
        [name, kind, part] => named_over(alloc, name, kind, part),
        _ => Err(ParseFault::Bad),
    }
}

/// A measure, as `[name, "count"]` or `[name, kind, E]`.
fn read_measure(alloc: Global, json: &Value) -> Result<(FieldName, Measure), ParseFault>
    ensures { IsParse (measure_in (view json.now)) result }
{
    measure_of(alloc, read_items(json)?)
}

fn read_measure_list(alloc: Global, list: &[Value]) -> Result<Vec<(FieldName, Measure)>, ParseFault>
    ensures { IsParseBy (λ v. v.items) (each measure_in (items_view list.now)) result }
{
    let mut measures = Vec::new(alloc);
    for json in list {
        measures.push(read_measure(alloc, json)?)?;
    }
    Ok(measures)
}

fn read_measures(alloc: Global, json: &Value) -> Result<Vec<(FieldName, Measure)>, ParseFault>
    ensures { IsParseBy (λ v. v.items) (measures_at (view json.now)) result }
{
    read_measure_list(alloc, read_items(member(json, "measures")?)?)
}

/// Whether a request says nothing of order, limit and partitions.
fn is_free(request: &Value) -> bool
    ensures { result ≡ is_free (view request.now) }
{
    request.get("ordered").is_none()
        && request.get("limit").is_none()
        && request.get("partitions").is_none()
}

/// A manifest whose projection is `$`.
fn read_rooted(alloc: Global, json: &Value) -> Result<Manifest, ParseFault>
    ensures { IsParse (option_and_then rooted (manifest_in (view json.now))) result }
{
    let Some(manifest) = manifest_of(alloc, json)? else {
        return Err(ParseFault::Bad);
    };
    if manifest.request.projection.is_root() {
        Ok(manifest)
    } else {
        Err(ParseFault::Bad)
    }
}

/// One whose request says nothing of order, limit and partitions, too.
fn read_free(alloc: Global, json: &Value) -> Result<Manifest, ParseFault>
    ensures { IsParse (free_manifest_in (view json.now)) result }
{
    if !is_free(member(json, "request")?) {
        return Err(ParseFault::Bad);
    }
    read_rooted(alloc, json)
}

fn read_manifest(alloc: Global, json: &Value) -> Result<Manifest, ParseFault>
    ensures { IsParse (manifest_at (view json.now)) result }
{
    read_free(alloc, member(json, "manifest")?)
}

fn job_of(
    manifest: Manifest,
    keys: Vec<(FieldName, Expression)>,
    measures: Vec<(FieldName, Measure)>,
) -> Job
    ensures of { IsOf manifest result }
    ensures keys { result.spec.keys.items ≡ keys.items }
    ensures measures { result.spec.measures.items ≡ measures.items }
{
    let Manifest {
        dtype,
        files,
        request,
        workers,
        cache,
    } = manifest;
    let ScanRequest {
        projection: _,
        filter,
        row_range,
        selection,
        partition_selection: _,
        partition_range: _,
        ordered: _,
        limit: _,
    } = request;
    Job {
        dtype,
        files,
        spec: TableSpec {
            keys,
            measures,
            filter,
            row_range,
            selection,
        },
        workers,
        cache,
    }
}

/// What a JSON value asks for.
fn read_job(alloc: Global, json: &Value) -> Result<Job, ParseFault>
    ensures ok { IfOk result (Asks (view json.now)) }
    ensures bad { result ≡ Err ParseFault.Bad → (j : Job) → ¬ Asks (view json.now) j }
{
    if !has_job_form(json) {
        return Err(ParseFault::Bad);
    }
    let manifest = read_manifest(alloc, json)?;
    let keys = read_keys(alloc, json)?;
    let measures = read_measures(alloc, json)?;
    Ok(job_of(manifest, keys, measures))
}

/// The job that some bytes are.
pub(crate) fn job_of_bytes(alloc: Global, bytes: &[u8]) -> Result<Job, ParseFault>
    ensures ok { IfOk result (IsJob bytes.now) }
    ensures bad { result ≡ Err ParseFault.Bad → (j : Job) → ¬ IsJob bytes.now j }
{
    match Value::from_slice(alloc, bytes) {
        Ok(json) => read_job(alloc, &json),
        Err(e) => {
            if e.is_memory() {
                Err(ParseFault::NoMemory)
            } else {
                Err(ParseFault::Bad)
            }
        }
    }
}
