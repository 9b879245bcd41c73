//! The input of the program: a manifest and lists of places, read from JSON.
ghost use Rattle.std.specs.Prelude.{◌≡◌, Err, IfOk, option_and_then, option_map, string_bytes};
ghost use Rattle.std.specs.List.{list_all};
ghost use Rattle.std.specs.BTreeMap.{keys};
ghost use Rattle.serde_json.specs.View.{items_view, view};
ghost use Rattle.serde_json.specs.Find.{as_array, get};
ghost use Rattle.scan_manifest.specs.Json.{each, number_of};
ghost use Rattle.scan_manifest.specs.Manifest.{manifest_in};
ghost use Rattle.scan_manifest.specs.Parse.{IsParse, IsParseBy};
ghost use Rattle.scan_manifest.specs.declared.json.ParseFault.{ParseFault};
ghost use Rattle.scan_lookup_run.specs.Jobs.{IsJob, has_only, is_job_key, is_projection_key, job_in, job_of, lookups_at, manifest_at, place_at, place_in, place_of, places_in, projecting_in};
ghost use Rattle.scan_lookup_run.specs.declared.reading.Job.{Job};

use crate::places::{Lookups, Places};
use scan_expr::{Expression, ScanRequest};
use scan_lookup::Place;
use scan_manifest::{CacheSpec, Files, Manifest, ParseFault, manifest_of};
use scan_values::DType;
use serde_json::{Map, Value};
use std::alloc::Global;

/// What the program is to do: look-ups in files of a dtype, by a projection over a cache.
#[derive(Drop)]
pub struct Job {
    pub dtype: DType,
    pub files: Files,
    pub projection: Expression,
    pub cache: CacheSpec,
    pub lookups: Lookups,
}

fn is_job_key(key: &str) -> bool
    ensures { result ≡ is_job_key key.now }
{
    key == "manifest" || key == "lookups"
}

fn has_job_keys(map: &Map<String, Value>) -> bool
    ensures { result ≡ list_all (λ k. is_job_key (string_bytes k)) (keys map.now) }
{
    map.keys().all(|k| is_job_key(k.as_str()))
}

/// Whether a value is an object without a key of another name than a job's.
fn has_job_form(json: &Value) -> bool
    ensures { result ≡ has_only is_job_key (view json.now) }
{
    match json.as_object() {
        Some(map) => has_job_keys(map),
        None => false,
    }
}

fn is_projection_key(key: &str) -> bool
    ensures { result ≡ is_projection_key key.now }
{
    key == "projection"
}

fn has_projection_keys(map: &Map<String, Value>) -> bool
    ensures { result ≡ list_all (λ k. is_projection_key (string_bytes k)) (keys map.now) }
{
    map.keys().all(|k| is_projection_key(k.as_str()))
}

/// Whether a value is an object with no other key than a projection.
fn is_projecting(json: &Value) -> bool
    ensures { result ≡ has_only is_projection_key (view json.now) }
{
    match json.as_object() {
        Some(map) => has_projection_keys(map),
        None => false,
    }
}

fn member<'a>(json: &'a Value, name: &str) -> Result<&'a Value, ParseFault>
    ensures { IsParseBy (λ v. view v.now) (get name.now (view json.now)) result }
{
    match json.get(name) {
        Some(value) => Ok(value),
        None => Err(ParseFault::Bad),
    }
}

fn read_items(json: &Value) -> Result<&[Value], ParseFault>
    ensures { IsParseBy (λ s. items_view s.now) (as_array (view json.now)) result }
{
    match json.as_array() {
        Some(items) => Ok(items.as_slice()),
        None => Err(ParseFault::Bad),
    }
}

/// A whole number below 2^64.
fn read_number(json: &Value) -> Result<u64, ParseFault>
    ensures { IsParse (number_of (view json.now)) result }
{
    match json.as_u64() {
        Some(number) => Ok(number),
        None => Err(ParseFault::Bad),
    }
}

fn place_at(file: &Value, row: &Value) -> Result<Place, ParseFault>
    ensures { IsParse (place_at (view file.now) (view row.now)) result }
{
    let file = read_number(file)?;
    let row = read_number(row)?;
    Ok(Place {
        file: file as usize,
        row,
    })
}

fn place_of(items: &[Value]) -> Result<Place, ParseFault>
    ensures { IsParse (place_of (items_view items.now)) result }
{
    match items {
        [file, row] => place_at(file, row),
        _ => Err(ParseFault::Bad),
    }
}

/// A place, as `[file, row]`.
fn read_place(json: &Value) -> Result<Place, ParseFault>
    ensures { IsParse (place_in (view json.now)) result }
{
    place_of(read_items(json)?)
}

fn read_place_list(alloc: Global, list: &[Value]) -> Result<Vec<Place>, ParseFault>
    ensures { IsParseBy (λ v. v.items) (each place_in (items_view list.now)) result }
{
    let mut places = Vec::with_capacity(alloc, list.len())?;
    for json in list {
        places.push(read_place(json)?)?;
    }
    Ok(places)
}

/// The places of one look-up.
fn read_places(alloc: Global, json: &Value) -> Result<Places, ParseFault>
    ensures { IsParse (places_in (view json.now)) result }
{
    let items = read_place_list(alloc, read_items(json)?)?;
    Ok(Places::new(items))
}

fn read_lookup_list(alloc: Global, list: &[Value]) -> Result<Vec<Places>, ParseFault>
    ensures { IsParseBy (λ v. v.items) (each places_in (items_view list.now)) result }
{
    let mut lookups = Vec::with_capacity(alloc, list.len())?;
    for json in list {
        lookups.push(read_places(alloc, json)?)?;
    }
    Ok(lookups)
}

/// The places of all look-ups.
fn read_lookups(alloc: Global, json: &Value) -> Result<Lookups, ParseFault>
    ensures { IsParse (lookups_at (view json.now)) result }
{
    let lists = read_lookup_list(alloc, read_items(member(json, "lookups")?)?)?;
    Ok(Lookups::new(lists))
}

fn read_plain(alloc: Global, json: &Value) -> Result<Manifest, ParseFault>
    ensures { IsParse (manifest_in (view json.now)) result }
{
    match manifest_of(alloc, json)? {
        Some(manifest) => Ok(manifest),
        None => Err(ParseFault::Bad),
    }
}

/// A manifest whose request is a projection alone.
fn read_projecting(alloc: Global, json: &Value) -> Result<Manifest, ParseFault>
    ensures { IsParse (projecting_in (view json.now)) result }
{
    if !is_projecting(member(json, "request")?) {
        return Err(ParseFault::Bad);
    }
    read_plain(alloc, json)
}

fn read_manifest(alloc: Global, json: &Value) -> Result<Manifest, ParseFault>
    ensures { IsParse (manifest_at (view json.now)) result }
{
    read_projecting(alloc, member(json, "manifest")?)
}

fn job_of(manifest: Manifest, lookups: Lookups) -> Job
    ensures { result ≡ job_of manifest lookups }
{
    let Manifest {
        dtype,
        files,
        request,
        workers: _,
        cache,
    } = manifest;
    let ScanRequest {
        projection,
        filter: _,
        row_range: _,
        selection: _,
        partition_selection: _,
        partition_range: _,
        ordered: _,
        limit: _,
    } = request;
    Job {
        dtype,
        files,
        projection,
        cache,
        lookups,
    }
}

/// What a JSON value asks for.
fn read_job(alloc: Global, json: &Value) -> Result<Job, ParseFault>
    ensures { IsParse (job_in (view json.now)) result }
{
    if !has_job_form(json) {
        return Err(ParseFault::Bad);
    }
    let manifest = read_manifest(alloc, json)?;
    let lookups = read_lookups(alloc, json)?;
    Ok(job_of(manifest, lookups))
}

/// The job that some bytes are.
pub(crate) fn job_of_bytes(alloc: Global, bytes: &[u8]) -> Result<Job, ParseFault>
    ensures ok { IfOk result (IsJob bytes.now) }
    ensures bad { result ≡ Err ParseFault.Bad → (j : Job) → ¬ IsJob bytes.now j }
{
    match Value::from_slice(alloc, bytes) {
        Ok(json) => read_job(alloc, &json),
        Err(e) => {
            if e.is_memory() {
                Err(ParseFault::NoMemory)
            } else {
                Err(ParseFault::Bad)
            }
        }
    }
}
