//! A manifest: a dtype, files and a request, read from JSON.
ghost use Rattle.std.specs.Prelude.{◌≡◌, ◌<◌, ◌≤◌, [], length, IfOk, Some, None, option_map, option_and_then, codes, true};
ghost use Rattle.std.specs.Result.{result_ok};
ghost use Rattle.hex.specs.Hex.{decode_of};
ghost use Rattle.serde_json.specs.View.{view, items_view};
ghost use Rattle.serde_json.specs.Find.{get, as_str, as_array};
ghost use Rattle.scan_manifest.specs.Parse.{IsParse, IsParseBy};
ghost use Rattle.scan_manifest.specs.Json.{number_of, number_to, optional, each, list_in};
ghost use Rattle.scan_manifest.specs.Manifest.{maybe, rising, rising_in, range_in, selection_from, selection_in, wanted_in, request_in, segment_in, segments_from, segments_in, same_segments, no_calls, calls_in, file_in, files_in, eviction_named, from_one, cache_in, usual_cache, manifest_with, manifest_in, IsManifest};
ghost use Rattle.scan_manifest.specs.DTypes.{dtype_in};
ghost use Rattle.scan_manifest.specs.Layouts.{layout_in};
ghost use Rattle.scan_manifest.specs.Exprs.{expr_in};
ghost use Rattle.scan_values.specs.StrictSorted.{is_rising};

use crate::agreement::files_agree;
use crate::dtype::read_dtype;
use crate::expression::read_expr;
use crate::hex_digits::decode;
use crate::json::{
    Form, ParseFault, has_form, member, read_flag, read_items, read_mark, read_number,
    read_number_to, read_pair, read_text,
};
use crate::layout::read_layout;
use scan_caches::SegmentEviction;
use scan_expr::{Expression, ScanRequest};
use scan_layout::LayoutRef;
use scan_segments::{ByteBuffer, SegmentId};
use scan_values::{DType, NoMemory, Selection, StrictSorted, Text};
use serde_json::Value;
use std::alloc::Global;
use std::collections::BTreeMap;
use std::marker::Model;
use std::ops::Range;

/// The numbers of the calls of an object that fail, and of those that are pending.
#[derive(Drop)]
pub struct Calls {
    pub fail: StrictSorted,
    pub pending: StrictSorted,
}

/// A layout tree. Contracts see it as its layout.
#[derive(Drop)]
pub struct LayoutTree {
    root: LayoutRef,
}

impl Model for LayoutTree {
    ghost use Rattle.scan_layout.specs.Layout.{Layout};
    ghost use Rattle.scan_layout.specs.LayoutCode.{layout_code};

    ghost Value = { Layout };

    ghost coded = { layout_code };

    ghost view = { λ a. a.root.value };
}

impl LayoutTree {
    /// The tree under a root.
    pub fn new(root: LayoutRef) -> Self
        ensures { result ≡ root.value }
    {
        LayoutTree { root }
    }

    /// Its root.
    pub fn into_root(self) -> LayoutRef
        ensures { result.value ≡ self }
    {
        self.root
    }
}

/// Segments by their ids. Contracts see them as a list of ids and bytes, by rising ids.
#[derive(Drop)]
pub struct Segments {
    map: BTreeMap<SegmentId, ByteBuffer>,
}

impl Model for Segments {
    ghost use Rattle.std.specs.Prelude.{List, ℕ};

    ghost Value = { List (ℕ × List ℕ) };

    ghost view = { λ a. a.map.entries };
}

impl Segments {
    /// The segments of a map.
    pub fn new(map: BTreeMap<SegmentId, ByteBuffer>) -> Self
        ensures { result ≡ map.entries }
    {
        Segments { map }
    }

    /// Whether these are the same ids, each with the same bytes.
    pub fn same(&self, other: &Segments) -> bool
        ensures { result ≡ same_segments self.now other.now }
    {
        if self.map.len() != other.map.len() {
            return false;
        }
        for ((id, bytes), (other_id, other_bytes)) in self.map.iter().zip(other.map.iter()) {
            if id != other_id {
                return false;
            }
            if bytes.as_slice() != other_bytes.as_slice() {
                return false;
            }
        }
        true
    }

    /// Its map.
    pub fn into_map(self) -> BTreeMap<SegmentId, ByteBuffer>
        ensures { result.entries ≡ self }
    {
        self.map
    }
}

/// A file of a manifest: the name of its source, its layout, its segments, whether its opener skips it, and which calls
/// of its opener and its source fail or are pending.
#[derive(Drop)]
pub struct FileSpec {
    pub id: Text,
    pub layout: LayoutTree,
    pub segments: Segments,
    pub skip: bool,
    pub opener: Calls,
    pub source: Calls,
}

/// The files of a manifest. Contracts see them as a list.
#[derive(Drop)]
pub struct Files {
    items: Vec<FileSpec>,
}

impl Model for Files {
    ghost use Rattle.std.specs.Prelude.{List};
    ghost use Rattle.std.specs.Coded.{coded_list};
    ghost use Rattle.scan_manifest.specs.declared.manifest.FileSpec.{FileSpec};
    ghost use Rattle.scan_manifest.specs.FileCode.{file_code};

    ghost Value = { List FileSpec };

    ghost coded = { coded_list file_code };

    ghost view = { λ a. a.items.items };
}

impl Files {
    /// The files of a list.
    pub fn new(items: Vec<FileSpec>) -> Self
        ensures { result ≡ items.items }
    {
        Files { items }
    }

    /// The list, lent.
    pub fn as_slice(&self) -> &[FileSpec]
        ensures { result.now ≡ self.now }
    {
        self.items.as_slice()
    }

    /// Its list.
    pub fn into_vec(self) -> Vec<FileSpec>
        ensures { result.items ≡ self }
    {
        self.items
    }
}

/// How large a cache is, and what it drops first. It has 1 to 65,536 entries.
#[derive(Drop)]
pub struct CacheSpec {
    bytes: u64,
    entries: usize,
    eviction: SegmentEviction,
}

impl Model for CacheSpec {
    ghost use Rattle.std.specs.Prelude.{◌<◌, ◌≤◌};
    ghost use Rattle.scan_manifest.specs.CacheSize.{CacheSize};

    ghost Value = { CacheSize };

    ghost view = { λ c. record { bytes = c.bytes; entries = c.entries; eviction = c.eviction } };

    ghost invariant = { λ c. (0 < c.entries) × (c.entries ≤ 65536) };
}

impl CacheSpec {
    /// A cache of so many bytes and entries.
    pub fn new(bytes: u64, entries: usize, eviction: SegmentEviction) -> Self
        requires { (0 < entries) × (entries ≤ 65536) }
        ensures { result ≡ record { bytes = bytes; entries = entries; eviction = eviction } }
    {
        CacheSpec {
            bytes,
            entries,
            eviction,
        }
    }

    /// The most bytes that it keeps.
    pub fn bytes(&self) -> u64
        ensures { result ≡ self.now.bytes }
    {
        self.bytes
    }

    /// The most entries that it keeps.
    pub fn entries(&self) -> usize
        ensures exact { result ≡ self.now.entries }
        ensures some { 0 < result }
        ensures most { result ≤ 65536 }
    {
        self.entries
    }

    /// Which entries it drops first.
    pub fn eviction(&self) -> SegmentEviction
        ensures { result ≡ self.now.eviction }
    {
        self.eviction
    }
}

/// What a scan is made from.
#[derive(Drop)]
pub struct Manifest {
    pub dtype: DType,
    pub files: Files,
    pub request: ScanRequest,
    pub workers: usize,
    pub cache: CacheSpec,
}

fn read_number_list(alloc: Global, list: &[Value]) -> Result<Vec<u64>, ParseFault>
    ensures { IsParseBy (λ v. v.items) (each number_of (items_view list.now)) result }
{
    let mut numbers = Vec::new(alloc);
    for json in list {
        numbers.push(read_number(json)?)?;
    }
    Ok(numbers)
}

fn read_rising(alloc: Global, json: &Value) -> Result<StrictSorted, ParseFault>
    ensures { IsParse (rising_in (view json.now)) result }
{
    let numbers = read_number_list(alloc, read_items(json)?)?;
    match StrictSorted::try_new(numbers) {
        Ok(numbers) => Ok(numbers),
        Err(_) => Err(ParseFault::Bad),
    }
}

fn read_range(json: &Value) -> Result<Range<u64>, ParseFault>
    ensures { IsParse (range_in (view json.now)) result }
{
    let (start, end) = read_pair(json)?;
    let start = read_number(start)?;
    let end = read_number(end)?;
    Ok(start..end)
}

fn read_maybe_range(json: &Value, name: &str) -> Result<Option<Range<u64>>, ParseFault>
    ensures { IsParse (maybe range_in (get name.now (view json.now))) result }
{
    match json.get(name) {
        Some(range) => Ok(Some(read_range(range)?)),
        None => Ok(None),
    }
}

fn read_limit(json: &Value) -> Result<Option<u64>, ParseFault>
    ensures { IsParse (maybe number_of (get (codes "limit") (view json.now))) result }
{
    match json.get("limit") {
        Some(limit) => Ok(Some(read_number(limit)?)),
        None => Ok(None),
    }
}

fn read_filter(alloc: Global, json: &Value) -> Result<Option<Expression>, ParseFault>
    ensures { IsParse (maybe expr_in (get (codes "filter") (view json.now))) result }
{
    match json.get("filter") {
        Some(filter) => Ok(Some(read_expr(alloc, filter)?)),
        None => Ok(None),
    }
}

fn read_selection(alloc: Global, json: &Value) -> Result<Selection, ParseFault>
    ensures { IsParse (selection_in (view json.now)) result }
{
    match json.get("include") {
        Some(include) => match json.get("exclude") {
            Some(_) => Err(ParseFault::Bad),
            None => Ok(Selection::IncludeByIndex(read_rising(alloc, include)?)),
        },
        None => match json.get("exclude") {
            Some(exclude) => Ok(Selection::ExcludeByIndex(read_rising(alloc, exclude)?)),
            None => Ok(Selection::All),
        },
    }
}

/// The projection of a request, and its filter.
fn read_wanted(alloc: Global, json: &Value) -> Result<(Expression, Option<Expression>), ParseFault>
    ensures { IsParse (wanted_in (view json.now)) result }
{
    let projection = read_expr(alloc, member(json, "projection")?)?;
    let filter = read_filter(alloc, json)?;
    Ok((projection, filter))
}

fn read_request(alloc: Global, json: &Value) -> Result<ScanRequest, ParseFault>
    ensures { IsParse (request_in (view json.now)) result }
{
    if !has_form(Form::Request, json) {
        return Err(ParseFault::Bad);
    }
    let row_range = read_maybe_range(json, "range")?;
    let ordered = read_flag(json, "ordered", true)?;
    let limit = read_limit(json)?;
    let partition_range = read_maybe_range(json, "partitions")?;
    let selection = read_selection(alloc, json)?;
    let (projection, filter) = read_wanted(alloc, json)?;
    Ok(ScanRequest {
        projection,
        filter,
        row_range,
        selection,
        partition_selection: Selection::All,
        partition_range,
        ordered,
        limit,
    })
}

fn read_hex(alloc: Global, text: &str) -> Result<ByteBuffer, ParseFault>
    ensures { IsParse (result_ok (decode_of text.now)) result }
{
    match decode(alloc, text.as_bytes()) {
        Ok(bytes) => Ok(ByteBuffer::new(alloc, bytes)?),
        Err(hex::FromHexError::OutOfMemory) => Err(ParseFault::NoMemory),
        Err(_) => Err(ParseFault::Bad),
    }
}

fn read_segment(alloc: Global, json: &Value) -> Result<(SegmentId, ByteBuffer), ParseFault>
    ensures { IsParse (segment_in (view json.now)) result }
{
    let (id, text) = read_pair(json)?;
    let id = read_number_to(id, 4_294_967_295)?;
    let bytes = read_hex(alloc, read_text(text)?)?;
    Ok((SegmentId::from(id as u32), bytes))
}

fn read_segment_list(
    alloc: Global,
    list: &[Value],
) -> Result<BTreeMap<SegmentId, ByteBuffer>, ParseFault>
    ensures { IsParseBy (λ m. m.entries) (segments_from [] (items_view list.now)) result }
{
    let mut map = BTreeMap::new(alloc);
    for json in list {
        let (id, bytes) = read_segment(alloc, json)?;
        if map.contains_key(&id) {
            return Err(ParseFault::Bad);
        }
        map.insert(id, bytes)?;
    }
    Ok(map)
}

fn read_segments(alloc: Global, json: &Value) -> Result<Segments, ParseFault>
    ensures { IsParse (segments_in (view json.now)) result }
{
    Ok(Segments::new(read_segment_list(alloc, read_items(json)?)?))
}

fn no_numbers(alloc: Global) -> Result<StrictSorted, ParseFault>
    ensures { IsParse (Some []) result }
{
    match StrictSorted::try_new(Vec::new(alloc)) {
        Ok(numbers) => Ok(numbers),
        Err(_) => Err(ParseFault::NoMemory),
    }
}

fn read_calls_at(alloc: Global, json: &Value, name: &str) -> Result<StrictSorted, ParseFault>
    ensures { IsParse (optional [] rising_in (get name.now (view json.now))) result }
{
    match json.get(name) {
        Some(numbers) => read_rising(alloc, numbers),
        None => no_numbers(alloc),
    }
}

fn read_calls(alloc: Global, json: &Value) -> Result<Calls, ParseFault>
    ensures { IsParse (calls_in (view json.now)) result }
{
    if !has_form(Form::Calls, json) {
        return Err(ParseFault::Bad);
    }
    let fail = read_calls_at(alloc, json, "fail")?;
    let pending = read_calls_at(alloc, json, "pending")?;
    Ok(Calls { fail, pending })
}

fn read_maybe_calls(alloc: Global, json: &Value, name: &str) -> Result<Calls, ParseFault>
    ensures { IsParse (optional no_calls calls_in (get name.now (view json.now))) result }
{
    match json.get(name) {
        Some(calls) => read_calls(alloc, calls),
        None => {
            let fail = no_numbers(alloc)?;
            let pending = no_numbers(alloc)?;
            Ok(Calls { fail, pending })
        }
    }
}

fn read_file_dtype(alloc: Global, json: &Value, dtype: &DType) -> Result<DType, ParseFault>
    ensures { IsParse (optional dtype.now dtype_in (get (codes "dtype") (view json.now))) result }
{
    match json.get("dtype") {
        Some(own) => read_dtype(alloc, own),
        None => Ok(dtype.try_clone(alloc)?),
    }
}

fn read_tree(alloc: Global, dtype: DType, json: &Value) -> Result<LayoutTree, ParseFault>
    ensures { IsParse (layout_in dtype (view json.now)) result }
{
    Ok(LayoutTree::new(read_layout(alloc, dtype, json)?))
}

fn read_id(alloc: Global, json: &Value) -> Result<Text, ParseFault>
    ensures { IsParse (as_str (view json.now)) result }
{
    let text = read_text(json)?;
    Ok(Text::new(String::from_str(alloc, text)?))
}

fn read_file(alloc: Global, json: &Value, dtype: &DType) -> Result<FileSpec, ParseFault>
    ensures { IsParse (file_in dtype.now (view json.now)) result }
{
    if !has_form(Form::File, json) {
        return Err(ParseFault::Bad);
    }
    let id = read_id(alloc, member(json, "id")?)?;
    let dtype = read_file_dtype(alloc, json, dtype)?;
    let layout = read_tree(alloc, dtype, member(json, "layout")?)?;
    let segments = read_segments(alloc, member(json, "segments")?)?;
    let skip = read_mark(json, "skip")?;
    let opener = read_maybe_calls(alloc, json, "open")?;
    let source = read_maybe_calls(alloc, json, "source")?;
    Ok(FileSpec {
        id,
        layout,
        segments,
        skip,
        opener,
        source,
    })
}

fn eviction_named(name: &str) -> Option<SegmentEviction>
    ensures { result ≡ eviction_named name.now }
{
    match name {
        "lru" => Some(SegmentEviction::Lru),
        "use_counts" => Some(SegmentEviction::TinyLfu),
        _ => None,
    }
}

fn read_eviction(json: &Value) -> Result<SegmentEviction, ParseFault>
    ensures { IsParse (option_and_then eviction_named (as_str (view json.now))) result }
{
    match eviction_named(read_text(json)?) {
        Some(eviction) => Ok(eviction),
        None => Err(ParseFault::Bad),
    }
}

fn read_entries(json: &Value) -> Result<usize, ParseFault>
    ensures parsed { IsParse (from_one (option_and_then (number_to 65_536) (get (codes "entries") (view json.now)))) result }
    ensures within { IfOk result (λ n. (0 < n) × (n ≤ 65536)) }
{
    let n = read_number_to(member(json, "entries")?, 65_536)?;
    if n < 1 {
        return Err(ParseFault::Bad);
    }
    Ok(n as usize)
}

fn read_cache(json: &Value) -> Result<CacheSpec, ParseFault>
    ensures { IsParse (cache_in (view json.now)) result }
{
    if !has_form(Form::Cache, json) {
        return Err(ParseFault::Bad);
    }
    let bytes = read_number(member(json, "bytes")?)?;
    let entries = read_entries(json)?;
    let eviction = read_eviction(member(json, "eviction")?)?;
    Ok(CacheSpec::new(bytes, entries, eviction))
}

fn read_maybe_cache(json: &Value) -> Result<CacheSpec, ParseFault>
    ensures { IsParse (optional usual_cache cache_in (get (codes "cache") (view json.now))) result }
{
    match json.get("cache") {
        Some(cache) => read_cache(cache),
        None => Ok(CacheSpec::new(1_048_576, 1024, SegmentEviction::Lru)),
    }
}

fn read_workers(json: &Value) -> Result<usize, ParseFault>
    ensures { IsParse (optional 1 (number_to 256) (get (codes "workers") (view json.now))) result }
{
    match json.get("workers") {
        Some(workers) => {
            let n = read_number_to(workers, 256)?;
            Ok(n as usize)
        }
        None => Ok(1),
    }
}

fn read_file_list(alloc: Global, list: &[Value], dtype: &DType) -> Result<Vec<FileSpec>, ParseFault>
    ensures { IsParseBy (λ v. v.items) (each (file_in dtype.now) (items_view list.now)) result }
{
    let mut files = Vec::new(alloc);
    for json in list {
        files.push(read_file(alloc, json, dtype)?)?;
    }
    Ok(files)
}

/// The files of a manifest of this dtype.
fn read_files(alloc: Global, json: &Value, dtype: &DType) -> Result<Files, ParseFault>
    ensures { IsParse (files_in dtype.now (view json.now)) result }
{
    let list = read_items(member(json, "files")?)?;
    Ok(Files::new(read_file_list(alloc, list, dtype)?))
}

/// The rest of a manifest of this dtype and these files.
fn read_rest(
    alloc: Global,
    json: &Value,
    dtype: DType,
    files: Files,
) -> Result<Manifest, ParseFault>
    ensures { IsParse (manifest_with (view json.now) dtype files) result }
{
    if !files_agree(alloc, files.as_slice())? {
        return Err(ParseFault::Bad);
    }
    let workers = read_workers(json)?;
    let cache = read_maybe_cache(json)?;
    let request = read_request(alloc, member(json, "request")?)?;
    Ok(Manifest {
        dtype,
        files,
        request,
        workers,
        cache,
    })
}

fn read_manifest(alloc: Global, json: &Value) -> Result<Manifest, ParseFault>
    ensures { IsParse (manifest_in (view json.now)) result }
{
    if !has_form(Form::Manifest, json) {
        return Err(ParseFault::Bad);
    }
    let dtype = read_dtype(alloc, member(json, "dtype")?)?;
    let files = read_files(alloc, json, &dtype)?;
    read_rest(alloc, json, dtype, files)
}

/// The manifest that a JSON value says, of any number of files; none exactly where it says no manifest.
///
/// # Errors
///
/// `NoMemory`.
pub fn manifest_of(alloc: Global, json: &Value) -> Result<Option<Manifest>, NoMemory>
    ensures { IfOk result (λ m. m ≡ manifest_in (view json.now)) }
{
    match read_manifest(alloc, json) {
        Ok(manifest) => Ok(Some(manifest)),
        Err(ParseFault::Bad) => Ok(None),
        Err(ParseFault::NoMemory) => Err(NoMemory),
    }
}

/// The manifest that some bytes are, of any number of files: one JSON value in UTF-8, with nothing behind it, that says
/// a manifest.
///
/// # Errors
///
/// `Bad` exactly where the bytes are no manifest, and `NoMemory`.
pub fn manifest_of_bytes(alloc: Global, bytes: &[u8]) -> Result<Manifest, ParseFault>
    ensures ok { IfOk result (λ m. IsManifest bytes.now m) }
    ensures bad { result ≡ Err ParseFault.Bad → (m : Manifest) → ¬ IsManifest bytes.now m }
{
    match Value::from_slice(alloc, bytes) {
        Ok(json) => read_manifest(alloc, &json),
        Err(e) => {
            if e.is_memory() {
                Err(ParseFault::NoMemory)
            } else {
                Err(ParseFault::Bad)
            }
        }
    }
}
