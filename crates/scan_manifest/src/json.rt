//! Parts of a JSON value: numbers, truth values, pairs, and the keys of an object.
ghost use Rattle.std.specs.Prelude.{◌≡◌, ◌≤◌, Some, None, option_map, option_and_then, string_bytes};
ghost use Rattle.std.specs.List.{list_all};
ghost use Rattle.std.specs.BTreeMap.{keys};
ghost use Rattle.serde_json.specs.View.{view, items_view, members_view};
ghost use Rattle.serde_json.specs.Find.{get, as_array, as_str};
ghost use Rattle.scan_manifest.specs.Parse.{IsParse, IsParseBy};
ghost use Rattle.scan_manifest.specs.Forms.{is_key};
ghost use Rattle.scan_manifest.specs.Json.{has_form, number_of, number_to, flag_at, mark_at, pair_of, pair_in};

use scan_values::NoMemory;
use serde_json::{Map, Value};
use std::alloc::{AllocError, AllocFailed};
use thiserror::Error;

/// Why a manifest, or a part of one, was not read.
#[derive(Clone, Copy, Debug, PartialEq, Eq, Error)]
pub enum ParseFault {
    /// The bytes or the JSON value say no such thing, or one that is not served.
    #[error("no manifest that is served")]
    Bad,
    #[error("out of memory")]
    NoMemory,
}

impl From<NoMemory> for ParseFault {
    ghost use Rattle.std.specs.Prelude.{◌≡◌};
    ghost use Rattle.scan_manifest.specs.declared.json.ParseFault.TheVariants as fault;

    ghost from_gives = { λ _ e. e ≡ fault.NoMemory };

    fn from(_: NoMemory) -> ParseFault {
        ParseFault::NoMemory
    }
}

impl From<AllocError> for ParseFault {
    ghost use Rattle.std.specs.Prelude.{◌≡◌};
    ghost use Rattle.scan_manifest.specs.declared.json.ParseFault.TheVariants as fault;

    ghost from_gives = { λ _ e. e ≡ fault.NoMemory };

    fn from(_: AllocError) -> ParseFault {
        ParseFault::NoMemory
    }
}

impl<T: Drop> From<AllocFailed<T>> for ParseFault {
    ghost use Rattle.std.specs.Prelude.{◌≡◌};
    ghost use Rattle.scan_manifest.specs.declared.json.ParseFault.TheVariants as fault;

    ghost from_gives = { λ _ e. e ≡ fault.NoMemory };

    fn from(_: AllocFailed<T>) -> ParseFault {
        ParseFault::NoMemory
    }
}

/// The forms of objects in a manifest, by the keys that each may have.
#[derive(Clone, Copy, Debug, PartialEq, Eq)]
pub(crate) enum Form {
    ListDType,
    StructDType,
    LeafLayout,
    StructLayout,
    ListLayout,
    File,
    Calls,
    Request,
    Cache,
    Manifest,
    Literal,
    Pack,
}

fn is_key(form: Form, key: &str) -> bool
    ensures { result ≡ is_key form key.now }
{
    match form {
        Form::ListDType => key == "list" || key == "nullable",
        Form::StructDType => key == "struct" || key == "nullable",
        Form::LeafLayout => key == "leaf" || key == "rows" || key == "spelling",
        Form::StructLayout => key == "struct" || key == "rows",
        Form::ListLayout => key == "list" || key == "offsets" || key == "rows",
        Form::File => is_file_key(key),
        Form::Calls => key == "fail" || key == "pending",
        Form::Request => is_request_key(key),
        Form::Cache => key == "bytes" || key == "entries" || key == "eviction",
        Form::Manifest => is_manifest_key(key),
        Form::Literal => key == "lit" || key == "type",
        Form::Pack => key == "pack" || key == "nullable",
    }
}

fn is_file_key(key: &str) -> bool
    ensures { result ≡ is_key Form.File key.now }
{
    key == "id"
        || key == "layout"
        || key == "segments"
        || key == "dtype"
        || key == "skip"
        || key == "open"
        || key == "source"
}

fn is_request_key(key: &str) -> bool
    ensures { result ≡ is_key Form.Request key.now }
{
    key == "projection"
        || key == "filter"
        || key == "range"
        || key == "include"
        || key == "exclude"
        || key == "ordered"
        || key == "limit"
        || key == "partitions"
}

fn is_manifest_key(key: &str) -> bool
    ensures { result ≡ is_key Form.Manifest key.now }
{
    key == "dtype" || key == "files" || key == "request" || key == "workers" || key == "cache"
}

fn has_keys(form: Form, map: &Map<String, Value>) -> bool
    ensures { result ≡ list_all (λ k. is_key form (string_bytes k)) (keys map.now) }
{
    map.keys().all(|k| is_key(form, k.as_str()))
}

/// Whether a value is an object without a key that its form has not.
pub(crate) fn has_form(form: Form, json: &Value) -> bool
    ensures { result ≡ has_form form (view json.now) }
{
    match json.as_object() {
        Some(map) => has_keys(form, map),
        None => false,
    }
}

/// A member of an object.
pub(crate) fn member<'a>(json: &'a Value, name: &str) -> Result<&'a Value, ParseFault>
    ensures { IsParseBy (λ v. view v.now) (get name.now (view json.now)) result }
{
    match json.get(name) {
        Some(value) => Ok(value),
        None => Err(ParseFault::Bad),
    }
}

/// A whole number below 2^64.
pub(crate) fn read_number(json: &Value) -> Result<u64, ParseFault>
    ensures { IsParse (number_of (view json.now)) result }
{
    match json.as_u64() {
        Some(n) => Ok(n),
        None => Err(ParseFault::Bad),
    }
}

/// A whole number that is at most `most`.
pub(crate) fn read_number_to(json: &Value, most: u64) -> Result<u64, ParseFault>
    ensures value { IsParse (number_to most (view json.now)) result }
{
    match json.as_u64() {
        Some(n) => {
            if n <= most {
                Ok(n)
            } else {
                Err(ParseFault::Bad)
            }
        }
        None => Err(ParseFault::Bad),
    }
}

/// A member that is true or false, with a default where there is none.
pub(crate) fn read_flag(json: &Value, name: &str, default: bool) -> Result<bool, ParseFault>
    ensures { IsParse (flag_at name.now default (view json.now)) result }
{
    match json.get(name) {
        None => Ok(default),
        Some(value) => match value.as_bool() {
            Some(b) => Ok(b),
            None => Err(ParseFault::Bad),
        },
    }
}

/// Whether a member is there, which is true then.
pub(crate) fn read_mark(json: &Value, name: &str) -> Result<bool, ParseFault>
    ensures { IsParse (mark_at name.now (view json.now)) result }
{
    match json.get(name) {
        None => Ok(false),
        Some(value) => match value.as_bool() {
            Some(b) => { if b { Ok(true) } else { Err(ParseFault::Bad) } }
            None => Err(ParseFault::Bad),
        },
    }
}

/// A text.
pub(crate) fn read_text(json: &Value) -> Result<&str, ParseFault>
    ensures { IsParseBy (λ s. s.now) (as_str (view json.now)) result }
{
    match json.as_str() {
        Some(text) => Ok(text),
        None => Err(ParseFault::Bad),
    }
}

/// The items of an array.
pub(crate) fn read_items(json: &Value) -> Result<&[Value], ParseFault>
    ensures { IsParseBy (λ s. items_view s.now) (as_array (view json.now)) result }
{
    match json.as_array() {
        Some(items) => Ok(items.as_slice()),
        None => Err(ParseFault::Bad),
    }
}

fn two(items: &[Value]) -> Option<(&Value, &Value)>
    ensures { option_map (λ p. (view p.0.now, view p.1.now)) result ≡ pair_of (items_view items.now) }
{
    if items.len() != 2 {
        return None;
    }
    Some((&items[0], &items[1]))
}

/// An array of two.
pub(crate) fn read_pair(json: &Value) -> Result<(&Value, &Value), ParseFault>
    ensures { IsParseBy (λ p. (view p.0.now, view p.1.now)) (pair_in (view json.now)) result }
{
    match two(read_items(json)?) {
        Some(pair) => Ok(pair),
        None => Err(ParseFault::Bad),
    }
}
