//! The footer of a file: its layout, and where its segments stand.
ghost use Rattle.std.specs.Prelude.{◌≡◌, IfOk, string_bytes};
ghost use Rattle.std.specs.List.{list_all};
ghost use Rattle.std.specs.BTreeMap.{keys};
ghost use Rattle.serde_json.specs.View.{view};
ghost use Rattle.serde_json.specs.Find.{get};
ghost use Rattle.scan_manifest.specs.Parse.{IsParse, IsParseBy};
ghost use Rattle.scan_disk.specs.Footers.{is_footer_key, is_footer_form, tree_in, manifest_of_tree, footer_in, footer_of};

use crate::place::{Places, read_segments};
use scan_manifest::{LayoutTree, ParseFault, manifest_of};
use serde_json::{Map, Value, json};
use std::alloc::{AllocError, Global};

/// What the footer of a file says: the layout of its rows, and where its segments stand.
#[derive(Drop)]
pub struct Footer {
    pub layout: LayoutTree,
    pub places: Places,
}

fn is_footer_key(key: &str) -> bool
    ensures { result ≡ is_footer_key key.now }
{
    key == "dtype" || key == "layout" || key == "segments"
}

fn has_footer_keys(map: &Map<String, Value>) -> bool
    ensures { result ≡ list_all (λ k. is_footer_key (string_bytes k)) (keys map.now) }
{
    map.keys().all(|k| is_footer_key(k.as_str()))
}

fn is_footer_form(json: &Value) -> bool
    ensures { result ≡ is_footer_form (view json.now) }
{
    match json.as_object() {
        Some(map) => has_footer_keys(map),
        None => false,
    }
}

fn member<'a>(json: &'a Value, name: &str) -> Result<&'a Value, ParseFault>
    ensures { IsParseBy (λ v. view v.now) (get name.now (view json.now)) result }
{
    match json.get(name) {
        Some(value) => Ok(value),
        None => Err(ParseFault::Bad),
    }
}

/// A manifest with one file, of this dtype and layout, and no segments.
fn manifest_with(alloc: Global, dtype: &Value, layout: &Value) -> Result<Value, AllocError>
    ensures { IfOk result (λ v. view v ≡ manifest_of_tree (view dtype.now) (view layout.now)) }
{
    let dtype = dtype.clone()?;
    let layout = layout.clone()?;
    json!(in alloc; {
        "dtype": dtype,
        "files": [{"id": "", "layout": layout, "segments": []}],
        "request": {"projection": "$"}
    })
}

/// The layout that a JSON value says, of the dtype that another says, as in a manifest.
fn read_tree(alloc: Global, dtype: &Value, layout: &Value) -> Result<LayoutTree, ParseFault>
    ensures { IsParse (tree_in (view dtype.now) (view layout.now)) result }
{
    let json = manifest_with(alloc, dtype, layout)?;
    let Some(manifest) = manifest_of(alloc, &json)? else {
        return Err(ParseFault::Bad);
    };
    let mut files = manifest.files.into_vec();
    match files.pop() {
        Some(file) => Ok(file.layout),
        None => Err(ParseFault::Bad),
    }
}

/// The footer that a JSON value says.
fn read_footer_json(alloc: Global, json: &Value) -> Result<Footer, ParseFault>
    ensures { IsParse (footer_in (view json.now)) result }
{
    if !is_footer_form(json) {
        return Err(ParseFault::Bad);
    }
    let dtype = member(json, "dtype")?;
    let layout = member(json, "layout")?;
    let layout = read_tree(alloc, dtype, layout)?;
    let places = read_segments(alloc, member(json, "segments")?)?;
    Ok(Footer { layout, places })
}

/// The footer that some bytes say.
pub(crate) fn read_footer_bytes(alloc: Global, bytes: &[u8]) -> Result<Footer, ParseFault>
    ensures { IsParse (footer_of bytes.now) result }
{
    match Value::from_slice(alloc, bytes) {
        Ok(json) => read_footer_json(alloc, &json),
        Err(e) => {
            if e.is_memory() {
                Err(ParseFault::NoMemory)
            } else {
                Err(ParseFault::Bad)
            }
        }
    }
}
