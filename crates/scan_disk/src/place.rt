//! Where the segments of a file stand, read from JSON.
ghost use Rattle.std.specs.Prelude.{◌≡◌, [], ◌^◌, ◌-◌, option_map};
ghost use Rattle.std.specs.Result.{result_ok};
ghost use Rattle.std.specs.List.{list_all};
ghost use Rattle.std.specs.Map.{values_of};
ghost use Rattle.hex.specs.Hex.{decode_sized};
ghost use Rattle.serde_json.specs.View.{view, items_view};
ghost use Rattle.scan_manifest.specs.Parse.{IsParse, IsParseBy};
ghost use Rattle.scan_manifest.specs.Json.{number_of, number_to};
ghost use Rattle.scan_disk.specs.Contents.{is_within};
ghost use Rattle.scan_disk.specs.Places.{digest_in, four_of, four_in, place_of, segment_in, place_at, segments_from, segments_in};

use hex::FromHex;
use scan_manifest::ParseFault;
use scan_segments::SegmentId;
use serde_json::Value;
use std::alloc::Global;
use std::collections::BTreeMap;
use std::marker::Model;

/// Where the bytes of a segment stand in its file, and their SHA-256.
#[derive(Clone, Copy, Debug, PartialEq, Eq)]
pub struct Place {
    pub offset: u64,
    pub length: u64,
    pub digest: [u8; 32],
}

/// Where each segment of a file stands. Contracts see ids and places, by rising ids.
#[derive(Drop)]
pub struct Places {
    map: BTreeMap<SegmentId, Place>,
}

impl Model for Places {
    ghost use Rattle.std.specs.Prelude.{List, ℕ};
    ghost use Rattle.scan_disk.specs.Places.{places_code};
    ghost use Rattle.scan_disk.specs.declared.place.Place.{Place as Entry};

    ghost Value = { List (ℕ × Entry) };

    ghost coded = { places_code };

    ghost view = { λ p. p.map.entries };
}

impl Places {
    /// The places of a map.
    pub fn new(map: BTreeMap<SegmentId, Place>) -> Self
        ensures { result ≡ map.entries }
    {
        Places { map }
    }

    /// The place of a segment.
    pub fn get(&self, id: SegmentId) -> Option<Place>
        ensures { result ≡ place_at self.now id }
    {
        match self.map.get(&id) {
            Some(place) => Some(*place),
            None => None,
        }
    }

    /// Whether each segment stands between the first magic and this end.
    pub(crate) fn are_within(&self, end: u64) -> bool
        ensures { result ≡ list_all (is_within end) (values_of self.now) }
    {
        self.map.values().all(|place| is_within(place, end))
    }
}

fn is_within(place: &Place, end: u64) -> bool
    ensures { result ≡ is_within end place.now }
{
    if place.offset < 8 {
        return false;
    }
    if place.offset > end {
        return false;
    }
    place.length <= end - place.offset
}

fn digest_of(text: &str) -> Option<[u8; 32]>
    ensures { result ≡ result_ok (decode_sized text.now 32) }
{
    <[u8; 32] as FromHex>::from_hex(text).ok()
}

fn read_digest(json: &Value) -> Result<[u8; 32], ParseFault>
    ensures { IsParse (digest_in (view json.now)) result }
{
    match json.as_str() {
        Some(text) => match digest_of(text) {
            Some(digest) => Ok(digest),
            None => Err(ParseFault::Bad),
        },
        None => Err(ParseFault::Bad),
    }
}

fn read_number(json: &Value) -> Result<u64, ParseFault>
    ensures { IsParse (number_of (view json.now)) result }
{
    match json.as_u64() {
        Some(n) => Ok(n),
        None => Err(ParseFault::Bad),
    }
}

fn read_id(json: &Value) -> Result<SegmentId, ParseFault>
    ensures { IsParse (number_to (2 ^ 32 - 1) (view json.now)) result }
{
    let n = read_number(json)?;
    if n > 4_294_967_295 {
        return Err(ParseFault::Bad);
    }
    Ok(SegmentId::from(n as u32))
}

fn four(items: &[Value]) -> Option<(&Value, &Value, &Value, &Value)>
    ensures { option_map (λ p. (view p.0.now, (view p.1.now, (view p.2.now, view p.3.now)))) result
        ≡ four_of (items_view items.now) }
{
    if items.len() != 4 {
        return None;
    }
    Some((&items[0], &items[1], &items[2], &items[3]))
}

fn read_four(json: &Value) -> Result<(&Value, &Value, &Value, &Value), ParseFault>
    ensures { IsParseBy (λ p. (view p.0.now, (view p.1.now, (view p.2.now, view p.3.now))))
        (four_in (view json.now)) result }
{
    match json.as_array() {
        Some(items) => match four(items.as_slice()) {
            Some(parts) => Ok(parts),
            None => Err(ParseFault::Bad),
        },
        None => Err(ParseFault::Bad),
    }
}

fn read_place(offset: &Value, length: &Value, digest: &Value) -> Result<Place, ParseFault>
    ensures { IsParse (place_of (view offset.now, (view length.now, view digest.now))) result }
{
    let offset = read_number(offset)?;
    let length = read_number(length)?;
    let digest = read_digest(digest)?;
    Ok(Place {
        offset,
        length,
        digest,
    })
}

fn read_segment(json: &Value) -> Result<(SegmentId, Place), ParseFault>
    ensures { IsParse (segment_in (view json.now)) result }
{
    let (id, offset, length, digest) = read_four(json)?;
    let id = read_id(id)?;
    let place = read_place(offset, length, digest)?;
    Ok((id, place))
}

fn read_segment_list(
    alloc: Global,
    list: &[Value],
) -> Result<BTreeMap<SegmentId, Place>, ParseFault>
    ensures { IsParseBy (λ m. m.entries) (segments_from [] (items_view list.now)) result }
{
    let mut map = BTreeMap::new(alloc);
    for json in list {
        let (id, place) = read_segment(json)?;
        if map.contains_key(&id) {
            return Err(ParseFault::Bad);
        }
        map.insert(id, place)?;
    }
    Ok(map)
}

/// The segments of a footer.
pub(crate) fn read_segments(alloc: Global, json: &Value) -> Result<Places, ParseFault>
    ensures { IsParse (segments_in (view json.now)) result }
{
    match json.as_array() {
        Some(items) => Ok(Places::new(read_segment_list(alloc, items.as_slice())?)),
        None => Err(ParseFault::Bad),
    }
}
