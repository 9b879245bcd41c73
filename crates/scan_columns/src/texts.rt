// Texts, kept in one buffer.
ghost use Rattle.std.specs.Prelude.{◌≡◌, ◌<◌, ◌≤◌, ◌++◌, ◌∷◌, [], cond, IfOk, Some, map, length, option_map, slice_get, slice_range, take, ◌==◌};
ghost use Rattle.std.specs.List.{items_where_true};
ghost use Rattle.std.specs.Str.{IsUtf8};
ghost use Rattle.scan_values.specs.Masks.{null_where_false};
ghost use Rattle.scan_values.specs.Val.{marked, null_val, text_val};
ghost use Rattle.scan_values.specs.Values.{val_of};
ghost use Rattle.scan_expr.specs.Eval.{is_nothing};
ghost use Rattle.scan_spelling.specs.Cuts.{sizes, Rises, total, cuts, AreTexts};
ghost use Rattle.scan_spelling.specs.LeafColumns.{is_here, text_or_null};
ghost use Rattle.scan_columns.specs.Nested.{spread};
ghost use Rattle.scan_columns.specs.Texts.{of_texts, texts_in};

use crate::ends::Ends;
use crate::slots::{both, contrary, kept, part};
use scan_spelling::TextRun;
use scan_values::{Mask, NoMemory, Text, Value};
use std::alloc::Global;
use std::marker::Model;
use std::ops::Range;

/// Texts one after another in one buffer of UTF-8, each with where it ends and whether it is there.
#[derive(Drop)]
pub struct Texts {
    bytes: Vec<u8>,
    ends: Ends,
    valid: Vec<bool>,
}

impl Model for Texts {
    ghost use Rattle.std.specs.Prelude.{◌≡◌, length};
    ghost use Rattle.scan_spelling.specs.Cuts.{AreTexts};
    ghost use Rattle.scan_columns.specs.Texts.{TextData, text_code, of_texts};

    ghost Value = { TextData };

    ghost coded = { text_code };

    ghost view = { λ a. of_texts a.ends a.bytes.items a.valid.items };

    ghost invariant = { λ a. (length a.valid.items ≡ length a.ends) × AreTexts a.ends a.bytes.items };
}

impl Texts {
    /// The texts of these bytes, null where `valid` is false.
    pub(crate) fn new(bytes: Vec<u8>, ends: Ends, valid: Vec<bool>) -> Texts
        requires even { length valid.items ≡ length ends }
        requires texts { AreTexts ends bytes.items }
        ensures { result ≡ of_texts ends bytes.items valid.items }
    {
        Texts { bytes, ends, valid }
    }

    /// No text.
    #[tactic(auto, using(crate::proofs::TextLemmas::no_texts))]
    pub(crate) fn empty(alloc: Global) -> Texts
        ensures { texts_in result ≡ [] }
    {
        Texts::new(Vec::new(alloc), Ends::new(Vec::new(alloc)), Vec::new(alloc))
    }

    /// The texts of a run.
    #[tactic(auto, using(crate::proofs::NestedLemmas::sizes_length))]
    pub(crate) fn of_run(run: TextRun) -> Texts
        ensures { texts_in result ≡ run }
    {
        let (bytes, ends, valid) = run.into_parts();
        Texts::new(bytes, Ends::new(ends), valid)
    }

    /// How many.
    #[tactic(auto, using(crate::proofs::TextLemmas::texts_length))]
    pub fn len(&self) -> usize
        ensures { result ≡ length (texts_in self.now) }
    {
        self.ends.len()
    }

    /// Whether there is no text.
    pub fn is_empty(&self) -> bool
        ensures { result ≡ (length (texts_in self.now) == 0) }
    {
        self.len() == 0
    }

    /// The bytes of all texts, one after another. What stands at a null is no part of a value.
    pub fn bytes(&self) -> &[u8]
        ensures bytes { result.now ≡ self.now.bytes }
        ensures texts { AreTexts self.now.lengths result.now }
    {
        self.bytes.as_slice()
    }

    /// Where each text ends; it begins where the one before it ends, and the first at 0.
    #[tactic(auto, using(crate::proofs::NestedLemmas::sizes_length, crate::proofs::TextLemmas::texts_length))]
    pub fn ends(&self) -> &[usize]
        ensures lengths { sizes 0 result.now ≡ self.now.lengths }
        ensures rises { Rises 0 result.now }
        ensures even { length result.now ≡ length (texts_in self.now) }
    {
        self.ends.as_slice()
    }

    /// For each text, whether it is there.
    #[tactic(auto, using(crate::proofs::TextLemmas::texts_here))]
    pub fn validity(&self) -> &[bool]
        ensures { result.now ≡ map is_here (texts_in self.now) }
    {
        self.valid.as_slice()
    }

    /// The bytes of the slot at a place, and whether it is there.
    #[tactic(auto, using(crate::proofs::TextLemmas::texts_length, crate::proofs::TextLemmas::slot_at))]
    pub fn slot(&self, i: usize) -> (&[u8], bool)
        requires { i < length (texts_in self.now) }
        ensures { Some (cond result.1 (text_val result.0.now) null_val) ≡ slice_get (texts_in self.now) i }
    {
        (
            slot_bytes(self.bytes.as_slice(), &self.ends, i),
            self.valid[i],
        )
    }

    /// The text at a place, or `None` where it is null.
    #[tactic(auto, using(crate::proofs::TextLemmas::texts_length, crate::proofs::TextLemmas::slot_at, crate::proofs::TextLemmas::text_there))]
    pub fn text(&self, i: usize) -> Option<&str>
        requires { i < length (texts_in self.now) }
        ensures { Some (text_or_null (option_map (λ t. t.now) result)) ≡ slice_get (texts_in self.now) i }
    {
        let bytes = slot_bytes(self.bytes.as_slice(), &self.ends, i);
        slot_text(bytes, self.valid[i])
    }

    /// The value at a place.
    pub fn value(&self, alloc: Global, i: usize) -> Result<Value, NoMemory>
        requires { i < length (texts_in self.now) }
        ensures { IfOk result (λ v. Some (val_of v) ≡ slice_get (texts_in self.now) i) }
    {
        text_value(alloc, self.text(i))
    }

    /// The values.
    #[tactic(auto, using(crate::proofs::TextLemmas::value_step))]
    pub fn to_values(&self, alloc: Global) -> Result<Vec<Value>, NoMemory>
        ensures { IfOk result (λ v. map val_of v.items ≡ texts_in self.now) }
    {
        let mut made = Vec::with_capacity(alloc, self.len())?;
        for i in 0..self.len() {
            made.push(self.value(alloc, i)?)?;
        }
        Ok(made)
    }

    /// Where there is no text.
    #[tactic(auto, using(crate::proofs::TextLemmas::text_nulls))]
    pub fn nulls(&self, alloc: Global) -> Result<Mask, NoMemory>
        ensures { IfOk result (λ m. m ≡ map (λ v. is_nothing (marked v)) (texts_in self.now)) }
    {
        let bits = contrary(alloc, self.valid.as_slice())?;
        Ok(Mask::from_bools(bits))
    }

    /// Those at which the mask is true.
    #[tactic(auto, using(crate::proofs::TextLemmas::texts_length, crate::proofs::TextLemmas::texts_where, crate::proofs::TextLemmas::are_texts_where, crate::proofs::TypedLemmas::where_lengths))]
    pub fn filter(&self, alloc: Global, m: &Mask) -> Result<Texts, NoMemory>
        requires { length m.now ≡ length (texts_in self.now) }
        ensures { IfOk result (λ v. texts_in v ≡ items_where_true m.now (texts_in self.now)) }
    {
        let bytes = kept_bytes(alloc, self.bytes.as_slice(), &self.ends, m)?;
        let ends = self.ends.filter(alloc, m)?;
        let valid = kept(alloc, self.valid.as_slice(), m)?;
        Ok(Texts::new(bytes, ends, valid))
    }

    /// These, null where the mask is false.
    #[tactic(auto, using(crate::proofs::TextLemmas::texts_length, crate::proofs::TextLemmas::texts_mask, crate::proofs::TypedLemmas::both_lengths))]
    pub fn mask(&self, alloc: Global, m: &Mask) -> Result<Texts, NoMemory>
        requires { length m.now ≡ length (texts_in self.now) }
        ensures { IfOk result (λ v. texts_in v ≡ null_where_false m.now (texts_in self.now)) }
    {
        let bytes = Vec::from_slice(alloc, self.bytes.as_slice())?;
        let ends = self.ends.try_clone(alloc)?;
        let valid = both(alloc, self.valid.as_slice(), m.as_slice())?;
        Ok(Texts::new(bytes, ends, valid))
    }

    /// Those of a range of places.
    #[tactic(auto, using(crate::proofs::TextLemmas::texts_length, crate::proofs::TextLemmas::texts_slice, crate::proofs::TextLemmas::are_texts_slice))]
    pub fn slice(&self, alloc: Global, r: Range<usize>) -> Result<Texts, NoMemory>
        requires ordered { r.start ≤ r.end }
        requires within { r.end ≤ length (texts_in self.now) }
        ensures { IfOk result (λ v. texts_in v ≡ slice_range (texts_in self.now) r.start r.end) }
    {
        let (start, end) = (r.start, r.end);
        let bytes = bytes_between(alloc, self.bytes.as_slice(), &self.ends, start, end)?;
        let ends = self.ends.slice(alloc, start, end)?;
        let valid = part(alloc, self.valid.as_slice(), start, end)?;
        Ok(Texts::new(bytes, ends, valid))
    }

    /// These, and then the others.
    #[tactic(auto, using(crate::proofs::TextLemmas::texts_append, crate::proofs::TextLemmas::are_texts_append))]
    pub fn append(self, other: &Texts) -> Result<Texts, NoMemory>
        ensures { IfOk result (λ v. texts_in v ≡ texts_in self ++ texts_in other.now) }
    {
        let Texts {
            mut bytes,
            ends,
            mut valid,
        } = self;
        bytes.extend_from_slice(other.bytes.as_slice())?;
        let ends = ends.append(&other.ends)?;
        valid.extend_from_slice(other.valid.as_slice())?;
        Ok(Texts::new(bytes, ends, valid))
    }

    /// These, and then those of a run.
    #[tactic(auto, using(crate::proofs::KeptLemmas::none_before))]
    pub(crate) fn extend(self, run: TextRun) -> Result<Texts, NoMemory>
        ensures { IfOk result (λ v. texts_in v ≡ texts_in self ++ run) }
    {
        let more = Texts::of_run(run);
        if self.len() == 0 {
            Ok(more)
        } else {
            self.append(&more)
        }
    }

    /// A copy that equals this one.
    pub fn try_clone(&self, alloc: Global) -> Result<Texts, NoMemory>
        ensures { IfOk result (λ v. v ≡ self.now) }
    {
        let bytes = Vec::from_slice(alloc, self.bytes.as_slice())?;
        let ends = self.ends.try_clone(alloc)?;
        let valid = Vec::from_slice(alloc, self.valid.as_slice())?;
        Ok(Texts::new(bytes, ends, valid))
    }
}

/// The bytes of the slot at a place.
#[tactic(auto, using(crate::proofs::TextLemmas::cut_at, crate::proofs::TextLemmas::cut_within))]
fn slot_bytes<'a>(bytes: &'a [u8], ends: &Ends, i: usize) -> &'a [u8]
    requires place { i < length ends.now }
    requires whole { total ends.now ≡ length bytes.now }
    ensures { Some result.now ≡ slice_get (cuts ends.now bytes.now) i }
{
    let low = ends.start(i);
    let high = ends.end(i);
    &bytes[low..high]
}

/// The text of a slot, if it is there.
fn slot_text(bytes: &[u8], there: bool) -> Option<&str>
    requires { IsUtf8 bytes.now }
    ensures { text_or_null (option_map (λ t. t.now) result) ≡ cond there (text_val bytes.now) null_val }
{
    if !there {
        return None;
    }
    match str::from_utf8(bytes) {
        Ok(text) => Some(text),
        Err(_) => None,
    }
}

/// A copy of the bytes of the slots of a range of places.
#[tactic(auto, using(crate::proofs::TextLemmas::cut_within))]
fn bytes_between(
    alloc: Global,
    bytes: &[u8],
    ends: &Ends,
    from: usize,
    to: usize,
) -> Result<Vec<u8>, NoMemory>
    requires ordered { from ≤ to }
    requires within { to ≤ length ends.now }
    requires whole { total ends.now ≡ length bytes.now }
    ensures { IfOk result (λ v. v.items ≡
        slice_range bytes.now (total (take from ends.now)) (total (take to ends.now))) }
{
    let low = ends.start(from);
    let high = ends.start(to);
    part(alloc, bytes, low, high)
}

/// The bytes of the slots at which the mask is true, each copied at once.
#[tactic(auto, using(crate::proofs::NestedLemmas::sizes_length))]
fn kept_bytes(alloc: Global, bytes: &[u8], ends: &Ends, m: &Mask) -> Result<Vec<u8>, NoMemory>
    requires even { length m.now ≡ length ends.now }
    requires whole { total ends.now ≡ length bytes.now }
    ensures { IfOk result (λ v. v.items ≡ items_where_true (spread m.now ends.now) bytes.now) }
{
    kept_parts(alloc, bytes, ends.as_slice(), m.as_slice())
}

fn kept_parts(
    alloc: Global,
    bytes: &[u8],
    ends: &[usize],
    bits: &[bool],
) -> Result<Vec<u8>, NoMemory>
    requires rises { Rises 0 ends.now }
    requires even { length bits.now ≡ length ends.now }
    requires whole { total (sizes 0 ends.now) ≡ length bytes.now }
    ensures { IfOk result (λ v. v.items ≡ items_where_true (spread bits.now (sizes 0 ends.now)) bytes.now) }
{
    let mut made = Vec::new(alloc);
    let mut start = 0;
    for (i, end) in ends.iter().enumerate() {
        let kept = if_true(bits[i], &bytes[start..*end]);
        made.extend_from_slice(kept)?;
        start = *end;
    }
    Ok(made)
}

/// The bytes where the bit is true, else none.
fn if_true(bit: bool, bytes: &[u8]) -> &[u8]
    ensures { result.now ≡ cond bit bytes.now [] }
{
    if bit { bytes } else { &bytes[..0] }
}

/// A text, if it is not null, as a value.
fn text_value(alloc: Global, text: Option<&str>) -> Result<Value, NoMemory>
    ensures { IfOk result (λ v. val_of v ≡ text_or_null (option_map (λ t. t.now) text.entry)) }
{
    match text {
        Some(text) => {
            let text = String::from_str(alloc, text)?;
            Ok(Value::Text(Text::new(text)))
        }
        None => Ok(Value::Null),
    }
}
