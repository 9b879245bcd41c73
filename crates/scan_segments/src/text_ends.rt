//! Where the texts of a segment end: found once, and kept beside its bytes for all who share these.
ghost use Rattle.std.specs.Prelude.{◌≡◌, ◌≤◌, ◌<◌, ◌%◌, [], Some, IfOk, IfSome, IsTrue};
ghost use Rattle.scan_segments.specs.TextEnds.{ends_after};

use counted_slot::{Claim, Counted, FREE, Fits, ONE_READER, PRESENT, TAKEN};
use scan_values::NoMemory;
use std::alloc::Global;
use std::marker::Model;
use std::sync::Arc;

/// How the flags of rows stand before their texts: there are none, since each row is there, or a byte or a bit each.
#[derive(Clone, Copy, Debug, PartialEq, Eq)]
pub enum FlagGroup {
    Absent,
    Bytes,
    Bits,
}

/// Places in bytes. Contracts see the list of them.
#[derive(Drop)]
struct Places {
    places: Vec<usize>,
}

impl Model for Places {
    ghost use Rattle.std.specs.Prelude.{ℕ, List};

    ghost Value = { List ℕ };

    ghost view = { λ p. p.places.items };
}

impl Places {
    fn new(places: Vec<usize>) -> Places
        ensures { result ≡ places.items }
    {
        Places { places }
    }

    fn as_slice(&self) -> &[usize]
        ensures { result.now ≡ self.now }
    {
        &self.places
    }
}

/// Where each of some texts ends, in bytes after their flags, which its holders share. Contracts see the places.
#[derive(Drop)]
pub struct TextEnds {
    ends: Option<Arc<Places>>,
}

impl Model for TextEnds {
    ghost use Rattle.std.specs.Prelude.{ℕ, List, option_map};
    ghost use Rattle.std.specs.Arc.{arc_value};
    ghost use Rattle.scan_segments.specs.TextEnds.{or_empty};

    ghost Value = { List ℕ };

    ghost view = { λ t. or_empty (option_map (λ a. arc_value a) t.ends) };
}

impl TextEnds {
    /// Of no text. It takes no memory.
    pub fn none() -> TextEnds
        ensures { result ≡ [] }
    {
        TextEnds { ends: None }
    }

    /// Of texts that end at these places.
    pub fn new(alloc: Global, ends: Vec<usize>) -> Result<TextEnds, NoMemory>
        ensures { IfOk result (λ t. t ≡ ends.items) }
    {
        Ok(TextEnds {
            ends: Some(Arc::new(alloc, Places::new(ends))?),
        })
    }

    /// The places.
    pub fn as_slice(&self) -> &[usize]
        ensures { result.now ≡ self.now }
    {
        match &self.ends {
            Some(ends) => ends.as_slice(),
            None => &[],
        }
    }

    /// The same places, shared.
    pub fn try_clone(&self) -> Result<TextEnds, NoMemory>
        ensures { IfOk result (λ t. t ≡ self.now) }
    {
        match &self.ends {
            Some(ends) => Ok(TextEnds {
                ends: Some(Arc::try_clone(ends)?),
            }),
            None => Ok(TextEnds::none()),
        }
    }
}

/// Bytes. Contracts see the list of them.
#[derive(Drop)]
pub(crate) struct Bytes {
    bytes: Vec<u8>,
}

impl Model for Bytes {
    ghost use Rattle.std.specs.Prelude.{ℕ, List};

    ghost Value = { List ℕ };

    ghost view = { λ b. b.bytes.items };
}

impl Bytes {
    fn new(bytes: Vec<u8>) -> Bytes
        ensures { result ≡ bytes.items }
    {
        Bytes { bytes }
    }

    fn as_slice(&self) -> &[u8]
        ensures { result.now ≡ self.now }
    {
        &self.bytes
    }
}

/// Where the texts of so many rows end, after flags that stand so.
#[derive(Drop)]
pub(crate) struct KnownEnds {
    group: FlagGroup,
    rows: u64,
    ends: TextEnds,
}

impl Fits for KnownEnds {
    type Tag = Bytes;

    ghost use Rattle.std.specs.Prelude.{◌≡◌, Some};
    ghost use Rattle.scan_segments.specs.TextEnds.{ends_after};

    ghost fits = { λ bytes k. ends_after k.group k.rows bytes ≡ Some k.ends };
}

impl KnownEnds {
    /// The places, where they are those of such flags and so many rows.
    fn of(&self, group: FlagGroup, rows: u64) -> Option<TextEnds>
        ensures { IfSome result (λ t. (self.now.group ≡ group) × (self.now.rows ≡ rows) × (t ≡ self.now.ends)) }
    {
        if self.group != group {
            return None;
        }
        if self.rows != rows {
            return None;
        }
        self.ends.try_clone().ok()
    }
}

/// The bytes of a segment, and where its texts end once somebody has found it. Contracts see the bytes.
#[derive(Drop)]
pub(crate) struct Shared {
    bytes: Bytes,
    known: Counted<Option<KnownEnds>>,
}

impl Model for Shared {
    ghost use Rattle.std.specs.Prelude.{◌≡◌, ℕ, List};

    ghost Value = { List ℕ };

    ghost view = { λ s. s.bytes };

    ghost invariant = { λ s. s.known ≡ s.bytes };
}

/// Whether a reader may be counted in a word.
fn may_enter(word: u64) -> bool
    ensures { IsTrue result → (word % 4 ≡ 1) × (word ≤ 4000000000) }
{
    word % 4 == PRESENT && word <= 4_000_000_000
}

/// Where the texts end, of what a reader sees, where it is of such flags and so many rows.
fn ends_seen(claim: &Claim<'_, Option<KnownEnds>>, group: FlagGroup, rows: u64) -> Option<TextEnds>
    requires { claim.now.right ≡ 1 }
    ensures { IfSome result (λ t. ends_after group rows claim.now.tag ≡ Some t) }
{
    match claim.get() {
        Some(known) => known.of(group, rows),
        None => None,
    }
}

impl Shared {
    /// These bytes, of which nothing is known yet.
    pub(crate) fn new(bytes: Vec<u8>) -> Shared
        ensures { result ≡ bytes.items }
    {
        let bytes = Bytes::new(bytes);
        let known = Counted::new(None, &bytes);
        Shared { bytes, known }
    }

    /// The bytes.
    pub(crate) fn as_slice(&self) -> &[u8]
        ensures { result.now ≡ self.now }
    {
        self.bytes.as_slice()
    }

    /// Where the texts of so many rows end, after flags that stand so, where it is kept.
    pub(crate) fn ends(&self, group: FlagGroup, rows: u64) -> Option<TextEnds>
        ensures { IfSome result (λ t. ends_after group rows self.now ≡ Some t) }
    {
        for _ in 0..u64::MAX {
            let word = self.known.load();
            if !may_enter(word) {
                return None;
            }
            let (found, claim) = self.known.turn(word, word + ONE_READER);
            if found == word {
                let ends = ends_seen(&claim, group, rows);
                claim.leave();
                return ends;
            }
            claim.done();
        }
        None
    }

    /// Keeps where the texts of so many rows end, unless something is kept.
    pub(crate) fn keep(&self, group: FlagGroup, rows: u64, ends: TextEnds)
        requires { ends_after group rows self.now ≡ Some ends }
    {
        let (found, claim) = self.known.turn(FREE, TAKEN);
        if found != FREE {
            claim.done();
            return;
        }
        let _none = claim.put(Some(KnownEnds { group, rows, ends }), PRESENT);
    }
}
