//! The numbers of segments, the names of sources, and shared bytes. After the Rust's `segments`.
ghost use Rattle.std.specs.Prelude.{◌≡◌, ◌<◌, ◌≤◌, ◌^◌, ◌↔◌, List, ℕ, Some, IfOk, IfSome, IsTrue, is_ok, string_bytes};
ghost use Rattle.scan_segments.specs.TextEnds.{ends_after};

use crate::text_ends::{FlagGroup, Shared, TextEnds};
use scan_values::NoMemory;
use std::alloc::Global;
use std::cmp::Ordering;
use std::fmt;
use std::hash::{Hash, Hasher};
use std::marker::Model;
use std::ops::Deref;
use std::sync::Arc;
use thiserror::Error;

/// Why a number is no segment's.
#[derive(Clone, Copy, Debug, PartialEq, Eq, Error)]
pub enum SegmentFault {
    #[error("the number is greater than 4294967295")]
    TooLarge,
}

/// The number of a segment in its file. Contracts see it as that number.
#[derive(Clone, Copy, Debug, Default, PartialEq, Eq, PartialOrd, Ord, Hash)]
pub struct SegmentId(u32);

impl Model for SegmentId {
    ghost use Rattle.std.specs.Prelude.{ℕ};

    ghost Value = { ℕ };

    ghost view = { λ a. a.0 };

    ghost inverse = { λ n. record { 0 = n } };
}

impl From<u32> for SegmentId {
    ghost from_gives = { λ n r. r ≡ n };

    fn from(n: u32) -> Self {
        SegmentId(n)
    }
}

impl TryFrom<usize> for SegmentId {
    type Error = SegmentFault;

    ghost try_from_gives = { λ n r. (IsTrue (is_ok r) ↔ (n < 2 ^ 32)) × IfOk r (λ id. id ≡ n) };

    fn try_from(n: usize) -> Result<Self, SegmentFault> {
        match u32::try_from(n) {
            Ok(n) => Ok(SegmentId(n)),
            Err(_) => Err(SegmentFault::TooLarge),
        }
    }
}

impl Deref for SegmentId {
    type Target = u32;

    ghost deref_gives = { λ id n. n ≡ id };

    fn deref(&self) -> &u32 {
        &self.0
    }
}

impl fmt::Display for SegmentId {
    ghost use Rattle.std.specs.Prelude.{Some, ◌++◌, codes};
    ghost use Rattle.std.specs.Fmt.{decimal};

    ghost output = { λ n. Some (codes "SegmentId(" ++ (decimal n ++ codes ")")) };

    fn fmt<W: fmt::Write>(&self, f: &mut fmt::Formatter<W>) -> fmt::Result {
        write!(f, "SegmentId({})", self.0)
    }
}

/// The name of a source, which its holders share. Sources of one name share cached segments, so a name has to identify
/// the contents of its source: the object and its version, and not a path that may be written anew. Contracts see the
/// bytes of the text.
#[derive(Debug, Drop)]
pub struct SegmentSourceId {
    text: Arc<String>,
}

impl Model for SegmentSourceId {
    ghost use Rattle.std.specs.Prelude.{ℕ, List, string_bytes};
    ghost use Rattle.std.specs.Arc.{arc_value};

    ghost Value = { List ℕ };

    ghost view = { λ s. string_bytes (arc_value s.text) };
}

impl PartialEq for SegmentSourceId {
    ghost use Rattle.std.specs.Prelude.{nat_eq};
    ghost use Rattle.std.specs.Cmp.{partial_equiv_from_equiv};
    ghost use Rattle.std.specs.Cmp.Lexicographic.{pointwise, nat_list_eq_equiv};

    ghost eq = { pointwise nat_eq };

    ghost laws = { partial_equiv_from_equiv nat_list_eq_equiv };

    fn eq(&self, other: &SegmentSourceId) -> bool {
        self.text == other.text
    }
}

impl Eq for SegmentSourceId {
    ghost use Rattle.std.specs.Cmp.Lexicographic.{nat_list_eq_equiv};

    ghost laws = { nat_list_eq_equiv };
}

impl PartialOrd for SegmentSourceId {
    ghost use Rattle.std.specs.Prelude.{Some};
    ghost use Rattle.std.specs.Ordering.{nat_cmp};
    ghost use Rattle.std.specs.Cmp.Lexicographic.{slice_cmp, texts_po};

    ghost partial_cmp = { λ a b. Some (slice_cmp nat_cmp a b) };

    ghost laws = { texts_po };

    fn partial_cmp(&self, other: &SegmentSourceId) -> Option<Ordering> {
        Some(self.cmp(other))
    }
}

impl Ord for SegmentSourceId {
    ghost use Rattle.std.specs.Prelude.{refl};
    ghost use Rattle.std.specs.Ordering.{nat_cmp};
    ghost use Rattle.std.specs.Cmp.Lexicographic.{slice_cmp, nat_list_cmp_total, texts_ties};

    ghost cmp = { slice_cmp nat_cmp };

    ghost total = { nat_list_cmp_total };

    ghost matches_partial_cmp = { λ a b. refl };

    ghost matches_eq = { texts_ties };

    fn cmp(&self, other: &SegmentSourceId) -> Ordering {
        self.text.cmp(&other.text)
    }
}

impl Hash for SegmentSourceId {
    ghost use Rattle.std.specs.Hash as fed;
    ghost use Rattle.std.specs.Cmp.Rules.{hashing};
    ghost use Rattle.std.proofs.Common.{rules};

    ghost hash_input = { fed.str };

    ghost respects_eq = { Prim.search (hashing, rules) };

    fn hash<H: Hasher>(&self, state: &mut H) {
        self.text.hash(state);
    }
}

impl SegmentSourceId {
    /// A name of this text.
    pub fn new(alloc: Global, id: String) -> Result<SegmentSourceId, NoMemory>
        ensures { IfOk result (λ s. s ≡ string_bytes id) }
    {
        Ok(SegmentSourceId {
            text: Arc::new(alloc, id)?,
        })
    }

    /// The text of the name.
    pub fn as_str(&self) -> &str
        ensures { result.now ≡ self.now }
    {
        self.text.as_str()
    }

    /// The same name. Its text is shared.
    pub fn try_clone(&self) -> Result<SegmentSourceId, NoMemory>
        ensures { IfOk result (λ s. s ≡ self.now) }
    {
        Ok(SegmentSourceId {
            text: Arc::try_clone(&self.text)?,
        })
    }
}

/// A segment of a named source.
#[derive(Debug, PartialEq, Eq, PartialOrd, Ord, Hash, Drop)]
pub struct SegmentKey {
    pub source_id: SegmentSourceId,
    pub segment: SegmentId,
}

impl SegmentKey {
    /// The same key. Its text is shared.
    pub fn try_clone(&self) -> Result<SegmentKey, NoMemory>
        ensures { IfOk result (λ k. k ≡ self.now) }
    {
        Ok(SegmentKey {
            source_id: self.source_id.try_clone()?,
            segment: self.segment,
        })
    }
}

/// The bytes of a segment, which their holders share, with what one of them found of these. Contracts see the list of
/// bytes.
#[derive(Drop)]
pub struct ByteBuffer {
    shared: Arc<Shared>,
}

impl Model for ByteBuffer {
    ghost use Rattle.std.specs.Prelude.{ℕ, List};
    ghost use Rattle.std.specs.Arc.{arc_value};

    ghost Value = { List ℕ };

    ghost view = { λ b. arc_value b.shared };
}

impl ByteBuffer {
    /// A buffer of these bytes.
    pub fn new(alloc: Global, bytes: Vec<u8>) -> Result<ByteBuffer, NoMemory>
        ensures { IfOk result (λ b. b ≡ bytes.items) }
    {
        Ok(ByteBuffer {
            shared: Arc::new(alloc, Shared::new(bytes))?,
        })
    }

    /// The bytes.
    pub fn as_slice(&self) -> &[u8]
        ensures { result.now ≡ self.now }
    {
        self.shared.as_slice()
    }

    /// The same bytes, shared.
    pub fn try_clone(&self) -> Result<ByteBuffer, NoMemory>
        ensures { IfOk result (λ b. b ≡ self.now) }
    {
        Ok(ByteBuffer {
            shared: Arc::try_clone(&self.shared)?,
        })
    }

    /// Where each text of so many rows ends, after flags that stand so, where a holder of the bytes has kept it. It
    /// takes no lock, no memory and no wait, and costs the same for any number of rows.
    pub fn text_ends(&self, group: FlagGroup, rows: u64) -> Option<TextEnds>
        ensures { IfSome result (λ t. ends_after group rows self.now ≡ Some t) }
    {
        self.shared.ends(group, rows)
    }

    /// Keeps where each text of so many rows ends, for all holders of the bytes. What is kept first stays.
    pub fn keep_text_ends(&self, group: FlagGroup, rows: u64, ends: TextEnds)
        requires { ends_after group rows self.now ≡ Some ends }
    {
        self.shared.keep(group, rows, ends);
    }
}
