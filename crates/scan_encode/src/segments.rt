//! The segments of a file that is made.
ghost use Rattle.std.specs.Prelude.{◌≡◌, ◌≤◌, ◌^◌, ◌++◌, ◌∷◌, [], IfOk, IfErr, length};
ghost use Rattle.scan_encode.specs.Encoded.{Has, stored};
ghost use Rattle.scan_encode.specs.SegmentsView.{bytes_of};
ghost use Rattle.scan_encode.specs.Faults.{IsFull};

use crate::fault::RowsFault;
use scan_segments::SegmentId;
use std::alloc::Global;
use std::marker::Model;

/// The bytes of the segments of a file, by their numbers. Contracts see them as lists of bytes.
#[derive(Drop)]
pub struct Segments {
    items: Vec<Vec<u8>>,
}

impl Model for Segments {
    ghost use Rattle.std.specs.Prelude.{List, ℕ};
    ghost use Rattle.scan_encode.specs.SegmentsView.{bytes_of};

    ghost Value = { List (List ℕ) };

    ghost view = { λ s. bytes_of s.items.items };

    ghost use Rattle.std.specs.Prelude.{◌≤◌, ◌^◌, length};

    ghost invariant = { λ s. length s.items.items ≤ 2 ^ 32 };
}

impl Segments {
    /// No segments yet.
    pub fn new(alloc: Global) -> Segments
        ensures { result ≡ [] }
    {
        Segments {
            items: Vec::new(alloc),
        }
    }

    /// The bytes of each segment.
    pub fn as_slice(&self) -> &[Vec<u8>]
        ensures bytes { bytes_of result.now ≡ self.now }
        ensures few { length self.now ≤ 2 ^ 32 }
    {
        self.items.as_slice()
    }

    /// One more segment. Gives its number.
    ///
    /// # Errors
    /// `Segments` exactly where there are 4294967296 already, and `NoMemory`.
    pub fn push(&mut self, bytes: Vec<u8>) -> Result<SegmentId, RowsFault>
        ensures pushed { IfOk result (λ id. (id ≡ length self.old) × (self.new ≡ self.old ++ bytes.items ∷ [])) }
        ensures refused { IfErr result (IsFull self.new) }
        ensures has { Has (stored self.new) self.old }
    {
        let Ok(id) = SegmentId::try_from(self.items.len()) else {
            return Err(RowsFault::Segments);
        };
        self.items.push(bytes)?;
        Ok(id)
    }
}
