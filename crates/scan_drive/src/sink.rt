//! What takes the rows of a drive as they are given. An own type: the Rust gives a stream, which its caller polls.
ghost use Rattle.std.specs.Prelude.{◌≡◌, []};

use crate::delivery::Chunk;
use scan_values::NoMemory;
use std::alloc::Global;

/// Whether more is wanted.
#[derive(Clone, Copy, Debug, PartialEq, Eq)]
pub enum Flow {
    More,
    Stop,
}

/// What a sink takes, made of the rows of a split.
pub trait FromChunk<R> {
    ghost use Rattle.scan_drive.specs.declared.delivery.Chunk.{Chunk};

    /// What is made of a chunk.
    ghost made: { Chunk R → Self };

    /// What holds of all that is made.
    ghost fits: { Self → Type 0 };

    ghost use Rattle.std.specs.Prelude.{◌≡◌};

    /// Makes it.
    fn from_chunk(chunk: Chunk<R>) -> Self
        ensures made { result ≡ made chunk }
        ensures fits { fits result };
}

/// What takes chunks one after the other, as they are given, and may say that it wants no more.
pub trait ChunkSink<T> {
    ghost use Rattle.std.specs.Prelude.{List};

    /// From what it was, it has taken these chunks, in their order, and is now this.
    ghost takes: { Self → List T → Self → Type 0 };

    /// That it wants no more.
    ghost full: { Self → Type 0 };

    ghost use Rattle.std.specs.Prelude.{◌≡◌, ◌∷◌, [], IfOk, OnOk, OnErr};
    ghost use Rattle.scan_drive.specs.Taking.{IsTaking};
    ghost use Rattle.scan_drive.specs.declared.sink.Flow.TheVariants as flow;

    /// Takes a chunk, and says whether it wants more. What it has no memory for it has not taken.
    fn take(&mut self, chunk: T) -> Result<Flow, NoMemory>
        ensures taken { OnOk result (takes self.old (chunk ∷ []) self.new) }
        ensures same { OnErr result (takes self.old [] self.new) }
        ensures full { IfOk result (λ f. f ≡ flow.Stop → full self.new) };

    /// Nothing taken leaves it as it is, and what is taken after something else stands behind that.
    ghost taking: { IsTaking takes };
}

/// A sink that keeps all.
#[derive(Drop)]
pub struct Kept<T> {
    pub chunks: Vec<T>,
}

impl<T> Kept<T> {
    /// Nothing is taken yet.
    pub fn new(alloc: Global) -> Kept<T>
        ensures { result.chunks.items ≡ [] }
    {
        Kept {
            chunks: Vec::new(alloc),
        }
    }
}

impl<T: Drop> ChunkSink<T> for Kept<T> {
    ghost use Rattle.scan_drive.specs.Taking.{Appends, appends_taking};

    ghost takes = { Appends (λ k. k.chunks.items) };

    ghost full = { λ k. ⊥ };

    ghost taking = { appends_taking (λ k. k.chunks.items) };

    fn take(&mut self, chunk: T) -> Result<Flow, NoMemory> {
        self.chunks.reserve(1)?;
        self.chunks.push_reserved(chunk);
        Ok(Flow::More)
    }
}
