//! Look-ups into the same files, one after the other.
ghost use Rattle.std.specs.Prelude.{◌≡◌, ◌≢◌, ◌<◌, IfOk, IfErr, OnOk, Err, All, length, replicate};
ghost use Rattle.std.specs.Prelude.{IfSome, slice_get, true};
ghost use Rattle.scan_expr.specs.Bound.{bound_of};
ghost use Rattle.scan_expr.specs.Infer.{infer};
ghost use Rattle.scan_expr.specs.Typing.{bind_fault};
ghost use Rattle.scan_multi.specs.Lawful.{IsIdle};
ghost use Rattle.scan_seek.specs.KeptData.{unopened};
ghost use Rattle.scan_lookup.specs.Faults.{IsBound};
ghost use Rattle.scan_lookup.specs.Lookups.{IsReply, IsLookupRefusedFor, LookupMoves};
ghost use Rattle.scan_lookup.specs.Session.{IsSession, session_data, new_session, is_open_in};
ghost use Rattle.scan_partition.specs.Partable.{IsPartable};
ghost use Rattle.scan_lookup.specs.declared.fault.LookupFault.{LookupFault};

use crate::fault::LookupFault;
use crate::looking::look;
use scan_drive::ScanFile;
use scan_expr::{BoundExpression, Expression};
use scan_opener::LayoutReaderFactory;
use scan_places::Place;
use scan_seek::Kept;
use scan_segments::{KeyedSegmentCache, SegmentSource};
use scan_values::{Array, DType, NoMemory};
use std::alloc::Global;
use std::marker::Model;

/// Files whose rows are looked up by place, what is kept of each once it is opened, and a cache of their segments. A file is
/// opened when a place first names it, and stays open. Contracts see the projection that is looked up, the files, what is
/// kept of them, and the cache.
#[derive(Drop)]
pub struct LookupSession<O: LayoutReaderFactory, S: SegmentSource, C: KeyedSegmentCache> {
    projection: BoundExpression,
    files: Vec<ScanFile<O, S>>,
    kept: Vec<Kept>,
    cache: C,
}

impl<O: LayoutReaderFactory, S: SegmentSource, C: KeyedSegmentCache> Model
    for LookupSession<O, S, C> {
    ghost use Rattle.scan_lookup.specs.Session.{SessionData, session_data, session_code, IsSession};

    ghost Value = { SessionData O S C };

    ghost coded = { session_code O.code S.code C.code };

    ghost view = { λ a. session_data a.projection a.files.items a.kept.items a.cache };

    ghost invariant = { λ a. IsSession O.opener S.state (session_data a.projection a.files.items a.kept.items a.cache) };
}

/// Nothing yet of so many files.
fn all_unopened(alloc: Global, count: usize) -> Result<Vec<Kept>, NoMemory>
    ensures { IfOk result (λ k. k.items ≡ replicate count unopened) }
{
    let mut kept = Vec::with_capacity(alloc, count)?;
    for _i in 0..count {
        kept.push(Kept::unopened())?;
    }
    Ok(kept)
}

/// A session over so much.
fn started<O: LayoutReaderFactory, S: SegmentSource, C: KeyedSegmentCache>(
    projection: BoundExpression,
    files: Vec<ScanFile<O, S>>,
    kept: Vec<Kept>,
    cache: C,
) -> LookupSession<O, S, C>
    requires { IsSession O.opener S.state (session_data projection files.items kept.items cache) }
    ensures { result ≡ session_data projection files.items kept.items cache }
{
    LookupSession {
        projection,
        files,
        kept,
        cache,
    }
}

/// A session over files, none of which is opened.
fn begun<O: LayoutReaderFactory + Drop, S: SegmentSource + Drop, C: KeyedSegmentCache + Drop>(
    alloc: Global,
    projection: BoundExpression,
    files: Vec<ScanFile<O, S>>,
    cache: C,
) -> Result<LookupSession<O, S, C>, LookupFault>
    requires parts { IsPartable projection }
    requires idle { All (IsIdle O.opener S.state) files.items }
    ensures made { IfOk result (λ s. s ≡ new_session projection files.items cache) }
    ensures short { IfErr result (λ e. e ≡ LookupFault.NoMemory) }
{
    let kept = all_unopened(alloc, files.len())?;
    Ok(started(projection, files, kept, cache))
}

impl<
    O: LayoutReaderFactory + Drop,
    S: SegmentSource + Drop,
    C: KeyedSegmentCache + Drop,
> LookupSession<O, S, C> {
    /// A session over files of a dtype, none of which is opened, whose sources have no live request.
    ///
    /// # Errors
    /// `Bind` exactly where the projection does not type over the dtype, with its first fault; or `NoMemory`. The files and
    /// the cache are dropped then.
    pub fn new(
        alloc: Global,
        dtype: &DType,
        projection: &Expression,
        files: Vec<ScanFile<O, S>>,
        cache: C,
    ) -> Result<Self, LookupFault>
        requires idle { All (IsIdle O.opener S.state) files.items }
        ensures made { IfOk result (λ s. s ≡ new_session (bound_of dtype.now projection.now) files.items cache) }
        ensures bound { result ≢ Err LookupFault.NoMemory → IsBound (bind_fault dtype.now projection.now) result }
    {
        match projection.bind(alloc, dtype) {
            Ok(bound) => begun(alloc, bound, files, cache),
            Err(fault) => Err(LookupFault::from(fault)),
        }
    }

    /// Whether the opener of the file at a place in the list has answered. There is none past the last.
    pub fn is_open(&self, file: usize) -> bool
        ensures { result ≡ is_open_in self.now.kept file }
    {
        match self.kept.get(file) {
            Some(kept) => kept.is_open(),
            None => false,
        }
    }

    /// The source of the file at a place in the list.
    pub fn source(&self, file: usize) -> &S
        requires { file < length self.now.files }
        ensures { IfSome (slice_get self.now.files file) (λ f. result.now ≡ f.source) }
    {
        &self.files[file].source
    }

    /// The dtype of the values.
    pub fn dtype(&self) -> &DType
        ensures { result.now ≡ infer (self.now.projection).scope (self.now.projection).expr }
    {
        self.projection.dtype()
    }

    /// The values of the projection at places, one by one in their order, repeats included.
    ///
    /// The places are walked in order first: the file of each is opened, where that is not done, by polls of its opener to
    /// the end, and is to have the row. Then the rows of each file are read, file by file. What a row touches of a segment,
    /// where the projection needs it, is looked up in the cache first. What is not there is asked of the file's source, once
    /// in a call, and what comes is put into the cache. A fault of the cache is a miss. No request is live after any answer,
    /// what was opened stays open, and the session may be called again.
    ///
    /// A place costs a map's log and what its value costs; files that no place names cost nothing.
    ///
    /// # Errors
    /// The first of the walk: `NoPlace` where there is no such file; `Opener` where the opener's count of faults rose in this
    /// call; `DTypeMismatch` and then `Layout` where it gives a layout of another dtype, or one that is not well-formed;
    /// `NoPlace` where the file was skipped, or has no such row. Then, each only by its cause: `Source` where that source's
    /// count of faults rose and the segment was asked for in this call; `Corrupt` where an asked row touches the segment, and
    /// it is missing, does not decode or holds a bad offset; `Overflow` where the projection overflows at that asked row.
    /// `NoMemory` may come in place of any answer.
    pub fn look_up(&mut self, alloc: Global, places: &[Place]) -> Result<Array, LookupFault>
        ensures projection { self.new.projection ≡ self.old.projection }
        ensures ok { IfOk result (IsReply O.opener S.state self.old.projection places.now
            self.old.files self.new.files (C.cache self.old.cache) (C.cache self.new.cache)) }
        ensures open { OnOk result (All (λ p. is_open_in self.new.kept p.file ≡ true) places.now) }
        ensures err { IfErr result (IsLookupRefusedFor O.opener S.state self.old.projection places.now
            self.old.files self.new.files (C.cache self.old.cache) (C.cache self.new.cache)) }
        ensures moves { LookupMoves O.opener S.state self.old.projection places.now
            self.old.files self.new.files self.old.kept self.new.kept (C.cache self.old.cache) (C.cache self.new.cache) }
    {
        look(
            alloc,
            &self.projection,
            &mut self.files,
            &mut self.kept,
            &mut self.cache,
            places,
        )
    }
}
