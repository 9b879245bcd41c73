//! The shared array: a source, and the first answer that was computed from it.
ghost use Rattle.std.specs.Prelude.{◌≡◌, Some, None, IfOk, IfSome, IsOk, OnErr, Result, option_map};
ghost use Rattle.std.specs.Fn.{FnOnceReturnsAt};
ghost use Rattle.scan_values.specs.Arrays.{ArrayData};
ghost use Rattle.scan_shared.specs.Shared.{array_of, answer_of, Remembers, Polls, Gave, IfDone};

use once_cell::race::OnceBox;
use scan_values::{Array, NoMemory};
use std::alloc::Global;
use std::marker::{Brand, Model, PhantomData};

/// The slots of a shared array.
#[derive(Drop)]
pub struct SharedSlots;

impl SharedSlots {
    /// The slot of the source.
    pub const SOURCE: usize = 0;
}

/// Makes shared arrays.
#[derive(Clone, Copy, Debug)]
pub struct Shared;

/// A law of answers: what each closure that computes an array has to give, and so what holds of each answer, whichever
/// thread computed it.
pub trait Law<E> {
    ghost use Rattle.std.specs.Prelude.{Result};
    ghost use Rattle.scan_values.specs.Arrays.{ArrayData};

    ghost holds: { Result ArrayData E → Type 0 };
}

/// No law: an answer may be any. A function over a law that is called at `Brand` may be given one that speaks of what is
/// at hand there, as of the source.
impl<E> Law<E> for Brand {
    ghost holds = { λ r. Unit {0} };
}

/// An answer of which the law holds.
#[derive(Drop)]
pub struct Answer<E: Drop, C: Law<E>> {
    value: Result<Array, E>,
    law: PhantomData<C>,
}

impl<E: Drop, C: Law<E>> Model for Answer<E, C> {
    ghost use Rattle.std.specs.Prelude.{Result};
    ghost use Rattle.scan_values.specs.Arrays.{ArrayData};
    ghost use Rattle.scan_shared.specs.Shared.{answer_code};

    ghost Value = { Result ArrayData E };

    ghost coded = { answer_code E.code };

    ghost view = { λ a. a.value };

    ghost invariant = { λ a. C.holds a.value };
}

impl<E: Drop, C: Law<E>> Answer<E, C> {
    fn new(value: Result<Array, E>) -> Answer<E, C>
        requires { C.holds value }
        ensures { result ≡ value }
    {
        Answer {
            value,
            law: PhantomData,
        }
    }

    // An answer in a box.
    fn boxed(alloc: Global, value: Result<Array, E>) -> Result<Box<Answer<E, C>>, NoMemory>
        requires { C.holds value }
        ensures { IfOk result (λ b. b.value ≡ value) }
    {
        Ok(Box::new(alloc, Answer::new(value))?)
    }

    fn lent<'a>(&'a self) -> Result<&'a Array, &'a E>
        ensures value { answer_of result ≡ self.entry.now }
        ensures holds { C.holds (answer_of result) }
    {
        self.value.as_ref()
    }
}

/// What a caller knows of one shared array: which it is, and the answer that is kept, once it was seen. Each caller has
/// its own. Two of one array may be compared: where both know an answer, it is the same one. A note takes no bytes.
pub type Note<E, C = Brand> = once_cell::race::Note<Answer<E, C>>;

/// An array that is computed once from its source, and shared by reference. It keeps the first answer, a fault
/// included. Each answer is one that a closure gave: the law `C`, which each closure has to keep, holds of it. Contracts
/// see the source, and which array it is.
#[derive(Drop)]
pub struct SharedArray<E: Drop, C: Law<E> = Brand> {
    source: Array,
    cell: OnceBox<Answer<E, C>>,
    alloc: Global,
}

impl<E: Drop, C: Law<E>> Model for SharedArray<E, C> {
    ghost use Rattle.scan_shared.specs.Shared.{SharedData, shared_data_code};
    ghost use Rattle.once_cell.specs.Once.{cell_name};

    ghost Value = { SharedData };

    ghost coded = { shared_data_code };

    ghost view = { λ s. record { source = s.source; cell = cell_name s.cell } };
}

/// What a poll gives: the answer that is kept, or that there is none yet.
#[derive(Drop)]
pub enum SharedPoll<'a, E> {
    Pending,
    Done(Result<&'a Array, &'a E>),
}

impl Shared {
    /// An array that is to be computed from its source. It takes no memory, so it never refuses.
    pub fn new<E: Drop, C: Law<E>>(
        alloc: Global,
        source: Array,
    ) -> Result<SharedArray<E, C>, NoMemory>
        ensures made { IsOk result }
        ensures source { IfOk result (λ s. s.source ≡ source) }
    {
        Ok(SharedArray {
            source,
            cell: OnceBox::new(alloc),
            alloc,
        })
    }
}

impl<E: Drop, C: Law<E>> SharedArray<E, C> {
    /// What the array is computed from.
    pub fn source(&self) -> &Array
        ensures { result.now ≡ self.now.source }
    {
        &self.source
    }

    /// A note of this array, which knows no answer yet.
    pub fn note(&self) -> Note<E, C>
        ensures { (result.cell ≡ self.now.cell) × (result.known ≡ None) }
    {
        self.cell.note()
    }

    /// The computed array, or the source while nothing or a fault is kept. The note knows what was kept from then on.
    pub fn current_array_ref<'a>(&'a self, n: &mut Note<E, C>) -> &'a Array
        requires { n.old.cell ≡ self.now.cell }
        ensures note { (n.new.cell ≡ n.old.cell) × Remembers n.old.known n.new.known }
        ensures array { result.now ≡ array_of self.now.source n.new.known }
        ensures holds { IfSome n.new.known C.holds }
    {
        match self.kept(n) {
            Some(Ok(array)) => array,
            _ => &self.source,
        }
    }

    // The answer that is kept, if the note or the array has one.
    fn kept<'a>(&'a self, n: &mut Note<E, C>) -> Option<Result<&'a Array, &'a E>>
        requires { n.old.cell ≡ self.now.cell }
        ensures cell { n.new.cell ≡ n.old.cell }
        ensures known { Remembers n.old.known n.new.known }
        ensures answer { option_map answer_of result ≡ n.new.known }
        ensures holds { IfSome result (λ r. C.holds (answer_of r)) }
    {
        match self.cell.get_as(n) {
            Some(answer) => Some(answer.lent()),
            None => None,
        }
    }

    // Keeps the answer, or drops it where another was kept first, and gives the one that is kept.
    fn keep<'a>(&'a self, n: &mut Note<E, C>, answer: Box<Answer<E, C>>) -> Result<&'a Array, &'a E>
        requires { n.old.cell ≡ self.now.cell }
        ensures cell { n.new.cell ≡ n.old.cell }
        ensures known { Remembers n.old.known n.new.known }
        ensures answer { n.new.known ≡ Some (answer_of result) }
        ensures holds { C.holds (answer_of result) }
    {
        if let Err(second) = self.cell.set_as(answer, n) {
            drop(second);
        }
        match self.kept(n) {
            Some(kept) => kept,
            None => unreachable!(),
        }
    }

    /// The first answer kept, a fault included. Where none was kept, `f` computes one from the source. Of several that
    /// are computed at once the first to finish is kept, and all get that one.
    pub fn get_or_compute<'a, F: FnOnce(&Array) -> Result<Array, E> + Drop>(
        &'a self,
        n: &mut Note<E, C>,
        f: F,
    ) -> Result<Result<&'a Array, &'a E>, NoMemory>
        requires note { n.old.cell ≡ self.now.cell }
        requires callable { F.IsAlwaysCallable f }
        requires lawful { (a : Result ArrayData E) → FnOnceReturnsAt F.FnOnce f self.now.source a → C.holds a }
        ensures note { (n.new.cell ≡ n.old.cell) × Remembers n.old.known n.new.known }
        ensures answer { IfOk result (λ r. n.new.known ≡ Some (answer_of r)) }
        ensures holds { IfOk result (λ r. C.holds (answer_of r)) }
        ensures refused { OnErr result ((n.old.known ≡ None) × (n.new.known ≡ None)) }
        ensures computed { OnErr result (Gave (FnOnceReturnsAt F.FnOnce f self.now.source)) }
    {
        match self.kept(n) {
            Some(kept) => Ok(kept),
            None => {
                let answer = Answer::boxed(self.alloc, f(&self.source))?;
                Ok(self.keep(n, answer))
            }
        }
    }

    /// As `get_or_compute`, for an `f` that may have no answer yet: `Pending` where `f` ran and gave None.
    pub fn get_or_poll<'a, F: FnOnce(&Array) -> Option<Result<Array, E>> + Drop>(
        &'a self,
        n: &mut Note<E, C>,
        f: F,
    ) -> Result<SharedPoll<'a, E>, NoMemory>
        requires note { n.old.cell ≡ self.now.cell }
        requires callable { F.IsAlwaysCallable f }
        requires lawful { (a : Result ArrayData E) → FnOnceReturnsAt F.FnOnce f self.now.source (Some a) → C.holds a }
        ensures note { (n.new.cell ≡ n.old.cell) × Remembers n.old.known n.new.known }
        ensures holds { IfOk result (IfDone C.holds) }
        ensures poll { IfOk result (Polls n.old.known n.new.known (FnOnceReturnsAt F.FnOnce f self.now.source None)) }
        ensures refused { OnErr result ((n.old.known ≡ None) × (n.new.known ≡ None)) }
        ensures computed { OnErr result (Gave (λ a. FnOnceReturnsAt F.FnOnce f self.now.source (Some a))) }
    {
        if let Some(kept) = self.kept(n) {
            return Ok(SharedPoll::Done(kept));
        }
        match f(&self.source) {
            Some(answer) => {
                let answer = Answer::boxed(self.alloc, answer)?;
                Ok(SharedPoll::Done(self.keep(n, answer)))
            }
            None => Ok(SharedPoll::Pending),
        }
    }
}
