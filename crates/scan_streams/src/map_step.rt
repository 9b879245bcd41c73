//! What a scan makes of its arrays. After the Rust's `ScanBuilder::map`, which boxes one function.
ghost use Rattle.std.specs.Prelude.{◌≡◌, Ok};
ghost use Rattle.scan_values.specs.Arrays.{ArrayData};
ghost use Rattle.scan_streams.specs.MapSteps.{ThenAnswers, TakesAnswers, mapped_data};

use scan_values::Array;
use std::marker::{Model, PhantomData};

/// What is made of each array that a scan gives.
pub trait MapStep {
    ghost use Rattle.std.specs.Prelude.{Result};

    /// What it makes.
    type Out;

    /// Why it refuses.
    type Fault;

    /// It may be applied to any array.
    ghost can_apply: { Self → Type 0 };

    /// What it may answer of an array.
    ghost answers: { Self → ArrayData → Result Self.Out Self.Fault → Type 0 };

    /// What it makes of an array.
    fn apply_step(&self, array: Array) -> Result<Self::Out, Self::Fault>
        requires { can_apply self.now }
        ensures { answers self.now array result };
}

/// The array itself. It refuses nothing: its fault is any type.
#[derive(Drop)]
pub struct Identity<E> {
    fault: PhantomData<E>,
}

impl<E> Identity<E> {
    /// The step that changes nothing.
    pub fn new() -> Self {
        Identity { fault: PhantomData }
    }
}

impl<E> MapStep for Identity<E> {
    type Out = Array;

    type Fault = E;

    ghost can_apply = { λ _. Unit {0} };

    ghost answers = { λ _ a r. r ≡ Ok a };

    fn apply_step(&self, array: Array) -> Result<Array, E> {
        Ok(array)
    }
}

/// What a function makes of what another step makes. Contracts see the step and the function.
#[derive(Drop)]
pub struct Mapped<M, G, B> {
    step: M,
    then: G,
    out: PhantomData<B>,
}

impl<M, G, B> Model for Mapped<M, G, B> {
    ghost use Rattle.scan_streams.specs.MapSteps.{MappedData, mapped_data};

    ghost Value = { MappedData M G };

    ghost view = { λ a. mapped_data a.step a.then };
}

impl<M, G, B> Mapped<M, G, B> {
    /// A step, and the function that is called on what it makes.
    pub fn new(step: M, then: G) -> Self
        ensures { result ≡ mapped_data step then }
    {
        Mapped {
            step,
            then,
            out: PhantomData,
        }
    }
}

impl<M: MapStep, G: Fn(M::Out) -> Result<B, M::Fault>, B> MapStep for Mapped<M, G, B> {
    type Out = B;

    type Fault = M::Fault;

    ghost can_apply = { λ s. M.can_apply s.step × TakesAnswers (M.answers s.step) (G.pre s.then) };

    ghost answers = { λ s a r. ThenAnswers (M.answers s.step a) (G.post s.then) r };

    fn apply_step(&self, array: Array) -> Result<B, M::Fault> {
        let made = self.step.apply_step(array)?;
        (self.then)(made)
    }
}
