//! What is kept of a file.
ghost use Rattle.std.specs.Prelude.{◌≡◌, ◌≢◌, ℕ, None};
ghost use Rattle.scan_layout.specs.Check.{first_fault};
ghost use Rattle.scan_seek.specs.Keeps.{is_open, IsFlawed, RowIs};
ghost use Rattle.scan_seek.specs.KeptView.{IsPlanOver};
ghost use Rattle.scan_seek.specs.KeptData.{unopened, skipped, flawed, ready};

use scan_layout::{LayoutFault, LayoutRef};
use scan_plans::Plan;
use scan_values::DType;
use std::marker::Model;
use std::sync::Arc;

/// What is kept: nothing, that there is nothing, a layout that is not read, or one with the plan of what is read of it.
pub(crate) enum Kind {
    Unopened,
    Skipped,
    Flawed(LayoutRef),
    Ready(LayoutRef, Arc<Plan>),
}

impl Drop for Kind {
    fn drop(self) {
        match self {
            Kind::Unopened => {}
            Kind::Skipped => {}
            Kind::Flawed(_) => {}
            Kind::Ready(_, _) => {}
        }
    }
}

/// What is kept of a file: nothing before it is opened; that it was skipped; its layout, where that is not well-formed or
/// of another dtype; or else its layout with the plan of what is read of it.
#[derive(Drop)]
pub struct Kept {
    pub(crate) kind: Kind,
}

impl Model for Kept {
    ghost use Rattle.scan_seek.specs.KeptData.{KeptData, kept_code};

    ghost Value = { KeptData };

    ghost coded = { kept_code };

    ghost use Rattle.scan_seek.specs.KeptView.{kept_of, HasPlan};

    ghost view = { λ a. kept_of a.kind };

    ghost invariant = { λ a. HasPlan a.kind };
}

/// What a file has at a row.
#[derive(Clone, Copy, Debug, PartialEq, Eq)]
pub enum RowStanding {
    /// The row.
    There,
    /// It was skipped, or has fewer rows.
    Missing,
    /// A layout of another dtype.
    OtherDType,
    /// A layout of the dtype that is not well-formed, with its first fault.
    IllFormed(LayoutFault),
}

impl Kept {
    /// Nothing yet.
    pub fn unopened() -> Kept
        ensures { result ≡ unopened }
    {
        Kept {
            kind: Kind::Unopened,
        }
    }

    /// That a file was skipped.
    pub(crate) fn skipped() -> Kept
        ensures { result ≡ skipped }
    {
        Kept {
            kind: Kind::Skipped,
        }
    }

    /// A layout that is not read.
    pub(crate) fn flawed(layout: LayoutRef) -> Kept
        ensures { result ≡ flawed layout.value }
    {
        Kept {
            kind: Kind::Flawed(layout),
        }
    }

    /// A layout, and the plan of what is read of it.
    pub(crate) fn ready(layout: LayoutRef, plan: Arc<Plan>) -> Kept
        requires form { first_fault layout.value ((plan.value).expr).scope ≡ None }
        requires plan { IsPlanOver layout.value (plan.value).expr plan.value }
        ensures { result ≡ ready layout.value (plan.value).expr }
    {
        Kept {
            kind: Kind::Ready(layout, plan),
        }
    }

    /// Whether the file's opener has answered.
    pub fn is_open(&self) -> bool
        ensures { result ≡ is_open self.now }
    {
        match &self.kind {
            Kind::Unopened => false,
            _ => true,
        }
    }

    /// What the file has at a row, where its rows are to be of a dtype.
    pub fn row(&self, dtype: &DType, row: u64) -> RowStanding
        requires open { self.now ≢ unopened }
        requires flawed { IsFlawed dtype.now self.now }
        ensures { RowIs dtype.now row self.now result }
    {
        match &self.kind {
            Kind::Unopened => unreachable!(),
            Kind::Skipped => RowStanding::Missing,
            Kind::Flawed(layout) => flaw_of(layout, dtype),
            Kind::Ready(layout, _) => {
                if row < layout.row_count() {
                    RowStanding::There
                } else {
                    RowStanding::Missing
                }
            }
        }
    }
}

/// What is wrong with a layout that is not read.
fn flaw_of(layout: &LayoutRef, dtype: &DType) -> RowStanding
    requires { IsFlawed dtype.now (flawed layout.now.value) }
    ensures { (row : ℕ) → RowIs dtype.now row (flawed layout.now.value) result }
{
    if *layout.dtype() != *dtype {
        return RowStanding::OtherDType;
    }
    match layout.check(dtype) {
        Ok(()) => unreachable!(),
        Err(fault) => RowStanding::IllFormed(fault),
    }
}
