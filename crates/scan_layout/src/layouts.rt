//! Layouts of one kind. After the Rust's `layout` and `layouts`.
ghost use Rattle.std.specs.Prelude.{◌≡◌};
ghost use Rattle.std.specs.Prelude.{option_map};
ghost use Rattle.scan_layout.specs.Layout.{kids_of, nodes};
ghost use Rattle.scan_layout.specs.LayoutView.{layouts_of};
ghost use Rattle.scan_layout.specs.Slots.{nth_kid};

use crate::node::{LayoutNode, LayoutRef};
use std::alloc::AllocFailed;
use std::marker::{Model, PhantomData};
use thiserror::Error;

mod field_places;
pub mod list;
pub mod struct_;

/// A kind of layout.
pub trait VTable {
    ghost use Rattle.std.specs.Prelude.{Bool};
    ghost use Rattle.scan_layout.specs.declared.node.LayoutKind.{LayoutKind};

    ghost is_kind: { LayoutKind → Bool };
}

/// A layout of which the kind is known, and of which one level is well-formed. Contracts see it as its node.
#[derive(Drop)]
pub struct Layout<K: VTable> {
    node: LayoutRef,
    kind: PhantomData<K>,
}

impl<K: VTable> Model for Layout<K> {
    ghost use Rattle.std.specs.Prelude.{◌≡◌, None, true};
    ghost use Rattle.scan_layout.specs.Layout as tree;
    ghost use Rattle.scan_layout.specs.LayoutCode.{layout_code};
    ghost use Rattle.scan_layout.specs.Check.{level_fault};

    ghost Value = { tree.Layout };

    ghost coded = { layout_code };

    ghost view = { λ a. a.node.value };

    ghost invariant = { λ a. record { level : level_fault a.node.value ≡ None; kind : K.is_kind (tree.kind_of a.node.value) ≡ true } };
}

impl<K: VTable> Layout<K> {
    /// The layout's node.
    pub fn node(&self) -> &LayoutRef
        ensures { result.now.value ≡ self.now }
    {
        &self.node
    }

    /// The layout's node, given away.
    pub fn into_node(self) -> LayoutRef
        ensures { result.value ≡ self }
    {
        let Layout { node, kind: _ } = self;
        node
    }
}

/// Why a slot has no dtype.
#[derive(Clone, Copy, Debug, PartialEq, Eq, Error)]
pub enum SlotFault {
    #[error("no child has the slot")]
    NoSlot,
    #[error("out of memory")]
    NoMemory,
}

/// Why masks match no fields.
#[derive(Clone, Copy, Debug, PartialEq, Eq, Error)]
pub enum MaskFault {
    #[error("a mask names no field")]
    NoSuchField,
    #[error("out of memory")]
    NoMemory,
}

impl<T: Drop> From<AllocFailed<T>> for MaskFault {
    ghost use Rattle.std.specs.Prelude.{◌≡◌};
    ghost use Rattle.scan_layout.specs.declared.layouts.MaskFault.TheVariants as fault;

    ghost from_gives = { λ _ e. e ≡ fault.NoMemory };

    fn from(_: AllocFailed<T>) -> MaskFault {
        MaskFault::NoMemory
    }
}

// The node of an index.
#[tactic(auto, using(crate::proofs::Typed::kid_at, crate::proofs::Typed::kid_past))]
fn kid_at(children: &[LayoutRef], i: usize) -> Option<&LayoutRef>
    ensures { option_map (λ r. r.now.value) result ≡ nth_kid (nodes (layouts_of children.now)) i }
{
    if i < children.len() {
        Some(&children[i])
    } else {
        None
    }
}

impl LayoutNode {
    /// The child of an index.
    pub(crate) fn child_at(&self, i: usize) -> Option<&LayoutRef>
        ensures { option_map (λ r. r.now.value) result ≡ nth_kid (kids_of self.now) i }
    {
        kid_at(self.children.as_slice(), i)
    }
}
