//! Children that are made at first use. After the Rust's `children`.
ghost use Rattle.std.specs.Prelude.{◌≡◌, ◌↔◌, ◌≤◌, ◌<◌, length, IfOk, OnOk, OnErr, IsErrOf, replicate, None, Some, is_some, true, false, slice_get};
ghost use Rattle.std.specs.Borrow.{sem};
ghost use Rattle.scan_layout.specs.LayoutView.{layouts_of};
ghost use Rattle.scan_layout.specs.OptionLends.{lends_value};
ghost use Rattle.scan_layout.specs.Lazy.{HaveTypes, dtypes_in, names_in, child_at, IsMadeOf, Makes};

use crate::node::LayoutRef;
use crate::reader_context::LayoutReaderContext;
use scan_values::{DType, NoMemory, Text};
use std::alloc::Global;
use std::marker::Model;
use thiserror::Error;

/// Makes a child of a node.
pub trait ChildOpener<V> {
    ghost use Rattle.scan_values.specs.DataType.{DataType, Name};
    ghost use Rattle.scan_layout.specs.Contexts.{Context};
    ghost use Rattle.scan_layout.specs.Layout.{Layout};

    type Made: Drop;

    /// What it makes of a node, a dtype, a name and a context.
    ghost makes: { Self → Layout → DataType → Name → Context V → Self.Made → Type 0 };

    /// The child of a node, of a dtype and a name.
    fn make(
        &self,
        alloc: Global,
        node: &LayoutRef,
        dtype: &DType,
        name: &Text,
        ctx: &LayoutReaderContext<V>,
    ) -> Result<Self::Made, NoMemory>
        ensures { IfOk result (λ m. makes self.now node.now.value dtype.now name.now ctx.now m) };
}

/// Why there is no child.
#[derive(Clone, Copy, Debug, PartialEq, Eq, Error)]
pub enum ChildFault {
    #[error("no child has the index")]
    ChildIndex,
    #[error("out of memory")]
    NoMemory,
}

// The dtypes and names of the children: one for each, or one for all.
#[derive(Drop)]
enum ChildTypes {
    Each(Vec<DType>, Vec<Text>),
    Uniform(DType, Text),
}

/// Children that are made at first use, and kept. Contracts see the node, the dtype and the name of each, the context,
/// the opener, and those that are made.
#[derive(Drop)]
pub struct LazyReaderChildren<V, K: ChildOpener<V>> {
    nodes: Vec<LayoutRef>,
    types: ChildTypes,
    made: Vec<Option<K::Made>>,
    opener: K,
    ctx: LayoutReaderContext<V>,
}

impl<V, K: ChildOpener<V>> Model for LazyReaderChildren<V, K> {
    ghost use Rattle.scan_layout.specs.Lazy.{Children};
    ghost use Rattle.scan_layout.specs.LazyCode.{children_code};

    ghost Value = { Children V K K.Made };

    ghost coded = { children_code V.code K.code K.Made.code };

    ghost use Rattle.std.specs.Prelude.{◌≡◌, length};
    ghost use Rattle.scan_layout.specs.LayoutView.{layouts_of};
    ghost use Rattle.scan_layout.specs.Lazy.{HaveTypes, dtypes_in, names_in};

    ghost view = { λ a. record {
      nodes = layouts_of a.nodes.items;
      dtypes = dtypes_in a.types (length a.made.items);
      names = names_in a.types (length a.made.items);
      ctx = a.ctx;
      opener = a.opener;
      made = a.made.items;
    } };

    ghost invariant = { λ a. record {
      one : length a.nodes.items ≡ length a.made.items;
      types : HaveTypes a.types (length a.made.items);
    } };
}

// The dtype and the name of a child.
fn types_at(types: &ChildTypes, idx: usize, count: usize) -> (&DType, &Text)
    requires have { HaveTypes types.now count }
    requires within { idx < count }
    ensures dtype { slice_get (dtypes_in types.now count) idx ≡ Some result.0.now }
    ensures name { slice_get (names_in types.now count) idx ≡ Some result.1.now }
{
    match types {
        ChildTypes::Each(dtypes, names) => (&dtypes[idx], &names[idx]),
        ChildTypes::Uniform(dtype, name) => (dtype, name),
    }
}

// Places for so many children, of which none is made.
#[tactic(auto, using(crate::proofs::Lazy::none_more))]
fn unmade<M: Drop>(alloc: Global, count: usize) -> Result<Vec<Option<M>>, NoMemory>
    ensures { IfOk result (λ v. v.items ≡ replicate count None) }
{
    let mut made = Vec::new(alloc);
    for _place in 0..count {
        made.push(None)?;
    }
    Ok(made)
}

impl<V, K: ChildOpener<V>> LazyReaderChildren<V, K> {
    /// Whether the child of an index is made.
    pub fn is_made(&self, idx: usize) -> bool
        ensures { result ≡ is_some (child_at self.now idx) }
    {
        match self.made.get(idx) {
            Some(made) => made.is_some(),
            None => false,
        }
    }
}

impl<V: Drop, K: ChildOpener<V> + Drop> LazyReaderChildren<V, K> {
    /// Children of nodes, each with its dtype and name. None is made.
    pub fn new(
        alloc: Global,
        nodes: Vec<LayoutRef>,
        dtypes: Vec<DType>,
        names: Vec<Text>,
        opener: K,
        ctx: LayoutReaderContext<V>,
    ) -> Result<Self, NoMemory>
        requires dtypes { length dtypes.items ≡ length nodes.items }
        requires names { length names.items ≡ length nodes.items }
        ensures { IfOk result (λ c. c ≡ record {
          nodes = layouts_of nodes.items;
          dtypes = dtypes.items;
          names = names.items;
          ctx = ctx;
          opener = opener;
          made = replicate (length nodes.items) None;
        }) }
    {
        let made = unmade(alloc, nodes.len())?;
        Ok(LazyReaderChildren {
            nodes,
            types: ChildTypes::Each(dtypes, names),
            made,
            opener,
            ctx,
        })
    }

    /// Children of nodes that have one dtype and one name. None is made.
    pub fn new_uniform(
        alloc: Global,
        nodes: Vec<LayoutRef>,
        dtype: DType,
        name: Text,
        opener: K,
        ctx: LayoutReaderContext<V>,
    ) -> Result<Self, NoMemory>
        ensures { IfOk result (λ c. c ≡ record {
          nodes = layouts_of nodes.items;
          dtypes = replicate (length nodes.items) dtype;
          names = replicate (length nodes.items) name;
          ctx = ctx;
          opener = opener;
          made = replicate (length nodes.items) None;
        }) }
    {
        let made = unmade(alloc, nodes.len())?;
        Ok(LazyReaderChildren {
            nodes,
            types: ChildTypes::Uniform(dtype, name),
            made,
            opener,
            ctx,
        })
    }
}

impl<V, K: ChildOpener<V>> LazyReaderChildren<V, K> {
    ghost use Rattle.scan_layout.specs.LazyLends.{lends_child, lends_made};

    /// Makes the child of an index of its own node, dtype and name, unless it is made. An own call.
    ///
    /// # Errors
    /// `ChildIndex` exactly where no child has the index, and `NoMemory`. Then nothing is made.
    pub fn make_child(&mut self, alloc: Global, idx: usize) -> Result<(), ChildFault>
        ensures made { OnOk result (Makes K.makes idx self.old self.new) }
        ensures kept { OnErr result (self.new ≡ self.old) }
        ensures index { IsErrOf result ChildFault.ChildIndex ↔ (length self.old.made ≤ idx) }
    {
        if idx >= self.made.len() {
            return Err(ChildFault::ChildIndex);
        }
        if self.made[idx].is_some() {
            return Ok(());
        }
        let (dtype, name) = types_at(&self.types, idx, self.made.len());
        match self
            .opener
            .make(alloc, &self.nodes[idx], dtype, name, &self.ctx)
        {
            Ok(made) => {
                self.made[idx] = Some(made);
                Ok(())
            }
            Err(_) => Err(ChildFault::NoMemory),
        }
    }

    /// The child of an index, which is made at its first use, of its own node, dtype and name, and kept.
    ///
    /// # Errors
    /// `ChildIndex` exactly where no child has the index, and `NoMemory`. A failed making is not kept.
    pub fn get(&mut self, alloc: Global, idx: usize) -> Result<&mut K::Made, ChildFault>
        ensures* lends { sem 𝓛 (lends_child V.row K.row K.Made.row K.ChildOpener self.entry idx result) }
        ensures kept { IfOk result (λ r. is_some (child_at self.old idx) ≡ true → child_at self.old idx ≡ Some r.now) }
        ensures own { IfOk result (λ r. is_some (child_at self.old idx) ≡ false → IsMadeOf K.makes self.old idx r.now) }
        ensures index { IsErrOf result ChildFault.ChildIndex ↔ (length self.old.made ≤ idx) }
    {
        self.make_child(alloc, idx)?;
        Ok(self.made_child(idx))
    }

    // A child that is made.
    fn made_child(&mut self, idx: usize) -> &mut K::Made
        requires { is_some (child_at self.old idx) ≡ true }
        ensures* lends { sem 𝓛 (lends_made V.row K.row K.Made.row K.ChildOpener self.entry idx result) }
        ensures child { child_at self.old idx ≡ Some result.now }
    {
        some_mut(&mut self.made[idx])
    }
}

// What is there.
fn some_mut<M>(child: &mut Option<M>) -> &mut M
    requires { is_some child.old ≡ true }
    ensures* lends { sem 𝓛 (lends_value M.row child.entry result) }
    ensures child { child.old ≡ Some result.now }
{
    match child {
        Some(child) => child,
        None => unreachable!(),
    }
}
