//! Layout trees. After the Rust's `layout`, `vtable` and `layouts::flat`.
ghost use Rattle.std.specs.Prelude.{◌≡◌, ◌^◌, ◌==◌, IfOk, nat_lt};
ghost use Rattle.scan_values.specs.Kinds.{is_scalar_type};
ghost use Rattle.scan_layout.specs.Layout.{node, nodes, no_nodes, dtype_of, rows_of};
ghost use Rattle.scan_layout.specs.Check.{total_rows, new_leaf_fault, TellsOrNoMemory};
ghost use Rattle.scan_layout.specs.LayoutView.{layouts_of};

use crate::check::total_rows;
use crate::fault::LayoutFault;
use scan_segments::SegmentId;
use scan_spelling::Spelling;
use scan_values::{DType, NoMemory, PType};
use std::alloc::Global;
use std::marker::Model;
use std::rc::Rc;

/// The segments of a leaf, in row order: an id and the number of its rows each. Contracts see them as a list of pairs.
#[derive(Drop)]
pub struct LeafSegments {
    items: Vec<(SegmentId, u64)>,
}

impl Model for LeafSegments {
    ghost use Rattle.std.specs.Prelude.{List, ℕ};

    ghost Value = { List (ℕ × ℕ) };

    ghost view = { λ a. a.items.items };
}

/// What a node is: a leaf with its segments and their spelling, a struct, or a list with the integer type of its
/// offsets.
#[derive(Drop)]
pub enum LayoutKind {
    Leaf(LeafSegments, Spelling),
    Struct,
    List(PType),
}

/// The children of a node, which may be shared. Contracts see them as a list of layouts.
#[cycle(layout)]
#[derive(Drop)]
pub struct Nodes {
    items: Vec<Rc<LayoutNode>>,
}

impl Model for Nodes {
    ghost use Rattle.std.specs.Prelude.{List};
    ghost use Rattle.scan_layout.specs.Layout.{Layout, nodes, nodes_size};
    ghost use Rattle.scan_layout.specs.LayoutCode.{layouts_code};

    ghost Value = { List Layout };

    ghost coded = { layouts_code };

    ghost use Rattle.scan_layout.specs.LayoutView.{layouts_of};

    ghost view = { λ a. layouts_of a.items.items };

    ghost size = { λ v. nodes_size (nodes v) };

    ghost use Rattle.scan_layout.specs.LayoutFalls.{most_le_nodes_size};

    ghost size_decreases = { λ a h. most_le_nodes_size a.items.items };
}

/// A node of a layout tree, with no invariant: `check` tests it.
#[cycle(layout)]
#[derive(Drop)]
pub struct LayoutNode {
    pub dtype: DType,
    pub row_count: u64,
    pub kind: LayoutKind,
    pub children: Nodes,
}

impl Model for LayoutNode {
    ghost use Rattle.scan_layout.specs.Layout.{Layout, node, nodes, layout_size};
    ghost use Rattle.scan_layout.specs.LayoutCode.{layout_code};

    ghost Value = { Layout };

    ghost coded = { layout_code };

    ghost view = { λ a. node a.dtype a.row_count a.kind (nodes a.children) };

    ghost size = { layout_size };

    ghost use Rattle.std.proofs.Common.{arith};

    ghost size_decreases = { λ a h. Prim.grind arith };
}

/// A shared node. No layout crosses threads.
pub type LayoutRef = Rc<LayoutNode>;

impl LeafSegments {
    /// The segments, taken as they are.
    pub fn new(items: Vec<(SegmentId, u64)>) -> LeafSegments
        ensures { result ≡ items.items }
    {
        LeafSegments { items }
    }

    /// The segments in row order.
    pub fn as_slice(&self) -> &[(SegmentId, u64)]
        ensures { result.now ≡ self.now }
    {
        &self.items
    }
}

impl Nodes {
    /// The children, taken as they are.
    pub fn new(items: Vec<LayoutRef>) -> Nodes
        ensures { result ≡ layouts_of items.items }
    {
        Nodes { items }
    }

    /// The children in order.
    pub fn as_slice(&self) -> &[LayoutRef]
        ensures { layouts_of result.now ≡ self.now }
    {
        &self.items
    }
}

impl LayoutNode {
    /// A layout of these parts, unchecked: for trees that are read from outside.
    pub fn from_parts(
        alloc: Global,
        dtype: DType,
        row_count: u64,
        kind: LayoutKind,
        children: Vec<LayoutRef>,
    ) -> Result<LayoutRef, NoMemory>
        ensures { IfOk result (λ r. r.value ≡ node dtype row_count kind (nodes (layouts_of children.items))) }
    {
        let made = LayoutNode {
            dtype,
            row_count,
            kind,
            children: Nodes::new(children),
        };
        match Rc::new(alloc, made) {
            Ok(made) => Ok(made),
            Err(_) => Err(NoMemory),
        }
    }

    /// A leaf of a scalar dtype in spelling 1, its segments in row order.
    ///
    /// # Errors
    /// The first of: `ChildDType` where the dtype is not scalar, and `RowSum` where the rows sum past u64. `NoMemory`.
    pub fn leaf(
        alloc: Global,
        dtype: DType,
        segments: Vec<(SegmentId, u64)>,
    ) -> Result<LayoutRef, LayoutFault>
        ensures made { IfOk result (λ r. r.value ≡
            node dtype (total_rows segments.items) (LayoutKind.Leaf segments.items Spelling.One) no_nodes) }
        ensures first { TellsOrNoMemory result (new_leaf_fault dtype segments.items) }
    {
        LayoutNode::leaf_with(alloc, dtype, segments, Spelling::One)
    }

    /// A leaf of a scalar dtype whose segments, in row order, are in a spelling.
    ///
    /// # Errors
    /// The first of: `ChildDType` where the dtype is not scalar, and `RowSum` where the rows sum past u64. `NoMemory`.
    #[tactic(auto, using(crate::proofs::Kids::sum_of, crate::proofs::Kids::sum_past))]
    pub fn leaf_with(
        alloc: Global,
        dtype: DType,
        segments: Vec<(SegmentId, u64)>,
        spelling: Spelling,
    ) -> Result<LayoutRef, LayoutFault>
        ensures made { IfOk result (λ r. r.value ≡
            node dtype (total_rows segments.items) (LayoutKind.Leaf segments.items spelling) no_nodes) }
        ensures first { TellsOrNoMemory result (new_leaf_fault dtype segments.items) }
    {
        if !dtype.is_scalar() {
            return Err(LayoutFault::ChildDType);
        }
        let Some(row_count) = total_rows(&segments) else {
            return Err(LayoutFault::RowSum);
        };
        let kind = LayoutKind::Leaf(LeafSegments::new(segments), spelling);
        match LayoutNode::from_parts(alloc, dtype, row_count, kind, Vec::new(alloc)) {
            Ok(made) => Ok(made),
            Err(_) => Err(LayoutFault::NoMemory),
        }
    }

    /// The dtype of its rows.
    pub fn dtype(&self) -> &DType
        ensures { result.now ≡ dtype_of self.now }
    {
        &self.dtype
    }

    /// The number of its rows.
    pub fn row_count(&self) -> u64
        ensures { result ≡ rows_of self.now }
    {
        self.row_count
    }
}
