//! Columns from the segments of leaves.
ghost use Rattle.std.specs.Prelude.{◌≡◌, ◌<◌, ◌≤◌, ◌+◌, ◌++◌, ◌∷◌, [], IfOk, true, is_some, length, slice_range, take, drop};
ghost use Rattle.std.specs.List.{items_where_true};
ghost use Rattle.scan_values.specs.Arrays.{of_parts};
ghost use Rattle.scan_values.specs.Kinds.{ptype_of};
ghost use Rattle.scan_values.specs.Fits.{is_bool_type, is_utf8_type};
ghost use Rattle.scan_spelling.specs.LeafColumns.{int_or_null};
ghost use Rattle.scan_columns.specs.Cells.{vals_in};
ghost use Rattle.scan_columns.specs.Texts.{texts_in};

use crate::bools::Bools;
use crate::cells::Cells;
use crate::column::Column;
use crate::ints::Ints;
use crate::kept::Kept;
use crate::texts::Texts;
use crate::values::appended;
use scan_spelling::LeafColumn;
use scan_values::{DType, NoMemory, Values};
use std::alloc::Global;
use std::sync::Arc;

impl Column {
    /// No value of a dtype, kept as such values are: to be extended by the segments of a leaf.
    pub fn empty(alloc: Global, dtype: Arc<DType>) -> Column
        ensures { result ≡ of_parts dtype.value [] }
    {
        let cells = Cells::empty(alloc, &dtype);
        Column::of_fitting(dtype, cells)
    }

    /// Of so many rows of a leaf's segment as the mask has, from a first one on, the true ones. Numbers, truth values
    /// and texts are had as such, and no `Value` is made of them.
    pub fn from_leaf(
        alloc: Global,
        dtype: Arc<DType>,
        leaf: &LeafColumn,
        first: usize,
        mask: &[bool],
    ) -> Result<Column, NoMemory>
        requires dtype { leaf.now.dtype ≡ dtype.value }
        requires within { first + length mask.now ≤ length leaf.now.items }
        ensures { IfOk result (λ c. c ≡ of_parts dtype.value
            (items_where_true mask.now (slice_range leaf.now.items first (first + length mask.now)))) }
    {
        Column::empty(alloc, dtype).extend_from_leaf(alloc, leaf, first, mask)
    }

    /// The values, and then such rows of a leaf's segment. What stands already is not copied, so a leaf's segments are
    /// had one after another at a constant a row.
    pub fn extend_from_leaf(
        self,
        alloc: Global,
        leaf: &LeafColumn,
        first: usize,
        mask: &[bool],
    ) -> Result<Column, NoMemory>
        requires dtype { leaf.now.dtype ≡ self.dtype }
        requires within { first + length mask.now ≤ length leaf.now.items }
        ensures { IfOk result (λ c. c ≡ of_parts self.dtype
            (self.items ++ items_where_true mask.now (slice_range leaf.now.items first (first + length mask.now)))) }
    {
        let _fitted = leaf.fitted_dtype();
        let Column { dtype, cells } = self;
        let cells = cells.extend_from_leaf(alloc, leaf, first, mask)?;
        Ok(Column { dtype, cells })
    }
}

impl Cells {
    /// No value, kept as those of a dtype are.
    fn empty(alloc: Global, dtype: &DType) -> Cells
        ensures { vals_in result ≡ [] }
    {
        if dtype.as_ptype_opt().is_some() {
            Cells::Ints(Ints::new(Kept::Narrow(Vec::new(alloc)), Vec::new(alloc)))
        } else if dtype.is_bool() {
            Cells::Bools(Bools::new(Vec::new(alloc), Vec::new(alloc)))
        } else if dtype.is_utf8() {
            Cells::Texts(Texts::empty(alloc))
        } else {
            Cells::Values(Values::new(Vec::new(alloc)))
        }
    }

    /// These, and then rows of a leaf's segment.
    fn extend_from_leaf(
        self,
        alloc: Global,
        leaf: &LeafColumn,
        first: usize,
        mask: &[bool],
    ) -> Result<Cells, NoMemory>
        requires { first + length mask.now ≤ length leaf.now.items }
        ensures { IfOk result (λ c. vals_in c ≡ vals_in self
            ++ items_where_true mask.now (slice_range leaf.now.items first (first + length mask.now))) }
    {
        match self {
            Cells::Ints(ints) => ints_extended(alloc, ints, leaf, first, mask),
            Cells::Bools(bools) => bools_extended(alloc, bools, leaf, first, mask),
            Cells::Texts(texts) => texts_extended(alloc, texts, leaf, first, mask),
            cells => values_extended(alloc, cells, leaf, first, mask),
        }
    }
}

fn values_extended(
    alloc: Global,
    cells: Cells,
    leaf: &LeafColumn,
    first: usize,
    mask: &[bool],
) -> Result<Cells, NoMemory>
    requires { first + length mask.now ≤ length leaf.now.items }
    ensures { IfOk result (λ c. vals_in c ≡ vals_in cells
        ++ items_where_true mask.now (slice_range leaf.now.items first (first + length mask.now))) }
{
    let values = cells.into_values(alloc)?;
    let more = leaf.picked_from(alloc, first, mask)?;
    let made = appended(values, more)?;
    Ok(Cells::Values(Values::new(made)))
}

fn ints_extended(
    alloc: Global,
    ints: Ints,
    leaf: &LeafColumn,
    first: usize,
    mask: &[bool],
) -> Result<Cells, NoMemory>
    requires { first + length mask.now ≤ length leaf.now.items }
    ensures { IfOk result (λ c. vals_in c ≡ ints
        ++ items_where_true mask.now (slice_range leaf.now.items first (first + length mask.now))) }
{
    if leaf.dtype().as_ptype_opt().is_some() {
        Ok(Cells::Ints(more_ints(alloc, ints, leaf, first, mask)?))
    } else {
        values_extended(alloc, Cells::Ints(ints), leaf, first, mask)
    }
}

fn bools_extended(
    alloc: Global,
    bools: Bools,
    leaf: &LeafColumn,
    first: usize,
    mask: &[bool],
) -> Result<Cells, NoMemory>
    requires { first + length mask.now ≤ length leaf.now.items }
    ensures { IfOk result (λ c. vals_in c ≡ bools
        ++ items_where_true mask.now (slice_range leaf.now.items first (first + length mask.now))) }
{
    if leaf.dtype().is_bool() {
        Ok(Cells::Bools(more_bools(alloc, bools, leaf, first, mask)?))
    } else {
        values_extended(alloc, Cells::Bools(bools), leaf, first, mask)
    }
}

fn texts_extended(
    alloc: Global,
    texts: Texts,
    leaf: &LeafColumn,
    first: usize,
    mask: &[bool],
) -> Result<Cells, NoMemory>
    requires { first + length mask.now ≤ length leaf.now.items }
    ensures { IfOk result (λ c. vals_in c ≡ texts_in texts
        ++ items_where_true mask.now (slice_range leaf.now.items first (first + length mask.now))) }
{
    if leaf.dtype().is_utf8() {
        let run = leaf.texts(alloc, first, mask)?;
        Ok(Cells::Texts(texts.extend(run)?))
    } else {
        values_extended(alloc, Cells::Texts(texts), leaf, first, mask)
    }
}

/// The numbers of a run, or one after another, where one of the rows is past those of an i64.
fn more_ints(
    alloc: Global,
    ints: Ints,
    leaf: &LeafColumn,
    first: usize,
    mask: &[bool],
) -> Result<Ints, NoMemory>
    requires ints { is_some (ptype_of leaf.now.dtype) ≡ true }
    requires within { first + length mask.now ≤ length leaf.now.items }
    ensures { IfOk result (λ v. v ≡ ints
        ++ items_where_true mask.now (slice_range leaf.now.items first (first + length mask.now))) }
{
    match leaf.ints(alloc, first, mask)? {
        Some(run) => ints.extend(run),
        None => ints_by_row(ints, leaf, first, mask),
    }
}

fn ints_by_row(ints: Ints, leaf: &LeafColumn, first: usize, mask: &[bool]) -> Result<Ints, NoMemory>
    requires ints { is_some (ptype_of leaf.now.dtype) ≡ true }
    requires within { first + length mask.now ≤ length leaf.now.items }
    ensures { IfOk result (λ v. v ≡ ints
        ++ items_where_true mask.now (slice_range leaf.now.items first (first + length mask.now))) }
{
    let _rows = leaf.len();
    let mut made = ints;
    for i in 0..mask.len() {
        made = one_int(made, leaf, first + i, mask[i])?;
    }
    Ok(made)
}

#[tactic(auto, using(crate::proofs::LeafLemmas::one_taken))]
fn one_int(ints: Ints, leaf: &LeafColumn, row: usize, taken: bool) -> Result<Ints, NoMemory>
    requires ints { is_some (ptype_of leaf.now.dtype) ≡ true }
    requires within { row < length leaf.now.items }
    ensures { IfOk result (λ v. v ≡ ints ++ items_where_true (taken ∷ []) (take 1 (drop row leaf.now.items))) }
{
    if taken {
        ints.pushed(leaf.int_at(row))
    } else {
        Ok(ints)
    }
}

fn more_bools(
    alloc: Global,
    bools: Bools,
    leaf: &LeafColumn,
    first: usize,
    mask: &[bool],
) -> Result<Bools, NoMemory>
    requires bools { is_bool_type leaf.now.dtype ≡ true }
    requires within { first + length mask.now ≤ length leaf.now.items }
    ensures { IfOk result (λ v. v ≡ bools
        ++ items_where_true mask.now (slice_range leaf.now.items first (first + length mask.now))) }
{
    let run = leaf.bools(alloc, first, mask)?;
    bools.extend(run)
}
