//! Readers of layouts. After the Rust's readers of each kind of layout.
ghost use Rattle.std.specs.Prelude.{◌≡◌, [], IfOk, None, true, false};
ghost use Rattle.scan_expr.specs.Expr.{uses_row_index};
ghost use Rattle.scan_layout.specs.Form.{HasForm};
ghost use Rattle.scan_layout.specs.Layout.{dtype_of};
ghost use Rattle.scan_partition.specs.Partable.{IsPartable};
ghost use Rattle.scan_readers.specs.Kept.{find_plan, Makes};
ghost use Rattle.scan_readers.specs.LeafPlans.{layout_state};
ghost use Rattle.scan_readers.specs.Made.{is_made, none_made};
ghost use Rattle.scan_readers.specs.PlanOf.{IsPlanOf};
ghost use Rattle.scan_readers.specs.Reached.{reached, MakesWithin, MakesAll};
ghost use Rattle.scan_readers.specs.ReaderData.{reader_data};

use crate::kept::KeptPlans;
use crate::kind::ReaderKind;
use crate::reader::LayoutReader;
use scan_expr::BoundExpression;
use scan_layout::{LayoutReaderContext, LayoutRef};
use scan_plans::Plan;
use scan_splits::{RowSplits, SplitFault, SplitRange};
use scan_values::{DType, FieldMask, NoMemory, Text};
use std::alloc::Global;
use std::marker::Model;
use std::sync::Arc;

/// A reader of a layout. Its children are made at first use. Contracts see its name, the layout, what of the
/// layout's children is made, what its readers share, and the plans that it keeps.
#[derive(Drop)]
pub struct Reader<V> {
    name: Text,
    kind: ReaderKind,
    shared: LayoutReaderContext<V>,
    kept: KeptPlans,
}

impl<V> Model for Reader<V> {
    ghost use Rattle.scan_readers.specs.ReaderData.{ReaderData, reader_code, reader_data, IsReader};

    ghost Value = { ReaderData V };

    ghost coded = { reader_code V.code };

    ghost use Rattle.scan_readers.specs.KindView.{layout_of, made_of};

    ghost view = { λ a. reader_data a.name (layout_of a.kind) (made_of a.kind) a.shared a.kept };

    ghost invariant = { λ a. IsReader a.name (layout_of a.kind) a.kept };
}

impl<V: Drop> Reader<V> {
    /// A reader of a layout of good form, of this name. None of its children is made.
    pub fn from_layout(
        alloc: Global,
        name: Text,
        node: &LayoutRef,
        ctx: &LayoutReaderContext<V>,
    ) -> Result<Reader<V>, NoMemory>
        requires form { HasForm node.now.value (dtype_of node.now.value) }
        ensures { IfOk result (λ r. r ≡ reader_data name node.now.value (none_made node.now.value) ctx.now []) }
    {
        let kind = ReaderKind::of_layout(alloc, node)?;
        let shared = ctx.try_clone(alloc)?;
        Ok(Reader {
            name,
            kind,
            shared,
            kept: KeptPlans::new(alloc),
        })
    }

    /// The plan of an expression of which none is kept, which is kept from then on.
    fn make(&mut self, alloc: Global, expr: &BoundExpression) -> Result<Arc<Plan>, NoMemory>
        requires scope { expr.now.scope ≡ dtype_of self.old.layout }
        requires bound { IsPartable expr.now }
        requires rows { uses_row_index expr.now.expr ≡ false }
        requires none { find_plan self.old.kept expr.now ≡ None }
        ensures made { Makes self.old.kept self.new.kept expr.now result }
        ensures plan { IfOk result (λ p. IsPlanOf (layout_state self.old.name self.old.layout) expr.now p.value) }
        ensures name { self.new.name ≡ self.old.name }
        ensures layout { self.new.layout ≡ self.old.layout }
        ensures within { MakesWithin (reached self.old.layout expr.now) self.old.made self.new.made }
        ensures all { IfOk result (λ _. MakesAll (reached self.old.layout expr.now) self.old.made self.new.made) }
    {
        let node = self.kind.node(alloc, expr)?;
        let plan = Arc::new(alloc, Plan::new(expr.try_clone(alloc)?, node))?;
        self.kept.keep(plan)
    }

    /// Whether the child at a path of child indices is made. The reader itself is.
    pub fn is_made(&self, path: &[usize]) -> bool
        ensures { result ≡ is_made self.now.made path.now }
    {
        self.kind.is_made(path)
    }

    /// What its readers share.
    pub fn context(&self) -> &LayoutReaderContext<V>
        ensures { result.now ≡ self.now.shared }
    {
        &self.shared
    }
}

impl<V: Drop> LayoutReader for Reader<V> {
    ghost use Rattle.std.specs.Prelude.{◌↔◌, ◌<◌, Err, Some, IfSome};
    ghost use Rattle.scan_layout.specs.Layout.{rows_of};
    ghost use Rattle.scan_splits.specs.LayoutSplits.{misses};
    ghost use Rattle.scan_splits.specs.RowLists.{shifted, Pushes};
    ghost use Rattle.scan_splits.specs.SplitFaults.{Tells};
    ghost use Rattle.scan_readers.specs.FieldNames.{name_fields};
    ghost use Rattle.scan_readers.specs.Kept.{Stay};
    ghost use Rattle.scan_readers.specs.Readers.{lacks_numbers, split_fault};
    ghost use Rattle.scan_readers.specs.Kept.{find_plan};
    ghost use Rattle.scan_readers.specs.LeafPlans.{layout_state};

    ghost state = { λ r. layout_state r.name r.layout };

    ghost kept = { λ r. find_plan r.kept };

    fn name(&self) -> &Text {
        &self.name
    }

    fn dtype(&self) -> &DType {
        self.kind.dtype()
    }

    fn row_count(&self) -> u64 {
        self.kind.row_count()
    }

    /// No child is made.
    #[tactic(auto, using(crate::proofs::Keeping::stays_same))]
    fn register_splits(
        &mut self,
        alloc: Global,
        masks: &[FieldMask],
        range: &SplitRange,
        splits: &mut RowSplits,
    ) -> Result<(), SplitFault>
        ensures same { layout_state self.new.name self.new.layout ≡ layout_state self.old.name self.old.layout }
        ensures stay { Stay (find_plan self.old.kept) (find_plan self.new.kept) }
        ensures bounds { (result ≡ Err SplitFault.Bounds) ↔ (rows_of self.old.layout < range.now.end) }
        ensures first { Tells result
            (split_fault (layout_state self.old.name self.old.layout) masks.now range.now.end) }
        ensures named { name_fields (dtype_of self.old.layout) masks.now ≡ true →
            misses self.old.layout masks.now ≡ false }
        ensures pushed { Pushes result (shifted range.now.offset
            ((layout_state self.old.name self.old.layout).edges masks.now range.now.start range.now.end))
            splits.old splits.new }
        ensures made { self.new.made ≡ self.old.made }
    {
        self.kind.register_splits(alloc, masks, range, splits)
    }

    /// The children that the expression reaches are made, and no other; none is where the plan is kept.
    #[tactic(auto, using(crate::proofs::Keeping::stays_same))]
    fn plan(&mut self, alloc: Global, expr: &BoundExpression) -> Result<Arc<Plan>, NoMemory>
        requires scope { expr.now.scope ≡ dtype_of self.old.layout }
        requires bound { IsPartable expr.now }
        requires numbers { lacks_numbers (layout_state self.old.name self.old.layout) expr.now.expr ≡ false }
        ensures same { layout_state self.new.name self.new.layout ≡ layout_state self.old.name self.old.layout }
        ensures stay { Stay (find_plan self.old.kept) (find_plan self.new.kept) }
        ensures kept { IfOk result (λ p. find_plan self.new.kept expr.now ≡ Some p.value) }
        ensures plan { IfOk result (λ p. IsPlanOf (layout_state self.old.name self.old.layout) expr.now p.value) }
        ensures within { MakesWithin (reached self.old.layout expr.now) self.old.made self.new.made }
        ensures again { IfSome (find_plan self.old.kept expr.now) (λ _. self.new.made ≡ self.old.made) }
        ensures all { find_plan self.old.kept expr.now ≡ None →
            IfOk result (λ _. MakesAll (reached self.old.layout expr.now) self.old.made self.new.made) }
    {
        match self.kept.find(expr) {
            Some(plan) => Ok(plan.clone()?),
            None => self.make(alloc, expr),
        }
    }
}
