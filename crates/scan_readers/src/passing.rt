//! Readers that are lent, and readers of different kinds in one list. Each passes the calls on.
ghost use Rattle.std.specs.Prelude.{◌≡◌};

use crate::reader::LayoutReader;
use scan_expr::BoundExpression;
use scan_plans::Plan;
use scan_splits::{RowSplits, SplitFault, SplitRange};
use scan_values::{DType, FieldMask, NoMemory, Text};
use std::alloc::Global;
use std::sync::Arc;

impl<R: LayoutReader> LayoutReader for &mut R {
    ghost state = { λ r. R.state r.now };

    ghost kept = { λ r. R.kept r.now };

    fn name(&self) -> &Text {
        (**self).name()
    }

    fn dtype(&self) -> &DType {
        (**self).dtype()
    }

    fn row_count(&self) -> u64 {
        (**self).row_count()
    }

    fn register_splits(
        &mut self,
        alloc: Global,
        masks: &[FieldMask],
        range: &SplitRange,
        splits: &mut RowSplits,
    ) -> Result<(), SplitFault> {
        (**self).register_splits(alloc, masks, range, splits)
    }

    fn plan(&mut self, alloc: Global, expr: &BoundExpression) -> Result<Arc<Plan>, NoMemory> {
        (**self).plan(alloc, expr)
    }
}

/// A boxed reader.
#[derive(Drop)]
pub struct LayoutReaderRef(pub Box<dyn LayoutReader + Drop>);

impl LayoutReader for LayoutReaderRef {
    ghost state = { λ r. (LayoutReader-box r.0).state r.0.value };

    ghost kept = { λ r. (LayoutReader-box r.0).kept r.0.value };

    fn name(&self) -> &Text {
        self.0.name()
    }

    fn dtype(&self) -> &DType {
        self.0.dtype()
    }

    fn row_count(&self) -> u64 {
        self.0.row_count()
    }

    fn register_splits(
        &mut self,
        alloc: Global,
        masks: &[FieldMask],
        range: &SplitRange,
        splits: &mut RowSplits,
    ) -> Result<(), SplitFault> {
        self.0.register_splits(alloc, masks, range, splits)
    }

    fn plan(&mut self, alloc: Global, expr: &BoundExpression) -> Result<Arc<Plan>, NoMemory> {
        self.0.plan(alloc, expr)
    }
}
