//! Layouts of which no struct has the greatest number of rows.
ghost use Rattle.std.specs.Prelude.{◌≡◌};
ghost use Rattle.scan_layout.specs.Layout.{nodes};
ghost use Rattle.scan_layout.specs.LayoutView.{layouts_of};
ghost use Rattle.scan_widen.specs.Countable.{is_countable, are_countable};

use scan_layout::{LayoutKind, LayoutNode, LayoutRef};

/// Whether no struct of a layout has the greatest number of rows: lists that stand for rows of it have one offset more.
#[cycle(countable)]
pub fn is_countable(node: &LayoutNode) -> bool
    ensures { result ≡ is_countable node.now }
{
    let children = node.children.as_slice();
    match &node.kind {
        LayoutKind::Leaf(_, _) => true,
        LayoutKind::Struct => {
            if node.row_count == u64::MAX {
                return false;
            }
            are_countable(children)
        }
        LayoutKind::List(_) => are_countable(children),
    }
}

#[cycle(countable)]
#[tactic(auto, using(scan_layout::proofs::Sizes::child_below))]
fn are_countable(children: &[LayoutRef]) -> bool
    ensures { result ≡ are_countable (nodes (layouts_of children.now)) }
{
    for i in 0..children.len() {
        let child = &children[i];
        if !is_countable(child) {
            return false;
        }
    }
    true
}
