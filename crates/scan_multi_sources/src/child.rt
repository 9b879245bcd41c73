//! The files of a source of many. After the Rust's `scan::multi`.
ghost use Rattle.std.specs.Prelude.{◌≡◌, ◌++◌, IfOk, map};
ghost use Rattle.std.specs.List.{slice_get};
ghost use Rattle.std.specs.Vec.Iter.{into_iter_items};
ghost use Rattle.scan_multi_sources.specs.ChildView.{child_data};
ghost use Rattle.scan_multi_sources.specs.Children.{bytes_in, child_bytes, child_rows, deferred_children, is_opened};
ghost use Rattle.scan_multi_sources.specs.Opens.{Asks, AsksChild};

use scan_layout::LayoutRef;
use scan_opener::{LayoutReaderFactory, Opening};
use scan_values::NoMemory;
use std::alloc::Global;
use std::vec::IntoIter;

/// A file of a source: opened, or to be opened when it is scanned. Its number of bytes stands beside it, where that is
/// known.
#[derive(Drop)]
pub enum MultiLayoutChild<O> {
    /// A file that is opened.
    Opened {
        layout: LayoutRef,
        byte_size: Option<u64>,
    },
    /// What opens the file.
    Deferred {
        factory: O,
        byte_size: Option<u64>,
    },
}

impl<O> MultiLayoutChild<O> {
    /// The number of its bytes, where that is known.
    pub fn byte_size(&self) -> Option<u64>
        ensures { result ≡ child_bytes (child_data self.now) }
    {
        match self {
            MultiLayoutChild::Opened { byte_size, .. } => *byte_size,
            MultiLayoutChild::Deferred { byte_size, .. } => *byte_size,
        }
    }

    /// Whether it is opened, or where the other is asked for whether it is not.
    pub(crate) fn is_opened(&self, want: bool) -> bool
        ensures { result ≡ is_opened want (child_data self.now) }
    {
        match self {
            MultiLayoutChild::Opened { .. } => want,
            MultiLayoutChild::Deferred { .. } => !want,
        }
    }

    /// The number of its rows, which an opened file tells.
    pub(crate) fn row_count(&self) -> Option<u64>
        ensures { result ≡ child_rows (child_data self.now) }
    {
        match self {
            MultiLayoutChild::Opened { layout, .. } => Some(layout.row_count()),
            MultiLayoutChild::Deferred { .. } => None,
        }
    }
}

/// Files, and behind them those that are opened by these, with the next of the sizes for each.
pub(crate) fn with_deferred<O: Drop>(
    children: Vec<MultiLayoutChild<O>>,
    factories: Vec<O>,
    sizes: IntoIter<Option<u64>>,
) -> Result<Vec<MultiLayoutChild<O>>, NoMemory>
    ensures { IfOk result (λ v. map child_data v.items ≡
        map child_data children.items ++ deferred_children factories.items (into_iter_items sizes)) }
{
    let mut children = children;
    let mut sizes = sizes;
    for factory in factories {
        let byte_size = sizes.next().flatten();
        children.push(MultiLayoutChild::Deferred { factory, byte_size })?;
    }
    Ok(children)
}

impl<O: LayoutReaderFactory> MultiLayoutChild<O> {
    /// One poll of what opens the file. A file that is opened gives its layout.
    pub(crate) fn poll_open(&mut self, alloc: Global) -> Opening
        ensures { AsksChild O.opener (child_data self.old) (child_data self.new) result }
    {
        match self {
            MultiLayoutChild::Opened { layout, .. } => match layout.clone() {
                Ok(layout) => Opening::Opened(layout),
                Err(_) => Opening::NoMemory,
            },
            MultiLayoutChild::Deferred { factory, .. } => factory.poll_open(alloc),
        }
    }
}

/// One poll of what opens the file at a place, where there is one; else none is left.
pub(crate) fn poll_child<O: LayoutReaderFactory>(
    alloc: Global,
    children: &mut Vec<MultiLayoutChild<O>>,
    place: usize,
) -> Opening
    ensures { Asks O.opener (map child_data children.old.items) (map child_data children.new.items) place result }
{
    if children.len() <= place {
        return Opening::Skipped;
    }
    let child = &mut children[place];
    child.poll_open(alloc)
}

/// The number of bytes of the file at a place, where that is known.
pub(crate) fn bytes_at<O>(children: &[MultiLayoutChild<O>], place: usize) -> Option<u64>
    ensures { result ≡ bytes_in (slice_get (map child_data children.now) place) }
{
    match children.get(place) {
        Some(child) => child.byte_size(),
        None => None,
    }
}
