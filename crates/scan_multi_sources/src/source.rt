//! Sources of the rows of many files. After the Rust's `scan::multi`.
ghost use Rattle.std.specs.Prelude.{◌≡◌, ◌∷◌, IfOk, length, map, suc};
ghost use Rattle.std.specs.List.{slice_get};
ghost use Rattle.scan_layout.specs.Layout.{dtype_of};
ghost use Rattle.scan_multi_sources.specs.ChildView.{child_data};
ghost use Rattle.scan_multi_sources.specs.Children.{bytes_in, child_bytes, child_rows, deferred_children, first_size, later_sizes, opened};
ghost use Rattle.scan_multi_sources.specs.Known.{estimate_of};
ghost use Rattle.scan_multi_sources.specs.Sources.{AsksSource, RefusesSizes, fits_sizes, multi_data};

use crate::child::{MultiLayoutChild, bytes_at, poll_child, with_deferred};
use crate::known::{estimate, known_bytes, known_rows};
use scan_layout::LayoutRef;
use scan_opener::{LayoutReaderFactory, Opening};
use scan_sources::{Precision, SourceFault};
use scan_values::{DType, NoMemory, Nullability};
use std::alloc::Global;
use std::marker::Model;

/// How many files are opened at once, unless another number is set.
const DEFAULT_CONCURRENCY: usize = 8;

/// A source of the rows of many files of one dtype. Contracts see the dtype, the files, and how many are opened at once.
#[derive(Drop)]
pub struct MultiLayoutDataSource<O> {
    pub(crate) dtype: DType,
    pub(crate) children: Vec<MultiLayoutChild<O>>,
    pub(crate) concurrency: usize,
}

impl<O> Model for MultiLayoutDataSource<O> {
    ghost use Rattle.scan_multi_sources.specs.Sources.{MultiData, multi_code, multi_data};

    ghost Value = { MultiData O };

    ghost coded = { multi_code O.code };

    ghost use Rattle.std.specs.Prelude.{map};
    ghost use Rattle.scan_multi_sources.specs.ChildView.{child_data};

    ghost view = { λ a. multi_data a.dtype (map child_data a.children.items) a.concurrency };
}

impl<O: Drop> MultiLayoutDataSource<O> {
    /// An opened file, and others of its dtype that are opened when they are scanned. There are no byte sizes, or one for
    /// each file in order.
    ///
    /// # Errors
    /// `ByteSizes` exactly where the sizes are neither none nor one for each file. Else `NoMemory` alone.
    pub fn new_with_first(
        alloc: Global,
        first: LayoutRef,
        remaining: Vec<O>,
        byte_sizes: Vec<Option<u64>>,
    ) -> Result<Self, SourceFault>
        ensures made { IfOk result (λ s. s ≡ multi_data (dtype_of first.value)
            (opened first.value (first_size byte_sizes.items)
            ∷ deferred_children remaining.items (later_sizes byte_sizes.items)) 8) }
        ensures fault { RefusesSizes (fits_sizes byte_sizes.items (suc (length remaining.items))) result }
    {
        if !byte_sizes.is_empty() && byte_sizes.len() - 1 != remaining.len() {
            return Err(SourceFault::ByteSizes);
        }
        Ok(with_first(alloc, first, remaining, byte_sizes)?)
    }

    /// Files of this dtype that are opened when they are scanned. There are no byte sizes, or one for each in order.
    ///
    /// # Errors
    /// `ByteSizes` exactly where the sizes are neither none nor one for each file. Else `NoMemory` alone.
    pub fn new_deferred(
        alloc: Global,
        dtype: DType,
        factories: Vec<O>,
        byte_sizes: Vec<Option<u64>>,
    ) -> Result<Self, SourceFault>
        ensures made { IfOk result (λ s. s ≡ multi_data dtype
            (deferred_children factories.items byte_sizes.items) 8) }
        ensures fault { RefusesSizes (fits_sizes byte_sizes.items (length factories.items)) result }
    {
        if !byte_sizes.is_empty() && byte_sizes.len() != factories.len() {
            return Err(SourceFault::ByteSizes);
        }
        let children = with_deferred(Vec::new(alloc), factories, byte_sizes.into_iter())?;
        Ok(MultiLayoutDataSource::of(dtype, children))
    }

    /// A source of these files.
    fn of(dtype: DType, children: Vec<MultiLayoutChild<O>>) -> Self
        ensures { result ≡ multi_data dtype (map child_data children.items) 8 }
    {
        MultiLayoutDataSource {
            dtype,
            children,
            concurrency: DEFAULT_CONCURRENCY,
        }
    }

    /// Its files, in the order in which they were given.
    pub fn children(&self) -> &[MultiLayoutChild<O>]
        ensures { map child_data result.now ≡ self.now.children }
    {
        self.children.as_slice()
    }

    /// With at most so many files being opened at once.
    pub fn with_concurrency(self, concurrency: usize) -> Self
        ensures { result ≡ record self { concurrency = concurrency } }
    {
        let mut source = self;
        source.concurrency = concurrency;
        source
    }

    /// The dtype of the rows, before any projection.
    pub fn dtype(&self) -> &DType
        ensures { result.now ≡ self.now.dtype }
    {
        &self.dtype
    }

    /// What is known of the number of rows: exactly the sum where all files are opened, nothing where none is, else the
    /// mean of the opened ones times the number of files. Sum and product end at the greatest u64.
    pub fn row_count(&self) -> Precision<u64>
        ensures { result ≡ estimate_of (map child_rows self.now.children) }
    {
        estimate(known_rows(&self.children), self.children.len())
    }

    /// What is known of the number of bytes, likewise: by the files whose number of bytes is known.
    pub fn byte_size(&self) -> Precision<u64>
        ensures { result ≡ estimate_of (map child_bytes self.now.children) }
    {
        estimate(known_bytes(&self.children), self.children.len())
    }
}

impl<O: Drop> MultiLayoutDataSource<O> {
    /// All that it has. Nothing is left in it.
    pub(crate) fn take(&mut self, alloc: Global) -> Self
        ensures { result ≡ self.old }
    {
        let nothing = MultiLayoutDataSource {
            dtype: DType::bool(Nullability::NonNullable),
            children: Vec::new(alloc),
            concurrency: 0,
        };
        std::mem::replace(self, nothing)
    }
}

impl<O> MultiLayoutDataSource<O> {
    /// How many files are opened at once.
    pub(crate) fn concurrency(&self) -> usize
        ensures { result ≡ self.now.concurrency }
    {
        self.concurrency
    }

    /// The number of bytes of the file at a place, where that is known.
    pub(crate) fn bytes_at(&self, place: usize) -> Option<u64>
        ensures { result ≡ bytes_in (slice_get self.now.children place) }
    {
        bytes_at(&self.children, place)
    }
}

impl<O: LayoutReaderFactory> MultiLayoutDataSource<O> {
    /// One poll of what opens the file at a place.
    pub(crate) fn poll_file(&mut self, alloc: Global, place: usize) -> Opening
        ensures { AsksSource O.opener self.old self.new place result }
    {
        poll_child(alloc, &mut self.children, place)
    }
}

/// An opened file, and others that are opened when they are scanned.
fn with_first<O: Drop>(
    alloc: Global,
    first: LayoutRef,
    remaining: Vec<O>,
    byte_sizes: Vec<Option<u64>>,
) -> Result<MultiLayoutDataSource<O>, NoMemory>
    ensures { IfOk result (λ s. s ≡ multi_data (dtype_of first.value)
        (opened first.value (first_size byte_sizes.items)
        ∷ deferred_children remaining.items (later_sizes byte_sizes.items)) 8) }
{
    let dtype = first.dtype().try_clone(alloc)?;
    let mut sizes = byte_sizes.into_iter();
    let byte_size = sizes.next().flatten();
    let mut children = Vec::new(alloc);
    children.push(MultiLayoutChild::Opened {
        layout: first,
        byte_size,
    })?;
    let children = with_deferred(children, remaining, sizes)?;
    Ok(MultiLayoutDataSource::of(dtype, children))
}
