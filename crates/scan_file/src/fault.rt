//! Why a file of a scan is not read.
use scan_layout::LayoutFault;

/// Why a file is not read.
#[derive(Clone, Copy, Debug, PartialEq, Eq)]
pub enum FileFault {
    /// Its opener failed.
    Opener,
    /// Its layout has another dtype.
    DTypeMismatch,
    /// Its layout is not well-formed.
    Layout(LayoutFault),
    /// The range of the scan ends past its rows.
    RowRangePast,
}
