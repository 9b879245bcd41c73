//! Why there is no row at a place.
use scan_layout::LayoutFault;
use thiserror::Error;

/// Why there is no row at a place. `file` is the place of a file in the list, `place` an index in the list of places.
#[derive(Clone, Copy, Debug, PartialEq, Eq, Error)]
pub enum PlaceFault {
    #[error("out of memory")]
    NoMemory,
    #[error("there is no row at place {place}")]
    NoPlace { place: usize },
    #[error("the opener of file {file} failed")]
    Opener { file: usize },
    #[error("file {file} has another dtype")]
    DTypeMismatch { file: usize },
    #[error("the layout of file {file}: {fault}")]
    Layout { file: usize, fault: LayoutFault },
}
