//! Laws of files that are read under another dtype. Each is the contract of a function that does nothing.
ghost use Rattle.scan_widened.specs.Laws.{FilesAreWidened};

/// A file that is not refused is well-formed under the dtype, and each row of it there, over what a source over the file's
/// own tells, is the file's row, widened.
#[tactic(auto, using(crate::proofs::Files::files_are_widened))]
pub fn files_are_widened()
    ensures { FilesAreWidened }
{}
