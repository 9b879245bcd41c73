//! Whether files of one id have the same segments.
ghost use Rattle.std.specs.Prelude.{◌≡◌, IfOk};
ghost use Rattle.scan_manifest.specs.Manifest.{all_agree};

use crate::manifest::{FileSpec, Segments};
use scan_values::NoMemory;
use std::alloc::Global;
use std::collections::BTreeMap;

/// Whether files of one id have the same segments. Each is compared with the first of its id.
pub(crate) fn files_agree(alloc: Global, files: &[FileSpec]) -> Result<bool, NoMemory>
    ensures { IfOk result (λ agree. agree ≡ all_agree files.now) }
{
    let mut firsts: BTreeMap<&str, &Segments> = BTreeMap::new(alloc);
    for file in files {
        let id = file.id.as_str();
        match firsts.get(id) {
            Some(first) => {
                if !first.same(&file.segments) {
                    return Ok(false);
                }
            }
            None => {
                firsts.insert(id, &file.segments)?;
            }
        }
    }
    Ok(true)
}
