//! A writer of lines.
ghost use Rattle.std.specs.Prelude.{◌≡◌, ◌≤◌, IfOk, IfErr, Err, true, length, map, string_bytes};
ghost use Rattle.scan_manifest.specs.declared.manifest.Manifest.{Manifest};
ghost use Rattle.scan_manifest.specs.Manifest.{IsManifest};
ghost use Rattle.scan_run.specs.Run.{is_scan_words};
ghost use Rattle.scan_run.specs.Sure.{IsSure};
ghost use Rattle.uses.specs.Uses.{AreLinesOf};

use crate::never::never;
use scan_run::run::run;
use scan_run::{MemoryInput, MemoryOutput, NoGate};
use std::alloc::Global;
use std::hash::BuildHasher;
use std::thread::Threads;
use vortex_scan::NoMemory;

/// The words with which the program is called.
fn scan_words(alloc: Global) -> Result<Vec<String>, NoMemory>
    ensures { IfOk result (λ v. is_scan_words (map string_bytes v.items) ≡ true) }
{
    let mut words = Vec::new(alloc);
    words.push(String::from_str(alloc, "scan")?)?;
    Ok(words)
}

/// The lines that the program writes for the bytes of a manifest, or its status. Lines are those of an output that the
/// manifest admits; a status of 2 means that the bytes are no manifest. A manifest whose scan is valid, and none of whose
/// openers and sources has a call that fails, is refused for want of memory alone. The cache hashes the manifest's names by
/// `hasher`.
#[tactic(none)]
pub fn lines_of<R: Threads + Sync, S: BuildHasher + Copy + Drop>(
    rt: &R,
    alloc: Global,
    manifest: Vec<u8>,
    hasher: S,
) -> Result<Vec<u8>, u8>
    ensures lines { IfOk result (λ lines. AreLinesOf manifest.items lines.items) }
    ensures refused { result ≡ Err 2 → (m : Manifest) → ¬ IsManifest manifest.items m }
    ensures valid { length manifest.items ≤ 67_108_864 → (m : Manifest) → IsManifest manifest.items m → IsSure m →
        IfErr result (λ status. status ≡ 7) }
{
    let Ok(words) = scan_words(alloc) else {
        return Err(7);
    };
    let mut input = MemoryInput::new(alloc, manifest, never(alloc));
    let mut output = MemoryOutput::new(alloc, never(alloc));
    let status = run(
        rt,
        alloc,
        words.as_slice(),
        &mut input,
        &mut output,
        &NoGate::new(),
        hasher,
    );
    if status == 0 {
        return Ok(output.bytes);
    }
    Err(status)
}
