//! Names of fields, found by their bytes.
ghost use Rattle.std.specs.Prelude.{◌≡◌, List, ℕ, IfOk};
ghost use Rattle.scan_values.specs.NameFaults.{has_name};
ghost use Rattle.scan_core.specs.NameSets.{is_seen};

use scan_values::{FieldName, Names, NoMemory};
use std::alloc::Global;
use std::collections::BTreeSet;

/// Some names, each found in the logarithm of their number.
#[derive(Drop)]
pub(crate) struct NameSet<'a> {
    names: &'a Names,
    seen: BTreeSet<&'a str>,
    ghost held: { (n : List ℕ) → is_seen seen n ≡ has_name n names.now },
}

impl<'a> NameSet<'a> {
    ghost use Rattle.std.specs.Prelude.{◌≡◌, IfOk};
    ghost use Rattle.scan_values.specs.NameFaults.{has_name};

    /// The set of these.
    pub(crate) fn of(alloc: Global, names: &'a Names) -> Result<NameSet<'a>, NoMemory>
        ensures { IfOk result (λ s. s.names.now ≡ names.entry.now) }
    {
        let mut seen = BTreeSet::new(alloc);
        for name in names.as_slice() {
            seen.insert(name.as_str())?;
        }
        Ok(NameSet { names, seen })
    }

    /// Whether a name is one of them.
    pub(crate) fn has(&self, name: &FieldName) -> bool
        ensures { result ≡ has_name name.now self.now.names.now }
    {
        self.seen.contains(name.as_str())
    }
}
