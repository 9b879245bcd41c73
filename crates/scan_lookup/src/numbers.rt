//! Numbers of keys.
ghost use Rattle.std.specs.Prelude.{◌≡◌, OnOk};
ghost use Rattle.std.specs.FinMap as map;

use scan_values::NoMemory;
use std::alloc::Global;
use std::collections::BTreeMap;
use std::marker::Model;

/// A number for each of some keys. Contracts see it as a finite map.
#[derive(Drop)]
pub(crate) struct Numbers {
    by_key: BTreeMap<u64, usize>,
}

impl Model for Numbers {
    ghost use Rattle.std.specs.FinMap as map;
    ghost use Rattle.scan_lookup.specs.Keyed.{KeyNumbers, numbers_code};

    ghost Value = { KeyNumbers };

    ghost coded = { numbers_code };

    ghost view = { λ a. map.from_entries a.by_key.entries };
}

impl Numbers {
    pub(crate) fn new(alloc: Global) -> Self
        ensures { result ≡ map.empty }
    {
        Numbers {
            by_key: BTreeMap::new(alloc),
        }
    }

    /// The number of a key.
    pub(crate) fn number(&self, key: u64) -> Option<usize>
        ensures { result ≡ map.get self.now key }
    {
        match self.by_key.get(&key) {
            Some(number) => Some(*number),
            None => None,
        }
    }

    /// Gives a key this number.
    pub(crate) fn add(&mut self, key: u64, number: usize) -> Result<(), NoMemory>
        ensures { OnOk result (self.new ≡ map.insert self.old key number) }
    {
        self.by_key.insert(key, number)?;
        Ok(())
    }
}
