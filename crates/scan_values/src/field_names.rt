// The names of a struct's fields, found by their bytes.
ghost use Rattle.std.specs.Prelude.{◌≡◌, List, ℕ, IfOk, position, bytes_eq};
ghost use Rattle.std.specs.BTreeMap.{get_by_text};

use crate::memory::NoMemory;
use crate::text::FieldName;
use std::alloc::Global;
use std::collections::BTreeMap;
use std::marker::Model;

/// The names of fields, in order. Where they are many, the place of each is kept in a map.
#[derive(Drop)]
pub(crate) struct FieldNames {
    names: Vec<FieldName>,
    firsts: Option<BTreeMap<String, usize>>,
}

impl Model for FieldNames {
    ghost use Rattle.std.specs.Prelude.{◌≡◌, List, ℕ, position, bytes_eq};
    ghost use Rattle.scan_values.specs.FirstPlaces.{place_found};

    ghost Value = { List (List ℕ) };

    ghost view = { λ a. a.names.items };

    ghost invariant = { λ a. (n : List ℕ) → place_found a.firsts a.names.items n ≡ position (bytes_eq n) a.names.items };
}

/// So many names are looked through, more are looked up.
const FEW: usize = 8;

impl FieldNames {
    /// The names of a vector, in order. Where no memory is left for a map, they are looked through.
    pub(crate) fn new(names: Vec<FieldName>) -> FieldNames
        ensures { result ≡ names.items }
    {
        if names.len() <= FEW {
            return FieldNames {
                names,
                firsts: None,
            };
        }
        let firsts = match first_places(*names.allocator(), names.as_slice()) {
            Ok(firsts) => Some(firsts),
            Err(_) => None,
        };
        FieldNames { names, firsts }
    }

    /// The names, in order.
    pub(crate) fn as_slice(&self) -> &[FieldName]
        ensures { result.now ≡ self.now }
    {
        self.names.as_slice()
    }

    /// The place of the first of these names.
    pub(crate) fn find(&self, name: &FieldName) -> Option<usize>
        ensures { result ≡ position (bytes_eq name.now) self.now }
    {
        match &self.firsts {
            Some(firsts) => firsts.get(name.as_str()).copied(),
            None => self.names.iter().position(|n| name.same(n)),
        }
    }
}

/// Where each name stands first.
fn first_places(alloc: Global, names: &[FieldName]) -> Result<BTreeMap<String, usize>, NoMemory>
    ensures { IfOk result (λ m. (n : List ℕ) → get_by_text m n ≡ position (bytes_eq n) names.now) }
{
    let mut firsts = BTreeMap::new(alloc);
    for k in 0..names.len() {
        let i = names.len() - 1 - k;
        let name = String::from_str(alloc, names[i].as_str())?;
        firsts.insert(name, i)?;
    }
    Ok(firsts)
}
