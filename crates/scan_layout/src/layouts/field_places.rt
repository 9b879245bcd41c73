// The places of a struct's fields, found by their names.
ghost use Rattle.std.specs.Prelude.{◌≡◌, List, ℕ, IfOk, position, bytes_eq};
ghost use Rattle.std.specs.HashMap.{get_by};
ghost use Rattle.scan_values.specs.FieldLists.{names_of};

use scan_values::{FieldName, NoMemory, StructFields};
use std::alloc::Global;
use std::collections::HashMap;

/// The place of each name of a struct's fields.
#[derive(Drop)]
pub(super) struct FieldPlaces<'a> {
    fields: &'a StructFields,
    places: HashMap<&'a str, usize>,
    ghost placed: { (n : List ℕ) → get_by (λ k. bytes_eq n k.now) places ≡ position (bytes_eq n) (names_of fields.now) },
}

impl<'a> FieldPlaces<'a> {
    ghost use Rattle.std.specs.Prelude.{◌≡◌, IfOk, position, bytes_eq};
    ghost use Rattle.scan_values.specs.FieldLists.{names_of};

    /// Each name with the place of the first field that has it.
    pub(super) fn of(alloc: Global, fields: &'a StructFields) -> Result<FieldPlaces<'a>, NoMemory>
        ensures { IfOk result (λ x. x.fields.now ≡ fields.entry.now) }
    {
        let names = fields.names();
        let mut places = HashMap::new(alloc);
        for k in 0..names.len() {
            let i = names.len() - 1 - k;
            places.insert(names[i].as_str(), i)?;
        }
        Ok(FieldPlaces { fields, places })
    }

    /// The place of the first field of this name.
    pub(super) fn find(&self, name: &FieldName) -> Option<usize>
        ensures { result ≡ position (bytes_eq name.now) (names_of self.now.fields.now) }
    {
        self.places.get(name.as_str()).copied()
    }
}
