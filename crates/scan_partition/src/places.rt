// Where each item's group stands.
ghost use Rattle.std.specs.Prelude.{◌≡◌, IfOk, Some, None, cond};
ghost use Rattle.scan_partition.specs.Items.{same_item};
ghost use Rattle.scan_partition.specs.Soles.{item_seen};
ghost use Rattle.scan_partition.specs.Places.{place_of};

use crate::cuts::ItemRef;
use scan_values::{FieldName, NoMemory};
use std::alloc::Global;
use std::collections::BTreeMap;

/// A number for each of some items.
#[derive(Drop)]
pub(crate) struct Places<'a> {
    fields: BTreeMap<&'a str, usize>,
    validity: Option<usize>,
}

impl<'a> Places<'a> {
    ghost use Rattle.std.specs.Prelude.{◌≡◌, IfOk, Some, None, cond, is_some};
    ghost use Rattle.scan_values.specs.DataType.{Name};
    ghost use Rattle.scan_partition.specs.declared.item.Item.{Item};
    ghost use Rattle.scan_partition.specs.declared.item.Item.TheVariants.{Field};
    ghost use Rattle.scan_partition.specs.Items.{same_item};
    ghost use Rattle.scan_partition.specs.Soles.{item_seen};
    ghost use Rattle.scan_partition.specs.Places.{place_of, first_place};

    /// None.
    pub(crate) fn new(alloc: Global) -> Places<'a>
        ensures { (i : Item) → place_of result i ≡ None }
    {
        Places {
            fields: BTreeMap::new(alloc),
            validity: None,
        }
    }

    /// The place of the first of each name.
    pub(crate) fn of_names(alloc: Global, names: &'a [FieldName]) -> Result<Places<'a>, NoMemory>
        ensures { IfOk result (λ p. (n : Name) → place_of p (Field n) ≡ first_place n names.entry.now) }
    {
        let mut places = Places::new(alloc);
        for k in 0..names.len() {
            let i = names.len() - 1 - k;
            places.set(ItemRef::Field(&names[i]), i)?;
        }
        Ok(places)
    }

    /// Whether a field of this name has a number.
    pub(crate) fn has(&self, name: &FieldName) -> bool
        ensures { result ≡ is_some (place_of self.now (Field name.now)) }
    {
        self.get(ItemRef::Field(name)).is_some()
    }

    /// The number of an item.
    pub(crate) fn get(&self, item: ItemRef) -> Option<usize>
        ensures { result ≡ place_of self.now (item_seen item.entry) }
    {
        match item {
            ItemRef::Field(name) => self.fields.get(name.as_str()).copied(),
            ItemRef::Validity => self.validity,
        }
    }

    /// Gives an item a number.
    pub(crate) fn set(&mut self, item: ItemRef<'a>, place: usize) -> Result<(), NoMemory>
        ensures { IfOk result (λ _. (i : Item) → place_of self.new i ≡ cond (same_item (item_seen item.entry) i) (Some place) (place_of self.old i)) }
    {
        match item {
            ItemRef::Field(name) => {
                self.fields.insert(name.as_str(), place)?;
            }
            ItemRef::Validity => self.validity = Some(place),
        }
        Ok(())
    }
}
