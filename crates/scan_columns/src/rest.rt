// Values that are moved out one after another.
ghost use Rattle.std.specs.Prelude.{◌≡◌, IfOk, map, take, drop, option_to_list};
ghost use Rattle.scan_values.specs.Values.{val_of};
ghost use Rattle.scan_columns.specs.Nested.{heads};

use scan_values::{NoMemory, Value};
use std::alloc::Global;
use std::marker::Model;
use std::vec::IntoIter;

/// The values that are still to come.
#[derive(Drop)]
pub struct Rest {
    values: IntoIter<Value>,
}

impl Model for Rest {
    ghost use Rattle.std.specs.Prelude.{List, map};
    ghost use Rattle.std.specs.Coded.{coded_list};
    ghost use Rattle.std.specs.Vec.Iter.{into_iter_items};
    ghost use Rattle.scan_values.specs.Val.{Val, val_code};
    ghost use Rattle.scan_values.specs.Values.{val_of};

    ghost Value = { List Val };

    ghost coded = { coded_list val_code };

    ghost view = { λ a. map val_of (into_iter_items a.values) };
}

impl Rest {
    /// All of the values.
    pub fn new(values: Vec<Value>) -> Rest
        ensures { result ≡ map val_of values.items }
    {
        Rest {
            values: values.into_iter(),
        }
    }

    /// The next value.
    pub fn next(&mut self) -> Option<Value>
        ensures item { map val_of (option_to_list result) ≡ take 1 self.old }
        ensures rest { self.new ≡ drop 1 self.old }
    {
        self.values.next()
    }

    /// The next `count` values, or all where there are fewer.
    pub fn next_values(&mut self, alloc: Global, count: usize) -> Result<Vec<Value>, NoMemory>
        ensures items { IfOk result (λ v. map val_of v.items ≡ take count self.old) }
        ensures rest { IfOk result (λ _. self.new ≡ drop count self.old) }
    {
        let mut made = Vec::with_capacity(alloc, count)?;
        for i in 0..count {
            if let Some(value) = self.next() {
                made.push(value)?;
            }
        }
        Ok(made)
    }
}

/// The next value of each.
pub(crate) fn next_row(alloc: Global, columns: &mut [Rest]) -> Result<Vec<Value>, NoMemory>
    ensures row { IfOk result (λ v. map val_of v.items ≡ heads columns.old) }
    ensures rest { IfOk result (λ _. columns.new ≡ map (drop 1) columns.old) }
{
    let mut row = Vec::with_capacity(alloc, columns.len())?;
    for column in columns.iter_mut() {
        if let Some(value) = column.next() {
            row.push(value)?;
        }
    }
    Ok(row)
}
