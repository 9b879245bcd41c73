//! Values that are lent.
ghost use Rattle.std.specs.Prelude.{◌≡◌, IfOk};
ghost use Rattle.scan_values.specs.Val.{text_val};
ghost use Rattle.scan_values.specs.Values.{val_of};
ghost use Rattle.scan_groups.specs.Cells.{cell_val};
ghost use Rattle.scan_groups.specs.Rows.{is_null};

use scan_values::{NoMemory, Text, Value};
use std::alloc::Global;

/// A value that is lent: a text, a list or a struct without a copy.
#[derive(Clone, Copy)]
pub enum Cell<'a> {
    Null,
    Truth(bool),
    Number(i128),
    Text(&'a str),
    Held(&'a Value),
}

fn text_value(alloc: Global, text: &str) -> Result<Value, NoMemory>
    ensures { IfOk result (λ v. val_of v ≡ text_val text.now) }
{
    let text = String::from_str(alloc, text)?;
    Ok(Value::Text(Text::new(text)))
}

impl<'a> Cell<'a> {
    /// A value, lent.
    pub fn of(value: &'a Value) -> Cell<'a>
        ensures { cell_val result ≡ val_of value.entry.now }
    {
        match value {
            Value::Null => Cell::Null,
            Value::Bool(truth) => Cell::Truth(*truth),
            Value::Int(number) => Cell::Number(*number),
            Value::Text(text) => Cell::Text(text.as_str()),
            Value::List(_) => Cell::Held(value),
            Value::Struct(_) => Cell::Held(value),
        }
    }

    /// The value, copied.
    pub(crate) fn to_value(self, alloc: Global) -> Result<Value, NoMemory>
        ensures { IfOk result (λ v. val_of v ≡ cell_val self.entry) }
    {
        match self {
            Cell::Null => Ok(Value::Null),
            Cell::Truth(truth) => Ok(Value::Bool(truth)),
            Cell::Number(number) => Ok(Value::Int(number)),
            Cell::Text(text) => text_value(alloc, text),
            Cell::Held(value) => value.try_clone(alloc),
        }
    }

    pub(crate) fn is_null(self) -> bool
        ensures { result ≡ is_null (cell_val self.entry) }
    {
        match self {
            Cell::Null => true,
            Cell::Truth(_) => false,
            Cell::Number(_) => false,
            Cell::Text(_) => false,
            Cell::Held(value) => match value {
                Value::Null => true,
                _ => false,
            },
        }
    }
}
