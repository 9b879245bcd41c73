//! Texts that a segment can have.
ghost use Rattle.std.specs.Prelude.{◌≡◌, map};
ghost use Rattle.scan_values.specs.Val.{vals_of};
ghost use Rattle.scan_values.specs.Values.{val_of};
ghost use Rattle.scan_encode.specs.Rows.{texts_fit, all_texts_fit};

use scan_values::Value;

/// Whether no text in a value has more than 4294967295 bytes.
#[cycle(texts)]
fn texts_fit(value: &Value) -> bool
    ensures { result ≡ texts_fit (val_of value.now) }
{
    match value {
        Value::Text(text) => u32::try_from(text.as_str().len()).is_ok(),
        Value::List(values) => all_texts_fit(values.as_slice()),
        Value::Struct(values) => all_texts_fit(values.as_slice()),
        _ => true,
    }
}

/// Whether that is so of each of some values.
#[cycle(texts)]
pub(crate) fn all_texts_fit(values: &[Value]) -> bool
    ensures { result ≡ all_texts_fit (vals_of (map val_of values.now)) }
{
    for value in values {
        if !texts_fit(value) {
            return false;
        }
    }
    true
}
