//! The value of a slot of one width, under its flag.
ghost use Rattle.std.specs.Prelude.{◌≡◌, ◌<◌, length, is_some, Some, true};
ghost use Rattle.scan_values.specs.Values.{val_of};
ghost use Rattle.scan_spelling.specs.Spelling.{content, bool_of, under_flag};
ghost use Rattle.scan_spelling.specs.LeafColumns.{slot_width, has_width};
ghost use Rattle.scan_spelling.specs.SlotValues.{slot_val, slot_int, slot_bool};

use crate::read::int_of;
use scan_values::{DTypeKind, Value};

/// What a slot of one width holds. It is copied and never dropped.
#[derive(Clone, Copy)]
pub(crate) enum SlotValue {
    Null,
    Bool(bool),
    Int(i128),
}

impl SlotValue {
    /// The value of a slot under its flag.
    pub(crate) fn of_slot(kind: DTypeKind, flag: u8, slot: &[u8]) -> SlotValue
        requires width { has_width kind ≡ true }
        requires long { length slot.now ≡ slot_width kind }
        requires there { is_some (under_flag flag (content kind slot.now)) ≡ true }
        ensures { Some (slot_val result) ≡ under_flag flag (content kind slot.now) }
    {
        if flag == 0 {
            return SlotValue::Null;
        }
        match kind {
            DTypeKind::Primitive(ptype) => SlotValue::Int(int_of(ptype, slot)),
            _ => SlotValue::Bool(slot[0] == 1),
        }
    }

    /// A Bool under its flag, of which each is a bit.
    pub(crate) fn of_bits(flag: u8, bit: u8) -> SlotValue
        requires flag { flag < 2 }
        requires bit { bit < 2 }
        ensures { Some (slot_val result) ≡ under_flag flag (bool_of bit) }
    {
        if flag == 0 {
            return SlotValue::Null;
        }
        SlotValue::Bool(bit == 1)
    }

    /// The same as a value.
    pub(crate) fn to_value(self) -> Value
        ensures { val_of result ≡ slot_val self }
    {
        match self {
            SlotValue::Null => Value::Null,
            SlotValue::Bool(truth) => Value::Bool(truth),
            SlotValue::Int(number) => Value::Int(number),
        }
    }

    /// The number, if it is one.
    pub(crate) fn to_int(self) -> Option<i128>
        ensures { result ≡ slot_int self }
    {
        match self {
            SlotValue::Int(number) => Some(number),
            _ => None,
        }
    }

    /// The truth value, if it is one.
    pub(crate) fn to_bool(self) -> Option<bool>
        ensures { result ≡ slot_bool self }
    {
        match self {
            SlotValue::Bool(truth) => Some(truth),
            _ => None,
        }
    }
}
