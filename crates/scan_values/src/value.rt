// Values, after the crate's `vortex_array::scalar`.
ghost use Rattle.std.specs.Prelude.{◌≡◌, ◌==◌, IfOk, map, length};
ghost use Rattle.scan_values.specs.Values.{val_of};
ghost use Rattle.scan_values.specs.Val.{vals_of, marked, marked_all};
ghost use Rattle.scan_values.specs.DataType.{fields_of};
ghost use Rattle.scan_values.specs.Fits.{fits, fits_all, fits_fields};
ghost use Rattle.scan_values.specs.SameVal.{same_val};
ghost use Rattle.scan_values.specs.Marked.{is_true};

use crate::dtype::{DType, StructFields};
use crate::memory::NoMemory;
use crate::text::Text;
use std::alloc::Global;
use std::hash::{Hash, Hasher};
use std::marker::Model;

/// A value.
#[cycle(value)]
#[derive(Drop)]
pub enum Value {
    Null,
    Bool(bool),
    Int(i128),
    Text(Text),
    List(Values),
    Struct(Values),
}

/// The values of a list or a struct.
#[cycle(value)]
#[derive(Drop)]
pub struct Values {
    items: Vec<Value>,
}

impl Model for Values {
    ghost use Rattle.std.specs.Prelude.{List, map};
    ghost use Rattle.std.specs.Coded.{coded_list};
    ghost use Rattle.scan_values.specs.Val.{Val, val_code, vals_of, vals_size};

    ghost Value = { List Val };

    ghost coded = { coded_list val_code };

    ghost use Rattle.scan_values.specs.Values.{val_of};

    ghost view = { λ a. map val_of a.items.items };

    ghost size = { λ vs. vals_size (vals_of vs) };

    ghost use Rattle.scan_values.specs.ValuesFall.{most-size};

    ghost size_decreases = { λ a h. most-size a.items.items };
}

impl Values {
    /// The values of a vector, in order, which takes no memory.
    pub fn new(items: Vec<Value>) -> Values
        ensures { result ≡ map val_of items.items }
    {
        Values { items }
    }

    /// How many values.
    pub fn len(&self) -> usize
        ensures { result ≡ length self.now }
    {
        self.items.len()
    }

    /// The values as a vector.
    pub fn into_vec(self) -> Vec<Value>
        ensures { map val_of result.items ≡ self }
    {
        self.items
    }

    /// The values, in order.
    pub fn as_slice(&self) -> &[Value]
        ensures { map val_of result.now ≡ self.now }
    {
        self.items.as_slice()
    }
}

impl Value {
    /// Whether a dtype has this value.
    #[cycle(fits)]
    pub fn fits(&self, dtype: &DType) -> bool
        ensures { result ≡ fits (marked (val_of self.now)) dtype.now }
    {
        match self {
            Value::Null => dtype.is_nullable(),
            Value::Bool(_) => dtype.is_bool(),
            Value::Int(number) => dtype.holds(*number),
            Value::Text(_) => dtype.is_utf8(),
            Value::List(values) => match dtype.as_list_element_opt() {
                Some(element) => {
                    let _count = values.len();
                    values.all_fit(element)
                }
                None => false,
            },
            Value::Struct(values) => match dtype.as_struct_fields_opt() {
                Some(fields) => values.fit_fields(fields),
                None => false,
            },
        }
    }

    /// Whether this is the truth value true.
    pub fn is_true(&self) -> bool
        ensures { result ≡ is_true (marked (val_of self.now)) }
    {
        match self {
            Value::Bool(b) => *b,
            _ => false,
        }
    }

    /// A copy that equals this one.
    #[cycle(clone)]
    pub fn try_clone(&self, alloc: Global) -> Result<Value, NoMemory>
        ensures { IfOk result (λ v. val_of v ≡ val_of self.now) }
    {
        match self {
            Value::Null => Ok(Value::Null),
            Value::Bool(b) => Ok(Value::Bool(*b)),
            Value::Int(number) => Ok(Value::Int(*number)),
            Value::Text(text) => Ok(Value::Text(text.try_clone(alloc)?)),
            Value::List(values) => Ok(Value::List(values.try_clone(alloc)?)),
            Value::Struct(values) => Ok(Value::Struct(values.try_clone(alloc)?)),
        }
    }
}

impl Values {
    /// Whether a dtype has each of these values.
    #[cycle(fits)]
    pub fn all_fit(&self, element: &DType) -> bool
        ensures { result ≡ fits_all (marked_all (vals_of self.now)) element.now }
    {
        for value in &self.items {
            if !value.fits(element) {
                return false;
            }
        }
        true
    }

    #[cycle(fits)]
    fn fit_fields(&self, fields: &StructFields) -> bool
        ensures { result ≡ fits_fields (marked_all (vals_of self.now)) (fields_of fields.now) }
    {
        if self.items.len() != fields.nfields() {
            return false;
        }
        for (i, value) in self.items.iter().enumerate() {
            let Some(dtype) = fields.field_by_index(i) else {
                return false;
            };
            if !value.fits(dtype) {
                return false;
            }
        }
        true
    }

    /// A copy that equals this one.
    #[cycle(clone)]
    pub fn try_clone(&self, alloc: Global) -> Result<Values, NoMemory>
        ensures { IfOk result (λ vs. vs ≡ self.now) }
    {
        let mut items = Vec::with_capacity(alloc, self.items.len())?;
        for value in &self.items {
            items.push(value.try_clone(alloc)?)?;
        }
        Ok(Values { items })
    }
}

impl PartialEq for Value {
    ghost use Rattle.scan_values.specs.Values.{val_of};
    ghost use Rattle.scan_values.specs.SameVal.{by_val, by_val-partial};

    ghost eq = { by_val val_of };

    ghost laws = { by_val-partial val_of };

    fn eq(&self, other: &Value) -> bool {
        same_value(self, other)
    }
}

impl Eq for Value {
    ghost use Rattle.scan_values.specs.Values.{val_of};
    ghost use Rattle.scan_values.specs.SameVal.{by_val-equivalence};

    ghost laws = { by_val-equivalence val_of };
}

impl Hash for Value {
    ghost use Rattle.scan_values.specs.Values.{val_of};
    ghost use Rattle.scan_values.specs.SameVal.{val_fed, val_Alike};

    ghost hash_input = { λ v. val_fed (val_of v) };

    ghost respects_eq = { (val_Alike val_of).fed };

    fn hash<H: Hasher>(&self, state: &mut H) {
        match self {
            Value::Null => 0u8.hash(state),
            Value::Bool(b) => {
                1u8.hash(state);
                b.hash(state);
            }
            Value::Int(number) => {
                2u8.hash(state);
                number.hash(state);
            }
            Value::Text(text) => {
                3u8.hash(state);
                text.as_str().hash(state);
            }
            Value::List(_) => 4u8.hash(state),
            Value::Struct(_) => 5u8.hash(state),
        }
    }
}

#[cycle(same)]
fn same_value(a: &Value, b: &Value) -> bool
    ensures { result ≡ same_val (val_of a.now) (val_of b.now) }
{
    match a {
        Value::Null => matches!(b, Value::Null),
        Value::Bool(x) => match b {
            Value::Bool(y) => *x == *y,
            _ => false,
        },
        Value::Int(x) => match b {
            Value::Int(y) => *x == *y,
            _ => false,
        },
        Value::Text(x) => match b {
            Value::Text(y) => x.as_str() == y.as_str(),
            _ => false,
        },
        Value::List(x) => match b {
            Value::List(y) => x.same(y),
            _ => false,
        },
        Value::Struct(x) => match b {
            Value::Struct(y) => x.same(y),
            _ => false,
        },
    }
}

impl Values {
    ghost use Rattle.std.specs.Prelude.{◌≡◌};
    ghost use Rattle.scan_values.specs.Val.{vals_of};
    ghost use Rattle.scan_values.specs.SameVal.{same_vals};

    #[cycle(same)]
    fn same(&self, other: &Values) -> bool
        ensures { result ≡ same_vals (vals_of self.now) (vals_of other.now) }
    {
        let others = other.as_slice();
        if self.items.len() != others.len() {
            return false;
        }
        for (i, value) in self.items.iter().enumerate() {
            if !same_value(value, &others[i]) {
                return false;
            }
        }
        true
    }
}
