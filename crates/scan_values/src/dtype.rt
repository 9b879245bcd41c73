// Dtypes, after the crate's `vortex_array::dtype`.
ghost use Rattle.std.specs.Prelude.{◌≡◌, ◌+◌, ◌≤◌, ◌<◌, IfOk, IfErr, map, zip, IsTrue, ◌↔◌, length, option_map, Option, slice_get, position, bytes_eq};
ghost use Rattle.scan_values.specs.FieldLists.{names_of, dtypes_of, dtype_named};
ghost use Rattle.scan_values.specs.Kinds.{kind_of, is_scalar_type, ptype_of, element_of, struct_fields_of};
ghost use Rattle.scan_values.specs.Fits.{is_bool_type, is_utf8_type, fits_int};
ghost use Rattle.scan_values.specs.Same.{same_fields};
ghost use Rattle.scan_values.specs.DataType.{bool_type, int_type, utf8_type, list_type, struct_type, fields_of, nullability_of, is_nullable, with_nullability, depth_of, fields_depth};

use crate::field_names::FieldNames;
use crate::memory::NoMemory;
use crate::ptype::{Nullability, PType};
use crate::text::{FieldName, NameFault, names_fault};
use std::alloc::Global;
use std::hash::{Hash, Hasher};
use std::marker::Model;
use std::sync::Arc;
use thiserror::Error;

/// A dtype.
#[cycle(dtype)]
#[derive(Drop)]
pub struct DType {
    kind: Kind,
    nullability: Nullability,
    depth: u32,
}

#[cycle(dtype)]
#[derive(Drop)]
enum Kind {
    Bool,
    Primitive(PType),
    Utf8,
    List(Arc<DType>),
    Struct(StructFields),
}

/// The fields of a struct: names, with a dtype each. Copies share them.
#[cycle(dtype)]
#[derive(Drop)]
pub struct StructFields {
    held: Held,
}

/// Fields, which are their owner's alone where no memory was left to share them.
#[cycle(dtype)]
#[derive(Drop)]
enum Held {
    Shared(Arc<FieldList>),
    Alone(FieldList),
}

/// Names, with a dtype each.
#[cycle(dtype)]
#[derive(Drop)]
struct FieldList {
    names: FieldNames,
    dtypes: Vec<DType>,
}

impl Model for DType {
    ghost use Rattle.std.specs.Prelude.{◌≡◌, ◌≤◌};
    ghost use Rattle.scan_values.specs.DataType.{DataType, data_type_code, depth_of};
    ghost use Rattle.scan_values.specs.Weights.{weight_of};

    ghost Value = { DataType };

    ghost coded = { data_type_code };

    ghost use Rattle.scan_values.specs.Kinds.{data_type_of};

    ghost view = { λ a. data_type_of a.kind a.nullability };

    ghost invariant = { λ a. record { depth : a.depth ≡ depth_of (data_type_of a.kind a.nullability); shallow : a.depth ≤ 66 } };

    ghost size = { weight_of };

    ghost use Rattle.scan_values.specs.DTypeFalls.{kind_falls};

    ghost size_decreases = { λ a h. kind_falls a.kind a.nullability };
}

impl Model for StructFields {
    ghost use Rattle.std.specs.Prelude.{List, ℕ, suc};
    ghost use Rattle.std.specs.Coded.{coded_list, coded×, coded_ℕ};
    ghost use Rattle.scan_values.specs.DataType.{DataType, data_type_code, fields_of};
    ghost use Rattle.scan_values.specs.Weights.{fields_weight};

    ghost Value = { List (List ℕ × DataType) };

    ghost coded = { coded_list (coded× (coded_list coded_ℕ) data_type_code) };

    ghost use Rattle.scan_values.specs.Kinds.{fields_held};

    ghost view = { λ a. fields_held a.held };

    ghost size = { λ fs. suc (fields_weight (fields_of fs)) };

    ghost use Rattle.scan_values.specs.DTypeFalls.{held_falls};

    ghost size_decreases = { λ a h. held_falls a.held };
}

impl Model for FieldList {
    ghost use Rattle.std.specs.Prelude.{◌≡◌, List, ℕ, zip, length};
    ghost use Rattle.std.specs.Coded.{coded_list, coded×, coded_ℕ};
    ghost use Rattle.scan_values.specs.DataType.{DataType, data_type_code, fields_of};
    ghost use Rattle.scan_values.specs.Weights.{fields_weight};

    ghost Value = { List (List ℕ × DataType) };

    ghost coded = { coded_list (coded× (coded_list coded_ℕ) data_type_code) };

    ghost view = { λ a. zip a.names a.dtypes.items };

    ghost invariant = { λ a. length a.names ≡ length a.dtypes.items };

    ghost size = { λ fs. fields_weight (fields_of fs) };

    ghost use Rattle.scan_values.specs.FieldsFall.{fields_fall};

    ghost size_decreases = { λ a h. fields_fall a.names a.dtypes.items h };
}

impl StructFields {
    fn list(&self) -> &FieldList
        ensures { result.now ≡ self.now }
    {
        match &self.held {
            Held::Shared(list) => list,
            Held::Alone(list) => list,
        }
    }

    /// The names, in field order.
    pub fn names(&self) -> &[FieldName]
        ensures { result.now ≡ names_of self.now }
    {
        self.list().names().as_slice()
    }

    /// The name of the field at a place, where there is one.
    pub fn field_name(&self, i: usize) -> Option<&FieldName>
        ensures { option_map (λ n. n.now) result ≡ slice_get (names_of self.now) i }
    {
        self.names().get(i)
    }

    /// The place of the first field of this name.
    pub fn find(&self, name: &FieldName) -> Option<usize>
        ensures { result ≡ position (bytes_eq name.now) (names_of self.now) }
    {
        self.list().names().find(name)
    }

    /// The dtype of the first field of this name.
    pub fn field(&self, name: &FieldName) -> Option<&DType>
        ensures { option_map (λ d. d.now) result ≡ dtype_named name.now (fields_of self.now) }
    {
        match self.find(name) {
            Some(i) => self.field_by_index(i),
            None => None,
        }
    }

    /// The depth of the deepest field.
    fn depth(&self) -> u32
        ensures value { result ≡ fields_depth (fields_of self.now) }
        ensures bound { result ≤ 66 }
    {
        let mut depth = 0;
        for dtype in self.list().dtypes() {
            depth = depth.max(dtype.depth());
        }
        depth
    }

    /// The dtype of the field at a place, where there is one.
    pub fn field_by_index(&self, i: usize) -> Option<&DType>
        ensures { option_map (λ d. d.now) result ≡ slice_get (dtypes_of self.now) i }
    {
        self.list().dtypes().get(i)
    }

    /// A copy that equals this one, and shares its names and dtypes.
    #[cycle(clone)]
    pub fn try_clone(&self, alloc: Global) -> Result<StructFields, NoMemory>
        ensures { IfOk result (λ fs. fs ≡ self.now) }
    {
        match &self.held {
            Held::Shared(list) => Ok(StructFields {
                held: Held::Shared(Arc::try_clone(list)?),
            }),
            Held::Alone(list) => list.try_clone(alloc),
        }
    }

    /// Fields of these names and dtypes, pair by pair.
    pub fn new(names: Vec<FieldName>, dtypes: Vec<DType>) -> StructFields
        requires { length names.items ≡ length dtypes.items }
        ensures { result ≡ zip names.items dtypes.items }
    {
        let alloc = *names.allocator();
        let list = FieldList {
            names: FieldNames::new(names),
            dtypes,
        };
        let held = match Arc::new(alloc, list) {
            Ok(list) => Held::Shared(list),
            Err(failed) => Held::Alone(failed.value),
        };
        StructFields { held }
    }

    /// How many fields.
    pub fn nfields(&self) -> usize
        ensures { result ≡ length self.now }
    {
        self.list().dtypes().len()
    }
}

impl FieldList {
    fn names(&self) -> &FieldNames
        ensures { result.now ≡ names_of self.now }
    {
        &self.names
    }

    fn dtypes(&self) -> &[DType]
        ensures { result.now ≡ dtypes_of self.now }
    {
        self.dtypes.as_slice()
    }

    /// Fields that equal these.
    #[cycle(clone)]
    fn try_clone(&self, alloc: Global) -> Result<StructFields, NoMemory>
        ensures { IfOk result (λ fs. fs ≡ self.now) }
    {
        let from = self.names.as_slice();
        let mut names = Vec::with_capacity(alloc, from.len())?;
        for name in from {
            names.push(name.try_clone(alloc)?)?;
        }
        let mut dtypes = Vec::with_capacity(alloc, self.dtypes.len())?;
        for dtype in &self.dtypes {
            dtypes.push(dtype.try_clone(alloc)?)?;
        }
        Ok(StructFields::new(names, dtypes))
    }
}

impl DType {
    /// The dtype of truth values.
    pub fn bool(n: Nullability) -> DType
        ensures { result ≡ bool_type n }
    {
        DType {
            kind: Kind::Bool,
            nullability: n,
            depth: 1,
        }
    }

    /// The dtype of the integers of a type.
    pub fn primitive(p: PType, n: Nullability) -> DType
        ensures { result ≡ int_type p n }
    {
        DType {
            kind: Kind::Primitive(p),
            nullability: n,
            depth: 1,
        }
    }

    /// The dtype of texts.
    pub fn utf8(n: Nullability) -> DType
        ensures { result ≡ utf8_type n }
    {
        DType {
            kind: Kind::Utf8,
            nullability: n,
            depth: 1,
        }
    }

    /// The dtype of structs of these fields; one without fields has depth 1. `Deep` where the depth
    /// would pass 66.
    pub fn struct_(fields: StructFields, n: Nullability) -> Result<DType, DTypeFault>
        ensures ok { IfOk result (λ d. d ≡ struct_type (fields_of fields) n) }
        ensures deep { (result ≡ Err DTypeFault.Deep) ↔ (65 < fields_depth (fields_of fields)) }
        ensures no_other { IfErr result (λ f. f ≡ DTypeFault.Deep) }
    {
        let depth = fields.depth();
        if depth > 65 {
            return Err(DTypeFault::Deep);
        }
        Ok(DType {
            kind: Kind::Struct(fields),
            nullability: n,
            depth: depth + 1,
        })
    }

    /// The same dtype with another nullability.
    pub fn with_nullability(self, n: Nullability) -> DType
        ensures { result ≡ with_nullability n self }
    {
        let DType {
            kind,
            nullability: _,
            depth,
        } = self;
        DType {
            kind,
            nullability: n,
            depth,
        }
    }

    /// The dtype of lists of these elements. `Deep` where the depth would pass 66.
    pub fn list(alloc: Global, element: DType, n: Nullability) -> Result<DType, DTypeFault>
        ensures ok { IfOk result (λ d. d ≡ list_type element n) }
        ensures deep { (result ≡ Err DTypeFault.Deep) ↔ (65 < depth_of element) }
    {
        let depth = element.depth();
        if depth > 65 {
            return Err(DTypeFault::Deep);
        }
        let element = Arc::new(alloc, element).map_err(|_| DTypeFault::NoMemory)?;
        Ok(DType {
            kind: Kind::List(element),
            nullability: n,
            depth: depth + 1,
        })
    }

    /// A copy that equals this one.
    #[cycle(clone)]
    pub fn try_clone(&self, alloc: Global) -> Result<DType, NoMemory>
        ensures { IfOk result (λ d. d ≡ self.now) }
    {
        let kind = match &self.kind {
            Kind::Bool => Kind::Bool,
            Kind::Primitive(p) => Kind::Primitive(*p),
            Kind::Utf8 => Kind::Utf8,
            Kind::List(element) => Kind::List(Arc::try_clone(element)?),
            Kind::Struct(fields) => Kind::Struct(fields.try_clone(alloc)?),
        };
        Ok(DType {
            kind,
            nullability: self.nullability,
            depth: self.depth,
        })
    }

    /// Which dtype this is, without its parts.
    pub fn kind(&self) -> DTypeKind
        ensures { result ≡ kind_of self.now }
    {
        match &self.kind {
            Kind::Bool => DTypeKind::Bool,
            Kind::Primitive(p) => DTypeKind::Primitive(*p),
            Kind::Utf8 => DTypeKind::Utf8,
            Kind::List(_) => DTypeKind::List,
            Kind::Struct(_) => DTypeKind::Struct,
        }
    }

    /// How deep lists and structs nest; a scalar has depth 1.
    pub fn depth(&self) -> u32
        ensures value { result ≡ depth_of self.now }
        ensures bound { result ≤ 66 }
    {
        self.depth
    }

    /// Whether the dtype has the value null.
    pub fn nullability(&self) -> Nullability
        ensures { result ≡ nullability_of self.now }
    {
        self.nullability
    }

    /// Whether the dtype has the value null.
    pub fn is_nullable(&self) -> bool
        ensures { result ≡ is_nullable self.now }
    {
        self.nullability.is_nullable()
    }

    /// Whether the values are truth values.
    pub fn is_bool(&self) -> bool
        ensures { result ≡ is_bool_type self.now }
    {
        matches!(&self.kind, Kind::Bool)
    }

    /// Whether the values are texts.
    pub fn is_utf8(&self) -> bool
        ensures { result ≡ is_utf8_type self.now }
    {
        matches!(&self.kind, Kind::Utf8)
    }

    /// Whether this is neither a list nor a struct.
    pub fn is_scalar(&self) -> bool
        ensures { result ≡ is_scalar_type self.now }
    {
        !matches!(&self.kind, Kind::List(_) | Kind::Struct(_))
    }

    /// The integer type, of a dtype of integers.
    pub fn as_ptype_opt(&self) -> Option<PType>
        ensures { result ≡ ptype_of self.now }
    {
        match &self.kind {
            Kind::Primitive(p) => Some(*p),
            _ => None,
        }
    }

    /// Whether a number is a value of this dtype.
    pub fn holds(&self, number: i128) -> bool
        ensures { result ≡ fits_int self.now number }
    {
        match &self.kind {
            Kind::Primitive(p) => p.holds(number),
            _ => false,
        }
    }

    /// The dtype of the elements, of a dtype of lists.
    pub fn as_list_element_opt(&self) -> Option<&DType>
        ensures { option_map (λ d. d.now) result ≡ element_of self.now }
    {
        match &self.kind {
            Kind::List(element) => Some(element),
            _ => None,
        }
    }

    /// The fields, of a dtype of structs.
    pub fn as_struct_fields_opt(&self) -> Option<&StructFields>
        ensures { option_map (λ fs. fields_of fs.now) result ≡ struct_fields_of self.now }
    {
        match &self.kind {
            Kind::Struct(fields) => Some(fields),
            _ => None,
        }
    }
}

/// Why a dtype was not made.
#[derive(Clone, Copy, Debug, PartialEq, Eq, Error)]
pub enum DTypeFault {
    #[error("a dtype is deeper than 66")]
    Deep,
    #[error("out of memory")]
    NoMemory,
}

/// Which dtype one is, without its parts.
#[derive(Clone, Copy, Debug, PartialEq, Eq)]
pub enum DTypeKind {
    Bool,
    Primitive(PType),
    Utf8,
    List,
    Struct,
}

impl DType {
    ghost use Rattle.std.specs.Prelude.{◌≡◌, IfOk};
    ghost use Rattle.scan_values.specs.NameFaults.{dtype_fault};

    /// The first fault among the names, a struct before its fields.
    #[cycle(faults)]
    pub fn names_fault(&self, alloc: Global) -> Result<Option<NameFault>, NoMemory>
        ensures { IfOk result (λ f. f ≡ dtype_fault self.now) }
    {
        match &self.kind {
            Kind::List(element) => element.names_fault(alloc),
            Kind::Struct(fields) => fields.names_fault(alloc),
            _ => Ok(None),
        }
    }
}

impl StructFields {
    ghost use Rattle.std.specs.Prelude.{◌≡◌, [], IfOk};
    ghost use Rattle.scan_values.specs.DataType.{fields_of};
    ghost use Rattle.scan_values.specs.NameFaults.{or_else, names_fault, field_names, fields_fault};

    #[cycle(faults)]
    fn names_fault(&self, alloc: Global) -> Result<Option<NameFault>, NoMemory>
        ensures { IfOk result (λ f. f ≡ or_else (names_fault [] (field_names (fields_of self.now))) (fields_fault (fields_of self.now))) }
    {
        match &self.held {
            Held::Shared(list) => list.names_fault(alloc),
            Held::Alone(list) => list.names_fault(alloc),
        }
    }
}

impl FieldList {
    ghost use Rattle.std.specs.Prelude.{◌≡◌, [], IfOk};
    ghost use Rattle.scan_values.specs.DataType.{fields_of};
    ghost use Rattle.scan_values.specs.NameFaults.{or_else, names_fault, field_names, fields_fault};

    #[cycle(faults)]
    fn names_fault(&self, alloc: Global) -> Result<Option<NameFault>, NoMemory>
        ensures { IfOk result (λ f. f ≡ or_else (names_fault [] (field_names (fields_of self.now))) (fields_fault (fields_of self.now))) }
    {
        if let Some(fault) = names_fault(alloc, self.names.as_slice())? {
            return Ok(Some(fault));
        }
        for dtype in &self.dtypes {
            if let Some(fault) = dtype.names_fault(alloc)? {
                return Ok(Some(fault));
            }
        }
        Ok(None)
    }
}

impl PartialEq for DType {
    ghost use Rattle.scan_values.specs.Same.{same_type, same_type-partial};

    ghost eq = { same_type };

    ghost laws = { same_type-partial };

    fn eq(&self, other: &DType) -> bool {
        self.same(other)
    }
}

impl Eq for DType {
    ghost use Rattle.scan_values.specs.Same.{same_type-equivalence};

    ghost laws = { same_type-equivalence };
}

impl Hash for DType {
    ghost use Rattle.scan_values.specs.Same.{type_fed, type_Alike};

    ghost hash_input = { type_fed };

    ghost respects_eq = { type_Alike.fed };

    fn hash<H: Hasher>(&self, state: &mut H) {
        self.number().hash(state);
        self.is_nullable().hash(state);
        self.depth().hash(state);
    }
}

impl DType {
    ghost use Rattle.std.specs.Prelude.{◌≡◌};
    ghost use Rattle.scan_values.specs.Same.{same_type, type_number};

    /// A number for each kind.
    fn number(&self) -> u8
        ensures { result ≡ type_number self.now }
    {
        match &self.kind {
            Kind::Bool => 0,
            Kind::Utf8 => 1,
            Kind::List(_) => 2,
            Kind::Struct(_) => 3,
            Kind::Primitive(p) => 4 + p.number(),
        }
    }

    #[cycle(same)]
    fn same(&self, other: &DType) -> bool
        ensures { result ≡ same_type self.now other.now }
    {
        let kinds = match (&self.kind, &other.kind) {
            (Kind::Bool, Kind::Bool) => true,
            (Kind::Utf8, Kind::Utf8) => true,
            (Kind::Primitive(p), Kind::Primitive(q)) => *p == *q,
            (Kind::List(a), Kind::List(b)) => a.same(b),
            (Kind::Struct(a), Kind::Struct(b)) => a.same(b),
            _ => false,
        };
        kinds && self.nullability == other.nullability
    }
}

impl StructFields {
    ghost use Rattle.std.specs.Prelude.{◌≡◌};
    ghost use Rattle.scan_values.specs.DataType.{fields_of};
    ghost use Rattle.scan_values.specs.Same.{same_fields};

    #[cycle(same)]
    fn same(&self, other: &StructFields) -> bool
        ensures { result ≡ same_fields (fields_of self.now) (fields_of other.now) }
    {
        match &self.held {
            Held::Shared(list) => list.same(other.list()),
            Held::Alone(list) => list.same(other.list()),
        }
    }
}

impl FieldList {
    ghost use Rattle.std.specs.Prelude.{◌≡◌};
    ghost use Rattle.scan_values.specs.DataType.{fields_of};
    ghost use Rattle.scan_values.specs.Same.{same_fields};

    #[cycle(same)]
    fn same(&self, other: &FieldList) -> bool
        ensures { result ≡ same_fields (fields_of self.now) (fields_of other.now) }
    {
        same_fields(
            self.names.as_slice(),
            &self.dtypes,
            other.names.as_slice(),
            &other.dtypes,
        )
    }
}

#[cycle(same)]
#[tactic(auto, using(crate::proofs::SameFields::fields_eq_at, crate::proofs::SameFields::unequal_lengths, crate::proofs::SameFields::fields_past))]
fn same_fields(
    names: &[FieldName],
    dtypes: &[DType],
    other_names: &[FieldName],
    other_dtypes: &[DType],
) -> bool
    requires one { length names.now ≡ length dtypes.now }
    requires other { length other_names.now ≡ length other_dtypes.now }
    ensures { result ≡ same_fields (fields_of (zip names.now dtypes.now)) (fields_of (zip other_names.now other_dtypes.now)) }
{
    if names.len() != other_names.len() {
        return false;
    }
    for i in 0..names.len() {
        let name = &names[i];
        let other_name = &other_names[i];
        let dtype = &dtypes[i];
        let other_dtype = &other_dtypes[i];
        if !name.same(other_name) || !dtype.same(other_dtype) {
            return false;
        }
    }
    true
}
