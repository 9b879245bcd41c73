//! What is wrong with a table before any file is touched.
ghost use Rattle.std.specs.Prelude.{◌≡◌, ◌≢◌, ◌<◌, ◌++◌, ◌^◌, IfErr, IfOk, List, None, Some, length, map, option_map, slice_get};
ghost use Rattle.scan_values.specs.DataType.{DataType};
ghost use Rattle.scan_values.specs.FieldLists.{dtypes_of};
ghost use Rattle.scan_values.specs.Kinds.{is_scalar_type};
ghost use Rattle.scan_expr.specs.Expr.{Expr};
ghost use Rattle.scan_expr.specs.Infer.{infer};
ghost use Rattle.scan_expr.specs.Typing.{filter_fault};
ghost use Rattle.scan_multi.specs.Request.{is_forward};
ghost use Rattle.scan_table.specs.Spec.{key_parts, measure_parts, projection_of, read_of, request_of};
ghost use Rattle.scan_table.specs.Request.{IsTableFault, first_plain_fault, first_table_fault, holds_of, key_fault, may_read, measure_fault, name_fault, of_bind, type_fault};
ghost use Rattle.scan_table.specs.declared.fault.TableFault.{TableFault};

use crate::fault::TableFault;
use crate::request::{names_of, request_of};
use crate::spec::{Measure, TableSpec};
use scan_expr::{BindFault, BoundExpression, Expression, ScanRequest};
use scan_multi::{RangeFault, ScanFault};
use scan_values::{DType, FieldName, NameFault, StructFields, names_fault};
use std::alloc::Global;
use std::ops::Range;

/// Whether the start is at most the end.
fn is_forward(range: &Option<Range<u64>>) -> bool
    ensures { result ≡ is_forward range.now }
{
    match range {
        None => true,
        Some(range) => range.start <= range.end,
    }
}

/// What needs no memory to see: the workers, then the range.
fn plain_fault(workers: usize, spec: &TableSpec) -> Option<TableFault>
    ensures { result ≡ first_plain_fault workers spec.now }
{
    if workers == 0 {
        return Some(TableFault::Scan(ScanFault::Concurrency));
    }
    if !is_forward(&spec.row_range) {
        return Some(TableFault::Scan(ScanFault::RowRange(RangeFault::Reversed)));
    }
    None
}

/// The first fault of the names, keys' before measures'.
fn check_names(alloc: Global, spec: &TableSpec) -> Result<(), TableFault>
    ensures ok { IfOk result (λ _. name_fault spec.now ≡ None) }
    ensures err { IfErr result (λ e. e ≢ TableFault.NoMemory → name_fault spec.now ≡ Some e) }
{
    let names = names_of(alloc, spec)?;
    match names_fault(alloc, names.as_slice())? {
        None => Ok(()),
        Some(NameFault::Repeated) => {
            Err(TableFault::Scan(ScanFault::Bind(BindFault::RepeatedName)))
        }
        Some(NameFault::Reserved) => {
            Err(TableFault::Scan(ScanFault::Bind(BindFault::ReservedName)))
        }
    }
}

/// Whether a filter binds and is Bool.
fn check_test(alloc: Global, dtype: &DType, test: &Expression) -> Result<(), TableFault>
    ensures ok { IfOk result (λ _. filter_fault dtype.now (Some test.now) ≡ None) }
    ensures err { IfErr result (λ e. e ≢ TableFault.NoMemory → of_bind (filter_fault dtype.now (Some test.now)) ≡ Some e) }
{
    let bound = test.bind(alloc, dtype)?;
    if !bound.dtype().is_bool() {
        return Err(TableFault::Scan(ScanFault::Bind(BindFault::NotBool)));
    }
    Ok(())
}

/// Whether the filter binds and is Bool, where there is one.
fn check_filter(alloc: Global, dtype: &DType, filter: &Option<Expression>) -> Result<(), TableFault>
    ensures ok { IfOk result (λ _. filter_fault dtype.now filter.now ≡ None) }
    ensures err { IfErr result (λ e. e ≢ TableFault.NoMemory → of_bind (filter_fault dtype.now filter.now) ≡ Some e) }
{
    match filter {
        Some(test) => check_test(alloc, dtype, test),
        None => Ok(()),
    }
}

/// Whether the dtype at a place is of truth values, integers or texts, where there is one.
fn is_scalar_at(types: &StructFields, place: usize) -> bool
    ensures { result ≡ holds_of is_scalar_type (slice_get (dtypes_of types.now) place) }
{
    match types.field_by_index(place) {
        Some(dtype) => dtype.is_scalar(),
        None => true,
    }
}

/// Whether a measure may be over values of the dtype at a place, where there is one.
fn may_read_at(measure: &Measure, types: &StructFields, place: usize) -> bool
    ensures { result ≡ holds_of (may_read measure.now) (slice_get (dtypes_of types.now) place) }
{
    match types.field_by_index(place) {
        Some(dtype) => measure.may_read(dtype),
        None => true,
    }
}

/// The first key that is no truth value, integer or text, by the dtypes of what is read.
fn first_bad_key(keys: &[(FieldName, Expression)], types: &StructFields) -> Option<usize>
    ensures { (d : DataType) (es : List Expr) → dtypes_of types.now ≡ map (infer d) (key_parts keys.now ++ es) →
        key_fault d 0 keys.now ≡ option_map (λ key. TableFault.KeyType key) result }
{
    for key in 0..keys.len() {
        if !is_scalar_at(types, key) {
            return Some(key);
        }
    }
    None
}

/// The first measure that is over other values than it may be, by the dtypes of what is read, so many keys before it.
fn first_bad_measure(
    keys: usize,
    measures: &[(FieldName, Measure)],
    types: &StructFields,
) -> Option<usize>
    requires { keys < 2 ^ 63 }
    ensures { (d : DataType) (ks : List Expr) → length ks ≡ keys →
        dtypes_of types.now ≡ map (infer d) (ks ++ measure_parts measures.now) →
        measure_fault d 0 measures.now ≡ option_map (λ measure. TableFault.MeasureType measure) result }
{
    let mut place = keys;
    for i in 0..measures.len() {
        let measure = &measures[i].1;
        if !may_read_at(measure, types, place) {
            return Some(i);
        }
        place = measure.behind(place);
    }
    None
}

/// The first key or measure that is over other values than it may be, by the dtypes of what is read.
fn check_parts(spec: &TableSpec, types: &StructFields) -> Result<(), TableFault>
    ensures ok { (d : DataType) → dtypes_of types.now ≡ map (infer d) (read_of spec.now) →
        IfOk result (λ _. type_fault d spec.now ≡ None) }
    ensures err { (d : DataType) → dtypes_of types.now ≡ map (infer d) (read_of spec.now) →
        IfErr result (λ e. type_fault d spec.now ≡ Some e) }
{
    if let Some(key) = first_bad_key(spec.keys.as_slice(), types) {
        return Err(TableFault::KeyType { key });
    }
    match first_bad_measure(spec.keys.len(), spec.measures.as_slice(), types) {
        Some(measure) => Err(TableFault::MeasureType { measure }),
        None => Ok(()),
    }
}

/// The first key or measure that is over other values than it may be.
fn check_types(spec: &TableSpec, projection: &BoundExpression) -> Result<(), TableFault>
    requires { projection.now.expr ≡ projection_of spec.now }
    ensures ok { IfOk result (λ _. type_fault projection.now.scope spec.now ≡ None) }
    ensures err { IfErr result (λ e. type_fault projection.now.scope spec.now ≡ Some e) }
{
    match projection.dtype().as_struct_fields_opt() {
        Some(types) => check_parts(spec, types),
        None => Ok(()),
    }
}

/// The request of a table's scan, or the first fault of the table.
pub(crate) fn check_table(
    alloc: Global,
    dtype: &DType,
    spec: &TableSpec,
    workers: usize,
) -> Result<ScanRequest, TableFault>
    ensures ok { IfOk result (λ request. (request ≡ request_of spec.now)
        × (first_table_fault workers dtype.now spec.now ≡ None)) }
    ensures err { IfErr result (IsTableFault workers dtype.now spec.now) }
{
    if let Some(fault) = plain_fault(workers, spec) {
        return Err(fault);
    }
    check_names(alloc, spec)?;
    let request = request_of(alloc, spec)?;
    let projection = request.projection.bind(alloc, dtype)?;
    check_filter(alloc, dtype, &request.filter)?;
    check_types(spec, &projection)?;
    Ok(request)
}
