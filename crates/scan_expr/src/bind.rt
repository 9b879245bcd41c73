// Binding one node, whose parts are bound.
ghost use Rattle.std.specs.Prelude.{◌≡◌, ◌≢◌, Err, None, IfOk, length, All};
ghost use Rattle.scan_values.specs.Values.{val_of};
ghost use Rattle.scan_values.specs.DataType.{DataType, struct_type, fields_of};
ghost use Rattle.scan_expr.specs.Expr.{root, row_index, literal, unary, binary, pack, parts_of};
ghost use Rattle.scan_expr.specs.Infer.{infer, infer_all};
ghost use Rattle.scan_expr.specs.Typing.{typed, or_fault, depth_fault, literal_fault, unary_fault, binary_fault, pack_fault, nodes_fault, typing_fault};
ghost use Rattle.scan_expr.specs.Bound.{bound_of, bound_unless, exprs_of};

use crate::bound::{BoundExpression, Op};
use crate::op::{Binary, BindFault, Unary};
use crate::typing::{binary_typed, fault_of, is_literal, places_typed, shallow, unary_type};
use scan_values::{DType, Names, NoMemory, Nullability, StructFields, Value, names_fault};
use std::alloc::Global;
use std::sync::Arc;

pub(crate) fn bind_root(alloc: Global, scope: &Arc<DType>) -> Result<BoundExpression, BindFault>
    ensures { result ≢ Err BindFault.NoMemory → result ≡ bound_unless (nodes_fault scope.now.value root) scope.now.value root }
{
    if scope.depth() > 64 {
        return Err(BindFault::Deep);
    }
    Ok(BoundExpression::root(alloc, scope)?)
}

pub(crate) fn bind_literal(
    alloc: Global,
    scope: &Arc<DType>,
    dtype: &DType,
    value: &Value,
) -> Result<BoundExpression, BindFault>
    ensures { let e = literal dtype.now (val_of value.now) in
        result ≢ Err BindFault.NoMemory → result ≡ bound_unless (nodes_fault scope.now.value e) scope.now.value e }
{
    if !is_literal(dtype, value) {
        return Err(BindFault::Literal);
    }
    let dtype = dtype.try_clone(alloc)?;
    let value = value.try_clone(alloc)?;
    Ok(BoundExpression::literal(alloc, scope, dtype, value)?)
}

pub(crate) fn bind_unary(
    alloc: Global,
    op: &Unary,
    child: BoundExpression,
) -> Result<BoundExpression, BindFault>
    ensures { let d = infer child.scope child.expr in let e = unary op.now child.expr in
        result ≢ Err BindFault.NoMemory → result ≡ bound_unless (or_fault (unary_fault op.now d) (depth_fault (infer child.scope e))) child.scope e }
{
    let places = places_typed(alloc, op, child.dtype())?;
    let dtype = shallow(unary_type(alloc, op, child.dtype(), &places)?)?;
    let op = op.try_clone(alloc)?;
    Ok(BoundExpression::over_one(alloc, op, child, dtype, places)?)
}

pub(crate) fn bind_binary(
    alloc: Global,
    op: Binary,
    first: BoundExpression,
    second: BoundExpression,
) -> Result<BoundExpression, BindFault>
    requires { second.scope ≡ first.scope }
    ensures { let s = first.scope in let e = binary op first.expr second.expr in
        result ≢ Err BindFault.NoMemory → result ≡ bound_unless
        (or_fault (binary_fault op (infer s first.expr) (infer s second.expr)) (depth_fault (infer s e))) s e }
{
    let dtype = shallow(binary_typed(alloc, op, first.dtype(), second.dtype())?)?;
    Ok(BoundExpression::over_two(alloc, op, first, second, dtype)?)
}

pub(crate) fn bind_pack(
    alloc: Global,
    names: &Names,
    n: Nullability,
    children: Vec<BoundExpression>,
    scope: &Arc<DType>,
) -> Result<BoundExpression, BindFault>
    requires even { length children.items ≡ length names.now }
    requires scopes { All (λ b. b.scope ≡ scope.now.value) children.items }
    ensures { let s = scope.now.value in let ps = parts_of names.now (exprs_of children.items) in
        result ≢ Err BindFault.NoMemory → result ≡ bound_unless (or_fault (pack_fault (infer_all s ps)) (depth_fault (infer s (pack ps n)))) s (pack ps n) }
{
    if let Some(fault) = names_fault(alloc, names.as_slice())? {
        return Err(fault_of(fault));
    }
    let dtype = struct_of(pack_fields(alloc, names, &children)?, n)?;
    let dtype = Arc::new(alloc, dtype)?;
    let names = names.try_clone(alloc)?;
    Ok(BoundExpression::over_many(alloc, names, n, children, scope.clone()?, dtype))
}

/// The fields of a struct of bound parts.
pub(crate) fn pack_fields(
    alloc: Global,
    names: &Names,
    children: &[BoundExpression],
) -> Result<StructFields, NoMemory>
    requires even { length children.now ≡ length names.now }
    ensures fields { (s : DataType) → All (λ b. b.scope ≡ s) children.now
        → IfOk result (λ fs. fields_of fs ≡ infer_all s (parts_of names.now (exprs_of children.now))) }
    ensures faultless { IfOk result (λ _. All (λ b. typing_fault b.scope b.expr ≡ None) children.now) }
{
    let mut dtypes = Vec::with_capacity(alloc, children.len())?;
    for child in children {
        dtypes.push(child.dtype().try_clone(alloc)?)?;
    }
    Ok(StructFields::new(names.try_clone(alloc)?.into_vec(), dtypes))
}

/// A struct of these fields, unless it is too deep.
fn struct_of(fields: StructFields, n: Nullability) -> Result<DType, BindFault>
    ensures { let d = struct_type (fields_of fields) n in result ≡ typed (depth_fault d) d }
{
    match DType::struct_(fields, n) {
        Ok(dtype) => shallow(dtype),
        Err(_) => Err(BindFault::Deep),
    }
}
