// Bound expressions: expressions with a scope and a dtype.
ghost use Rattle.std.specs.Prelude.{◌≡◌};

use crate::bind::pack_fields;
use crate::index::{one_place, places_of};
use crate::op::{Binary, Unary};
use crate::typing::{binary_type, struct_within, unary_type};
use scan_values::{DType, FieldName, Names, NoMemory, Nullability, PType, Value};
use std::alloc::Global;
use std::marker::Model;
use std::sync::Arc;

/// An operator, besides its parts.
pub(crate) enum Op {
    Root,
    RowIdx,
    Literal(DType, Value),
    Unary(Unary),
    Binary(Binary),
    Pack(Names, Nullability),
}

impl Drop for Op {
    fn drop(self) {
        match self {
            Op::Root => {}
            Op::RowIdx => {}
            Op::Literal(_, _) => {}
            Op::Unary(_) => {}
            Op::Binary(_) => {}
            Op::Pack(_, _) => {}
        }
    }
}

/// An expression over values of a scope, whose dtype is known. The parts share the scope. After the crate's
/// `vortex_array::expr::Expression` with its dtype.
#[derive(Drop)]
pub struct BoundExpression {
    pub(crate) op: Op,
    pub(crate) children: Vec<BoundExpression>,
    pub(crate) scope: Arc<DType>,
    pub(crate) dtype: Arc<DType>,
    /// Where the fields stand that a field access, a select or an exclude takes of its part's values.
    pub(crate) places: Vec<usize>,
}

/// What a bound expression is at its top, with its parts.
#[derive(Clone, Copy)]
pub enum BoundNode<'a> {
    Root,
    RowIdx,
    Literal(&'a DType, &'a Value),
    Unary(&'a Unary, &'a BoundExpression),
    Binary(Binary, &'a BoundExpression, &'a BoundExpression),
    Pack(&'a Names, &'a [BoundExpression], Nullability),
}

impl Model for BoundExpression {
    ghost use Rattle.scan_expr.specs.Bound.{Bound, bound_code};
    ghost use Rattle.scan_expr.specs.Expr.{expr_size};

    ghost Value = { Bound };

    ghost coded = { bound_code };

    ghost use Rattle.scan_expr.specs.Bound.{exprs_of};
    ghost use Rattle.scan_expr.specs.Ops.{apply_op, IsBound};

    ghost view = { λ a. record { scope = a.scope.value; expr = apply_op a.op (exprs_of a.children.items) } };

    ghost invariant = { λ a. IsBound a.op a.children.items a.scope.value a.dtype.value a.places.items };

    ghost size = { λ b. expr_size b.expr };

    ghost use Rattle.scan_expr.specs.OpsFall.{parts_fall};

    ghost size_decreases = { λ a h. parts_fall a.op a.children.items h.arity };
}

impl BoundExpression {
    ghost use Rattle.std.specs.Prelude.{IfOk, ◌≡◌, length, All, [], None};
    ghost use Rattle.scan_values.specs.Values.{val_of};
    ghost use Rattle.scan_expr.specs.Expr.{unary, binary, pack, parts_of};
    ghost use Rattle.scan_expr.specs.Infer.{infer, struct_fields};
    ghost use Rattle.scan_expr.specs.Places.{unary_places};
    ghost use Rattle.scan_expr.specs.Typing.{typing_fault, unary_fault, binary_fault};
    ghost use Rattle.scan_expr.specs.Bound.{bound_of, exprs_of};
    ghost use Rattle.scan_expr.specs.Ops.{apply_op, HasArity};

    pub(crate) fn leaf(
        alloc: Global,
        op: Op,
        scope: Arc<DType>,
        dtype: Arc<DType>,
    ) -> BoundExpression
        requires no_parts { HasArity op 0 }
        requires typed { infer scope.value (apply_op op []) ≡ dtype.value }
        requires faultless { typing_fault scope.value (apply_op op []) ≡ None }
        ensures { result ≡ bound_of scope.value (apply_op op []) }
    {
        BoundExpression {
            op,
            children: Vec::new(alloc),
            scope,
            dtype,
            places: Vec::new(alloc),
        }
    }

    pub(crate) fn over_one(
        alloc: Global,
        op: Unary,
        child: BoundExpression,
        dtype: DType,
        places: Vec<usize>,
    ) -> Result<BoundExpression, NoMemory>
        requires typed { infer child.scope (unary op child.expr) ≡ dtype }
        requires faultless { unary_fault op (infer child.scope child.expr) ≡ None }
        requires placed { places.items ≡ unary_places op (struct_fields (infer child.scope child.expr)) }
        ensures { IfOk result (λ b. b ≡ bound_of child.scope (unary op child.expr)) }
    {
        let scope = child.scope.clone()?;
        let dtype = Arc::new(alloc, dtype)?;
        let mut children = Vec::with_capacity(alloc, 1)?;
        children.push(child)?;
        Ok(BoundExpression {
            op: Op::Unary(op),
            children,
            scope,
            dtype,
            places,
        })
    }

    pub(crate) fn over_two(
        alloc: Global,
        op: Binary,
        first: BoundExpression,
        second: BoundExpression,
        dtype: DType,
    ) -> Result<BoundExpression, NoMemory>
        requires scopes { second.scope ≡ first.scope }
        requires typed { infer first.scope (binary op first.expr second.expr) ≡ dtype }
        requires faultless { binary_fault op (infer first.scope first.expr) (infer first.scope second.expr) ≡ None }
        ensures { IfOk result (λ b. b ≡ bound_of first.scope (binary op first.expr second.expr)) }
    {
        let scope = first.scope.clone()?;
        let dtype = Arc::new(alloc, dtype)?;
        let mut children = Vec::with_capacity(alloc, 2)?;
        children.push(first)?;
        children.push(second)?;
        Ok(BoundExpression {
            op: Op::Binary(op),
            children,
            scope,
            dtype,
            places: Vec::new(alloc),
        })
    }

    pub(crate) fn over_many(
        alloc: Global,
        names: Names,
        nullability: Nullability,
        children: Vec<BoundExpression>,
        scope: Arc<DType>,
        dtype: Arc<DType>,
    ) -> BoundExpression
        requires even { length children.items ≡ length names }
        requires scopes { All (λ b. b.scope ≡ scope.value) children.items }
        requires typed { infer scope.value (pack (parts_of names (exprs_of children.items)) nullability) ≡ dtype.value }
        requires faultless { All (λ b. typing_fault b.scope b.expr ≡ None) children.items }
        ensures { result ≡ bound_of scope.value (pack (parts_of names (exprs_of children.items)) nullability) }
    {
        BoundExpression {
            op: Op::Pack(names, nullability),
            children,
            scope,
            dtype,
            places: Vec::new(alloc),
        }
    }
}

impl BoundExpression {
    ghost use Rattle.std.specs.Prelude.{◌≡◌, None};
    ghost use Rattle.scan_expr.specs.Infer.{infer};
    ghost use Rattle.scan_expr.specs.Typing.{typing_fault};
    ghost use Rattle.scan_expr.specs.Expr.{is_root, uses_row_index};
    ghost use Rattle.scan_expr.specs.Children.{bound_children};
    ghost use Rattle.scan_expr.specs.BoundNodes.{node_expr, IsOver};

    /// The dtype of the values that it is over.
    pub fn scope(&self) -> &DType
        ensures { result.now ≡ self.now.scope }
    {
        &self.scope
    }

    /// The scope, to be shared by further expressions over it.
    pub fn shared_scope(&self) -> &Arc<DType>
        ensures { result.now.value ≡ self.now.scope }
    {
        &self.scope
    }

    /// The dtype of its values.
    pub fn dtype(&self) -> &DType
        ensures dtype { result.now ≡ infer self.now.scope self.now.expr }
        ensures faultless { typing_fault self.now.scope self.now.expr ≡ None }
    {
        &self.dtype
    }

    /// What it is at its top, with its parts.
    pub fn node(&self) -> BoundNode<'_>
        ensures expr { node_expr result ≡ self.now.expr }
        ensures scope { IsOver self.now.scope result }
        ensures faultless { typing_fault self.now.scope self.now.expr ≡ None }
    {
        match &self.op {
            Op::Root => BoundNode::Root,
            Op::RowIdx => BoundNode::RowIdx,
            Op::Literal(dtype, value) => BoundNode::Literal(dtype, value),
            Op::Unary(op) => BoundNode::Unary(op, &self.children[0]),
            Op::Binary(op) => BoundNode::Binary(*op, &self.children[0], &self.children[1]),
            Op::Pack(names, n) => BoundNode::Pack(names, &self.children, *n),
        }
    }

    /// Its parts, from left to right.
    pub fn children(&self) -> &[BoundExpression]
        ensures { result.now ≡ bound_children self.now }
    {
        self.children.as_slice()
    }

    /// Whether it is `$`.
    pub fn is_root(&self) -> bool
        ensures { result ≡ is_root self.now.expr }
    {
        matches!(&self.op, Op::Root)
    }

    /// Whether the row's number stands in it.
    pub fn uses_row_idx(&self) -> bool
        ensures { result ≡ uses_row_index self.now.expr }
    {
        if self.op.is_row_idx() {
            return true;
        }
        for child in &self.children {
            if child.uses_row_idx() {
                return true;
            }
        }
        false
    }
}

impl Op {
    ghost use Rattle.std.specs.Prelude.{◌≡◌};
    ghost use Rattle.scan_expr.specs.Children.{is_row_op};

    fn is_row_idx(&self) -> bool
        ensures { result ≡ is_row_op self.now }
    {
        matches!(self, Op::RowIdx)
    }
}

impl BoundExpression {
    ghost use Rattle.std.specs.Prelude.{◌≡◌, ◌++◌, IfOk};
    ghost use Rattle.scan_expr.specs.Bound.{bound_conjuncts};

    /// What top-level `and`s join, from left to right; anything else is one conjunct.
    pub fn conjuncts(&self, alloc: Global) -> Result<Vec<BoundExpression>, NoMemory>
        ensures { IfOk result (λ bs. bs.items ≡ bound_conjuncts self.now) }
    {
        let mut found = Vec::new(alloc);
        self.push_conjuncts(alloc, &mut found)?;
        Ok(found)
    }

    fn push_conjuncts(
        &self,
        alloc: Global,
        found: &mut Vec<BoundExpression>,
    ) -> Result<(), NoMemory>
        ensures { IfOk result (λ _. found.new.items ≡ found.old.items ++ bound_conjuncts self.now) }
    {
        match &self.op {
            Op::Binary(Binary::And) => {
                self.children[0].push_conjuncts(alloc, found)?;
                self.children[1].push_conjuncts(alloc, found)?;
            }
            _ => found.push(self.try_clone(alloc)?)?,
        }
        Ok(())
    }
}

impl BoundExpression {
    ghost use Rattle.std.specs.Prelude.{IfOk, ◌≡◌, ◌≤◌, length, position, bytes_eq, All, Some, None};
    ghost use Rattle.scan_values.specs.Values.{val_of};
    ghost use Rattle.scan_values.specs.DataType.{depth_of};
    ghost use Rattle.scan_values.specs.NameFaults.{field_names};
    ghost use Rattle.scan_expr.specs.Typing.{literal_fault, unary_fault, binary_fault};
    ghost use Rattle.scan_expr.specs.Expr.{root, row_index, literal, unary, binary, pack, parts_of};
    ghost use Rattle.scan_expr.specs.Infer.{infer, struct_fields};
    ghost use Rattle.scan_expr.specs.Bound.{bound_of, exprs_of};

    /// `$` over a new scope.
    pub fn new_root(alloc: Global, dtype: DType) -> Result<BoundExpression, NoMemory>
        ensures { IfOk result (λ b. b ≡ bound_of dtype root) }
    {
        let scope = Arc::new(alloc, dtype)?;
        BoundExpression::root(alloc, &scope)
    }

    /// `$` over a scope.
    pub fn root(alloc: Global, scope: &Arc<DType>) -> Result<BoundExpression, NoMemory>
        ensures { IfOk result (λ b. b ≡ bound_of scope.now.value root) }
    {
        let dtype = scope.clone()?;
        Ok(BoundExpression::leaf(alloc, Op::Root, scope.clone()?, dtype))
    }

    /// The row's number, over a scope.
    pub fn row_idx(alloc: Global, scope: &Arc<DType>) -> Result<BoundExpression, NoMemory>
        ensures { IfOk result (λ b. b ≡ bound_of scope.now.value row_index) }
    {
        let dtype = Arc::new(
            alloc,
            DType::primitive(PType::U64, Nullability::NonNullable),
        )?;
        Ok(BoundExpression::leaf(alloc, Op::RowIdx, scope.clone()?, dtype))
    }

    /// A literal over a scope.
    pub fn literal(
        alloc: Global,
        scope: &Arc<DType>,
        dtype: DType,
        value: Value,
    ) -> Result<BoundExpression, NoMemory>
        requires { literal_fault dtype (val_of value) ≡ None }
        ensures { IfOk result (λ b. b ≡ bound_of scope.now.value (literal dtype (val_of value))) }
    {
        let known = Arc::new(alloc, dtype.try_clone(alloc)?)?;
        let op = Op::Literal(dtype, value);
        Ok(BoundExpression::leaf(alloc, op, scope.clone()?, known))
    }

    /// An operator on an expression.
    pub fn unary(
        alloc: Global,
        op: Unary,
        child: BoundExpression,
    ) -> Result<BoundExpression, NoMemory>
        requires { unary_fault op (infer child.scope child.expr) ≡ None }
        ensures { IfOk result (λ b. b ≡ bound_of child.scope (unary op child.expr)) }
    {
        let places = places_of(alloc, &op, child.dtype())?;
        let dtype = unary_type(alloc, &op, child.dtype(), &places)?;
        BoundExpression::over_one(alloc, op, child, dtype, places)
    }

    /// `$.f`, where the first field of this name stands at this place. It is not looked up.
    #[tactic(auto, using(crate::proofs::Placing::item_faultless))]
    pub fn field_at(
        alloc: Global,
        scope: &Arc<DType>,
        name: &FieldName,
        place: usize,
    ) -> Result<BoundExpression, NoMemory>
        requires { Some place ≡ position (bytes_eq name.now) (field_names (struct_fields scope.now.value)) }
        ensures { IfOk result (λ b. b ≡ bound_of scope.now.value (unary (Unary.GetItem name.now) root)) }
    {
        let op = Unary::GetItem(name.try_clone(alloc)?);
        let places = one_place(alloc, place)?;
        let dtype = unary_type(alloc, &op, scope, &places)?;
        let root = BoundExpression::root(alloc, scope)?;
        BoundExpression::over_one(alloc, op, root, dtype, places)
    }

    /// An operator on two expressions over one scope.
    pub fn binary(
        alloc: Global,
        op: Binary,
        first: BoundExpression,
        second: BoundExpression,
    ) -> Result<BoundExpression, NoMemory>
        requires scopes { second.scope ≡ first.scope }
        requires faultless { binary_fault op (infer first.scope first.expr) (infer second.scope second.expr) ≡ None }
        ensures { IfOk result (λ b. b ≡ bound_of first.scope (binary op first.expr second.expr)) }
    {
        let dtype = binary_type(alloc, op, first.dtype(), second.dtype())?;
        BoundExpression::over_two(alloc, op, first, second, dtype)
    }

    /// The struct of expressions over one scope, under these names.
    pub fn pack(
        alloc: Global,
        scope: &Arc<DType>,
        names: Names,
        children: Vec<BoundExpression>,
        n: Nullability,
    ) -> Result<BoundExpression, NoMemory>
        requires even { length children.items ≡ length names }
        requires scopes { All (λ b. b.scope ≡ scope.now.value) children.items }
        requires shallow { depth_of (infer scope.now.value (pack (parts_of names (exprs_of children.items)) n)) ≤ 66 }
        ensures { IfOk result (λ b. b ≡ bound_of scope.now.value (pack (parts_of names (exprs_of children.items)) n)) }
    {
        let fields = pack_fields(alloc, &names, &children)?;
        let dtype = Arc::new(alloc, struct_within(fields, n))?;
        Ok(BoundExpression::over_many(alloc, names, n, children, scope.clone()?, dtype))
    }
}
