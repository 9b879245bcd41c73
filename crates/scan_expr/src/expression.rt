// Expressions.
ghost use Rattle.std.specs.Prelude.{◌≡◌, ◌+◌, min, List, ℕ};
ghost use Rattle.scan_expr.specs.Expr.{parts_of, parts_depth};

use crate::bind::{bind_binary, bind_literal, bind_pack, bind_root, bind_unary};
use crate::bound::BoundExpression;
use crate::op::{Binary, BindFault, Unary};
use crate::tree::{Top, Tree};
use crate::typing::fault_of;
use scan_values::{DType, FieldName, Names, NoMemory, Nullability, Value};
use std::alloc::Global;
use std::boxed::Box;
use std::marker::Model;
use std::sync::Arc;

/// An expression over the values of a dtype, after the crate's `vortex_array::expr::Expression`.
#[cycle(expression)]
#[derive(Drop)]
pub struct Expression {
    node: Node,
    depth: u32,
}

#[cycle(expression)]
enum Node {
    Root,
    RowIdx,
    Literal(DType, Value),
    Unary(Unary, Box<Expression>),
    Binary(Binary, Box<Expression>, Box<Expression>),
    Pack(Names, Vec<Expression>, Nullability),
}

impl Drop for Node {
    #[cycle(expression)]
    fn drop(self) {
        match self {
            Node::Root => {}
            Node::RowIdx => {}
            Node::Literal(_, _) => {}
            Node::Unary(_, _) => {}
            Node::Binary(_, _, _) => {}
            Node::Pack(_, _, _) => {}
        }
    }
}

impl Model for Expression {
    ghost use Rattle.std.specs.Prelude.{◌≡◌, min};
    ghost use Rattle.scan_expr.specs.Expr.{Expr, expr_size, expr_depth};
    ghost use Rattle.scan_expr.specs.ExprCode.{expr_code};

    ghost Value = { Expr };

    ghost coded = { expr_code };

    ghost use Rattle.scan_expr.specs.Nodes.{expr_of, IsEven};

    ghost view = { λ a. expr_of a.node };

    ghost invariant = { λ a. record { depth : a.depth ≡ min (expr_depth (expr_of a.node)) 101; even : IsEven a.node } };

    ghost size = { expr_size };

    ghost use Rattle.scan_expr.specs.NodesFall.{node_falls};

    ghost size_decreases = { λ a h. node_falls a.node };
}

impl Expression {
    ghost use Rattle.std.specs.Prelude.{◌≡◌, IfOk, length};
    ghost use Rattle.scan_values.specs.Values.{val_of};
    ghost use Rattle.scan_expr.specs.Expr.{root, row_index, literal, unary, binary, pack, parts_of};

    /// The value itself, `$`.
    pub fn root() -> Expression
        ensures { result ≡ root }
    {
        Expression {
            node: Node::Root,
            depth: 1,
        }
    }

    /// The number of the row, after the crate's `layouts::row_idx::expr`.
    pub fn row_idx() -> Expression
        ensures { result ≡ row_index }
    {
        Expression {
            node: Node::RowIdx,
            depth: 1,
        }
    }

    /// A literal of a dtype.
    pub fn lit(dtype: DType, v: Value) -> Expression
        ensures { result ≡ literal dtype (val_of v) }
    {
        Expression {
            node: Node::Literal(dtype, v),
            depth: 1,
        }
    }

    /// The struct of expressions, under these names.
    pub fn pack(names: Vec<FieldName>, parts: Vec<Expression>, n: Nullability) -> Expression
        requires { length parts.items ≡ length names.items }
        ensures { result ≡ pack (parts_of names.items parts.items) n }
    {
        let depth = one_more(deepest(parts.as_slice()));
        Expression {
            node: Node::Pack(Names::new(names), parts, n),
            depth,
        }
    }

    pub(crate) fn unary(alloc: Global, op: Unary, e: Expression) -> Result<Expression, NoMemory>
        ensures { IfOk result (λ x. x ≡ unary op e) }
    {
        let depth = one_more(e.depth);
        let e = Box::new(alloc, e)?;
        Ok(Expression {
            node: Node::Unary(op, e),
            depth,
        })
    }

    pub(crate) fn binary(
        alloc: Global,
        op: Binary,
        a: Expression,
        b: Expression,
    ) -> Result<Expression, NoMemory>
        ensures { IfOk result (λ x. x ≡ binary op a b) }
    {
        let depth = one_more(a.depth.max(b.depth));
        let a = Box::new(alloc, a)?;
        let b = Box::new(alloc, b)?;
        Ok(Expression {
            node: Node::Binary(op, a, b),
            depth,
        })
    }
}

/// One more, up to 101.
fn one_more(depth: u32) -> u32
    ensures { result ≡ min (depth + 1) 101 }
{
    if depth < 100 { depth + 1 } else { 101 }
}

/// The depth of the deepest part, up to 101.
fn deepest(parts: &[Expression]) -> u32
    ensures { (ns : List (List ℕ)) → result ≡ min (parts_depth (parts_of ns parts.now)) 101 }
{
    let mut depth = 0;
    for part in parts {
        depth = depth.max(part.depth);
    }
    depth
}

impl Expression {
    ghost use Rattle.std.specs.Prelude.{◌≢◌, Err};
    ghost use Rattle.scan_expr.specs.Typing.{nodes_fault, bind_fault};
    ghost use Rattle.scan_expr.specs.Bound.{bound_unless};

    /// The expression over a scope, or the first fault: of the scope's depth, of its names, of the expression's depth,
    /// of the nodes.
    pub fn bind(&self, alloc: Global, scope: &DType) -> Result<BoundExpression, BindFault>
        ensures { result ≢ Err BindFault.NoMemory → result ≡ bound_unless (bind_fault scope.now self.now) scope.now self.now }
    {
        if scope.depth() > 64 {
            return Err(BindFault::Deep);
        }
        if let Some(fault) = scope.names_fault(alloc)? {
            return Err(fault_of(fault));
        }
        if self.depth > 100 {
            return Err(BindFault::Deep);
        }
        let scope = Arc::new(alloc, scope.try_clone(alloc)?)?;
        self.bind_node(alloc, &scope)
    }

    /// Binds each node, parts first.
    fn bind_node(&self, alloc: Global, scope: &Arc<DType>) -> Result<BoundExpression, BindFault>
        ensures { result ≢ Err BindFault.NoMemory → result ≡ bound_unless (nodes_fault scope.now.value self.now) scope.now.value self.now }
    {
        match &self.node {
            Node::Root => bind_root(alloc, scope),
            Node::RowIdx => Ok(BoundExpression::row_idx(alloc, scope)?),
            Node::Literal(dtype, value) => bind_literal(alloc, scope, dtype, value),
            Node::Unary(op, e) => {
                let child = e.bind_node(alloc, scope)?;
                bind_unary(alloc, op, child)
            }
            Node::Binary(op, a, b) => {
                let first = a.bind_node(alloc, scope)?;
                let second = b.bind_node(alloc, scope)?;
                bind_binary(alloc, *op, first, second)
            }
            Node::Pack(names, parts, n) => {
                let mut bound = Vec::with_capacity(alloc, parts.len())?;
                for part in parts {
                    bound.push(part.bind_node(alloc, scope)?)?;
                }
                bind_pack(alloc, names, *n, bound, scope)
            }
        }
    }
}

impl Tree for Expression {
    ghost expr = { λ e. e };

    fn top(&self) -> Top<'_, Expression> {
        match &self.node {
            Node::Root => Top::Root,
            Node::RowIdx => Top::RowIdx,
            Node::Literal(dtype, value) => Top::Literal(dtype, value),
            Node::Unary(op, e) => Top::Unary(op, e),
            Node::Binary(op, a, b) => Top::Binary(*op, a, b),
            Node::Pack(names, parts, n) => Top::Pack(names.as_slice(), parts.as_slice(), *n),
        }
    }
}

impl Expression {
    ghost use Rattle.std.specs.Prelude.{◌≡◌, IfOk};

    pub fn try_clone(&self, alloc: Global) -> Result<Expression, NoMemory>
        ensures { IfOk result (λ e. e ≡ self.now) }
    {
        let node = match &self.node {
            Node::Root => Node::Root,
            Node::RowIdx => Node::RowIdx,
            Node::Literal(dtype, value) => {
                Node::Literal(dtype.try_clone(alloc)?, value.try_clone(alloc)?)
            }
            Node::Unary(op, e) => {
                Node::Unary(op.try_clone(alloc)?, Box::new(alloc, e.try_clone(alloc)?)?)
            }
            Node::Binary(op, a, b) => {
                let a = Box::new(alloc, a.try_clone(alloc)?)?;
                let b = Box::new(alloc, b.try_clone(alloc)?)?;
                Node::Binary(*op, a, b)
            }
            Node::Pack(names, parts, n) => {
                let mut copies = Vec::with_capacity(alloc, parts.len())?;
                for part in parts {
                    copies.push(part.try_clone(alloc)?)?;
                }
                Node::Pack(names.try_clone(alloc)?, copies, *n)
            }
        };
        Ok(Expression {
            node,
            depth: self.depth,
        })
    }
}

impl Expression {
    ghost use Rattle.std.specs.Prelude.{◌≡◌, option_map};
    ghost use Rattle.scan_expr.specs.Expr.{is_root};
    ghost use Rattle.scan_expr.specs.Choices.{root_select};

    /// Whether it is `$`.
    pub fn is_root(&self) -> bool
        ensures { result ≡ is_root self.now }
    {
        matches!(&self.node, Node::Root)
    }

    /// The names of an including select of `$`.
    pub fn root_select(&self) -> Option<&Names>
        ensures { option_map (λ names. names.now) result ≡ root_select self.now }
    {
        match &self.node {
            Node::Unary(Unary::Select(names), e) => { if e.is_root() { Some(names) } else { None } }
            _ => None,
        }
    }
}
