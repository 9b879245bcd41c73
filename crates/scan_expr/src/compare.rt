// Equality, hash and copies of bound expressions.
ghost use Rattle.std.specs.Prelude.{◌≡◌, IfOk};
ghost use Rattle.std.specs.List.{fold};
ghost use Rattle.scan_expr.specs.Same.{same_unary, unary_number, binary_number};
ghost use Rattle.scan_expr.specs.Hashes.{unary_fed};

use crate::bound::{BoundExpression, Op};
use crate::op::{Binary, Unary};
use scan_values::NoMemory;
use std::alloc::Global;
use std::hash::{Hash, Hasher};

fn same_unary(a: &Unary, b: &Unary) -> bool
    ensures { result ≡ same_unary a.now b.now }
{
    match (a, b) {
        (Unary::GetItem(n), Unary::GetItem(m)) => n.same(m),
        (Unary::Select(ns), Unary::Select(ms)) => *ns == *ms,
        (Unary::Exclude(ns), Unary::Exclude(ms)) => *ns == *ms,
        (Unary::Not, Unary::Not) => true,
        (Unary::IsNull, Unary::IsNull) => true,
        (Unary::IsNotNull, Unary::IsNotNull) => true,
        (Unary::ListLength, Unary::ListLength) => true,
        _ => false,
    }
}

fn unary_number(op: &Unary) -> u8
    ensures { result ≡ unary_number op.now }
{
    match op {
        Unary::GetItem(_) => 0,
        Unary::Select(_) => 1,
        Unary::Exclude(_) => 2,
        Unary::Not => 3,
        Unary::IsNull => 4,
        Unary::IsNotNull => 5,
        Unary::ListLength => 6,
    }
}

/// Feeds the names that an operator writes.
fn feed_names<H: Hasher>(op: &Unary, state: &mut H)
    ensures { state.new ≡ fold H.write state.old (unary_fed op.now) }
{
    match op {
        Unary::GetItem(name) => name.hash(state),
        Unary::Select(names) => names.hash(state),
        Unary::Exclude(names) => names.hash(state),
        _ => {}
    }
}

fn binary_number(op: Binary) -> u8
    ensures { result ≡ binary_number op }
{
    match op {
        Binary::Mask => 0,
        Binary::And => 1,
        Binary::Or => 2,
        Binary::Equal => 3,
        Binary::NotEqual => 4,
        Binary::Less => 5,
        Binary::LessOrEqual => 6,
        Binary::Greater => 7,
        Binary::GreaterOrEqual => 8,
        Binary::CheckedAdd => 9,
        Binary::CheckedSub => 10,
    }
}

fn copied(alloc: Global, places: &[usize]) -> Result<Vec<usize>, NoMemory>
    ensures { IfOk result (λ v. v.items ≡ places.now) }
{
    let mut copy = Vec::with_capacity(alloc, places.len())?;
    for place in places {
        copy.push(*place)?;
    }
    Ok(copy)
}

impl Op {
    ghost use Rattle.std.specs.Prelude.{◌≡◌, IfOk};
    ghost use Rattle.scan_expr.specs.Children.{IsLike};
    ghost use Rattle.std.specs.List.{fold};
    ghost use Rattle.scan_expr.specs.Heads.{op_head, same_head, head_number};
    ghost use Rattle.scan_expr.specs.Hashes.{head_fed};

    fn try_clone(&self, alloc: Global) -> Result<Op, NoMemory>
        ensures { IfOk result (λ op. IsLike op self.now) }
    {
        Ok(match self {
            Op::Root => Op::Root,
            Op::RowIdx => Op::RowIdx,
            Op::Literal(dtype, value) => {
                Op::Literal(dtype.try_clone(alloc)?, value.try_clone(alloc)?)
            }
            Op::Unary(op) => Op::Unary(op.try_clone(alloc)?),
            Op::Binary(op) => Op::Binary(*op),
            Op::Pack(names, n) => Op::Pack(names.try_clone(alloc)?, *n),
        })
    }

    fn same(&self, other: &Op) -> bool
        ensures { result ≡ same_head (op_head self.now) (op_head other.now) }
    {
        match (self, other) {
            (Op::Root, Op::Root) => true,
            (Op::RowIdx, Op::RowIdx) => true,
            (Op::Literal(d, v), Op::Literal(e, w)) => *d == *e && *v == *w,
            (Op::Unary(u), Op::Unary(w)) => same_unary(u, w),
            (Op::Binary(b), Op::Binary(c)) => *b == *c,
            (Op::Pack(ns, n), Op::Pack(ms, m)) => *n == *m && *ns == *ms,
            _ => false,
        }
    }

    /// A number for each kind.
    fn number(&self) -> u8
        ensures { result ≡ head_number (op_head self.now) }
    {
        match self {
            Op::Root => 0,
            Op::RowIdx => 1,
            Op::Literal(_, _) => 2,
            Op::Unary(op) => 3 + unary_number(op),
            Op::Binary(op) => 10 + binary_number(*op),
            Op::Pack(_, _) => 21,
        }
    }

    /// Feeds the node without its parts.
    fn feed<H: Hasher>(&self, state: &mut H)
        ensures { state.new ≡ fold H.write state.old (head_fed (op_head self.now)) }
    {
        self.number().hash(state);
        match self {
            Op::Literal(dtype, value) => {
                dtype.hash(state);
                value.hash(state);
            }
            Op::Unary(op) => feed_names(op, state),
            Op::Pack(names, n) => {
                names.hash(state);
                n.is_nullable().hash(state);
            }
            _ => {}
        }
    }
}

impl BoundExpression {
    ghost use Rattle.std.specs.Prelude.{◌≡◌, IfOk};
    ghost use Rattle.scan_expr.specs.Same.{same_expr};
    ghost use Rattle.std.specs.List.{fold};
    ghost use Rattle.scan_expr.specs.Hashes.{expr_fed};

    pub fn try_clone(&self, alloc: Global) -> Result<BoundExpression, NoMemory>
        ensures { IfOk result (λ b. b ≡ self.now) }
    {
        let op = self.op.try_clone(alloc)?;
        let mut children = Vec::with_capacity(alloc, self.children.len())?;
        for child in &self.children {
            children.push(child.try_clone(alloc)?)?;
        }
        let places = copied(alloc, self.places.as_slice())?;
        Ok(BoundExpression {
            op,
            children,
            scope: self.scope.clone()?,
            dtype: self.dtype.clone()?,
            places,
        })
    }

    /// Whether the expressions are the same, whatever their scopes are.
    fn same_expr(&self, other: &BoundExpression) -> bool
        ensures { result ≡ same_expr self.now.expr other.now.expr }
    {
        if !self.op.same(&other.op) {
            return false;
        }
        if self.children.len() != other.children.len() {
            return false;
        }
        let others = other.children.as_slice();
        let mut i = 0;
        for child in &self.children {
            if !child.same_expr(&others[i]) {
                return false;
            }
            i += 1;
        }
        true
    }

    /// Feeds each node, before its parts.
    fn feed<H: Hasher>(&self, state: &mut H)
        ensures { state.new ≡ fold H.write state.old (expr_fed self.now.expr) }
    {
        self.op.feed(state);
        for child in &self.children {
            child.feed(state);
        }
    }
}

impl PartialEq for BoundExpression {
    ghost use Rattle.scan_expr.specs.Same.{same_bound, same_bound-partial};

    ghost eq = { same_bound };

    ghost laws = { same_bound-partial };

    fn eq(&self, other: &BoundExpression) -> bool {
        self.same_expr(other) && *self.scope() == *other.scope()
    }
}

impl Eq for BoundExpression {
    ghost use Rattle.scan_expr.specs.Same.{same_bound-equivalence};

    ghost laws = { same_bound-equivalence };
}

impl Hash for BoundExpression {
    ghost use Rattle.scan_expr.specs.Hashes.{bound_fed, bound_Alike};

    ghost hash_input = { bound_fed };

    ghost respects_eq = { bound_Alike.fed };

    fn hash<H: Hasher>(&self, state: &mut H) {
        self.feed(state);
        self.scope().hash(state);
    }
}
