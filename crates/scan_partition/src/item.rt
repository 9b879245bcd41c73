// Items of a struct.
ghost use Rattle.std.specs.Prelude.{◌≡◌, IfOk, None};
ghost use Rattle.scan_expr.specs.Expr.{root, unary};
ghost use Rattle.scan_expr.specs.Bound.{bound_of};
ghost use Rattle.scan_expr.specs.Typing.{unary_fault};
ghost use Rattle.scan_partition.specs.Items.{item_name, same_item};
ghost use Rattle.scan_partition.specs.Lift.{row_name, child_name};

use crate::expand::field_root;
use scan_expr::{BoundExpression, Unary};
use scan_values::{DType, FieldName, NoMemory};
use std::alloc::Global;
use std::fmt::{self, Display, Formatter, Write};
use std::string::String;
use std::sync::Arc;

/// An item of a struct: one of its fields, or its validity.
#[derive(Drop)]
pub enum Item {
    Field(FieldName),
    Validity,
}

impl Item {
    /// The field's name, or `#validity`.
    pub fn name(&self) -> &str
        ensures { result.now ≡ item_name self.now }
    {
        match self {
            Item::Field(name) => name.as_str(),
            Item::Validity => "#validity",
        }
    }

    /// Whether it is the same item.
    pub fn same(&self, other: &Item) -> bool
        ensures { result ≡ same_item self.now other.now }
    {
        match self {
            Item::Field(n) => match other {
                Item::Field(m) => n.same(m),
                Item::Validity => false,
            },
            Item::Validity => match other {
                Item::Field(_) => false,
                Item::Validity => true,
            },
        }
    }

    pub fn try_clone(&self, alloc: Global) -> Result<Item, NoMemory>
        ensures { IfOk result (λ i. i ≡ self.now) }
    {
        match self {
            Item::Field(name) => Ok(Item::Field(name.try_clone(alloc)?)),
            Item::Validity => Ok(Item::Validity),
        }
    }
}

impl Display for Item {
    ghost use Rattle.std.specs.Prelude.{Some};

    ghost output = { λ i. Some (item_name i) };

    fn fmt<W: Write>(&self, f: &mut Formatter<W>) -> fmt::Result {
        f.write_str(self.name())
    }
}

/// `$.child`.
pub(crate) fn child_item(alloc: Global, scope: &Arc<DType>) -> Result<BoundExpression, NoMemory>
    requires { unary_fault (Unary.GetItem child_name) scope.now.value ≡ None }
    ensures { IfOk result (λ b. b ≡ bound_of scope.now.value (unary (Unary.GetItem child_name) root)) }
{
    let name = FieldName::new(String::from_str(alloc, "child")?);
    field_root(alloc, scope, name)
}

/// `$.row_idx`.
pub(crate) fn row_item(alloc: Global, scope: &Arc<DType>) -> Result<BoundExpression, NoMemory>
    requires { unary_fault (Unary.GetItem row_name) scope.now.value ≡ None }
    ensures { IfOk result (λ b. b ≡ bound_of scope.now.value (unary (Unary.GetItem row_name) root)) }
{
    let name = FieldName::new(String::from_str(alloc, "row_idx")?);
    field_root(alloc, scope, name)
}
