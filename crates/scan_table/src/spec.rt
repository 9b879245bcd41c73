//! What a table is made of: keys, and measures over the rows of each key. An own type.
ghost use Rattle.std.specs.Prelude.{◌≡◌, ◌<◌, ◌+◌, ◌^◌, option_map};
ghost use Rattle.scan_table.specs.Request.{may_read};
ghost use Rattle.scan_table.specs.Spec.{behind, measured, read_by};

use scan_expr::Expression;
use scan_groups::Measured;
use scan_values::{DType, FieldName, Selection};
use std::ops::Range;

/// What is told of the rows of a group.
#[derive(Drop)]
pub enum Measure {
    /// How many rows there are.
    Count,
    /// At how many of them an expression is not null.
    Values(Expression),
    /// The sum of an integer's values, or null where there are none.
    Sum(Expression),
    /// The least of the values, or null where there are none.
    Least(Expression),
    /// The greatest of the values, or null where there are none.
    Greatest(Expression),
}

impl Measure {
    /// What it tells of rows, where what it reads stands at a place.
    pub(crate) fn measured(&self, place: usize) -> Measured
        ensures { result ≡ measured place self.now }
    {
        match self {
            Measure::Count => Measured::Count,
            Measure::Values(_) => Measured::Values(place),
            Measure::Sum(_) => Measured::Sum(place),
            Measure::Least(_) => Measured::Least(place),
            Measure::Greatest(_) => Measured::Greatest(place),
        }
    }

    /// The place behind what it reads.
    pub(crate) fn behind(&self, place: usize) -> usize
        requires { place + 1 < 2 ^ 64 }
        ensures { result ≡ behind place self.now }
    {
        match self {
            Measure::Count => place,
            Measure::Values(_) => place + 1,
            Measure::Sum(_) => place + 1,
            Measure::Least(_) => place + 1,
            Measure::Greatest(_) => place + 1,
        }
    }

    /// The expression that it is over.
    pub(crate) fn expression(&self) -> Option<&Expression>
        ensures { option_map (λ e. e.now) result ≡ read_by self.now }
    {
        match self {
            Measure::Count => None,
            Measure::Values(e) => Some(e),
            Measure::Sum(e) => Some(e),
            Measure::Least(e) => Some(e),
            Measure::Greatest(e) => Some(e),
        }
    }

    /// Whether it may be over values of a dtype.
    pub(crate) fn may_read(&self, dtype: &DType) -> bool
        ensures { result ≡ may_read self.now dtype.now }
    {
        match self {
            Measure::Count => true,
            Measure::Values(_) => true,
            Measure::Sum(_) => dtype.as_ptype_opt().is_some(),
            Measure::Least(_) => dtype.is_scalar(),
            Measure::Greatest(_) => dtype.is_scalar(),
        }
    }
}

/// A table over files: of the rows in a range and a selection that meet a filter, a group for each list of values that
/// the keys have, and the measures of each group. Names are neither repeated nor reserved, keys and measures together.
#[derive(Drop)]
pub struct TableSpec {
    pub keys: Vec<(FieldName, Expression)>,
    pub measures: Vec<(FieldName, Measure)>,
    pub filter: Option<Expression>,
    pub row_range: Option<Range<u64>>,
    pub selection: Selection,
}
