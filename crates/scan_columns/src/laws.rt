// Laws of columns.
ghost use Rattle.std.specs.Prelude.{◌≡◌, ℕ, List, map, false};
ghost use Rattle.std.specs.List.{range_with_len};
ghost use Rattle.scan_values.specs.Arrays.{ArrayData};
ghost use Rattle.scan_values.specs.DataType.{DataType};
ghost use Rattle.scan_values.specs.Val.{Val, marked};
ghost use Rattle.scan_expr.specs.Bound.{Bound};
ghost use Rattle.scan_expr.specs.Expr.{Expr, uses_row_index};
ghost use Rattle.scan_expr.specs.Eval.{eval};
ghost use Rattle.scan_columns.specs.Joined.{row_at, joined_at};

/// The clauses of an evaluation leave one answer: the items that `Column::evaluate` gives, as an array, are those that
/// `BoundExpression::apply` gives on the column as an array.
pub fn an_evaluation_gives_what_apply_gives()
    ensures { (s : DataType) (e : Expr) (items made applied : List Val)
        → map marked made ≡ map (λ v. eval s e (marked v) 0) items
        → map marked applied ≡ map (λ v. eval s e (marked v) 0) items → made ≡ applied }
{}

/// The same over several columns: the items that `Column::evaluate_over` gives, as an array, are those that
/// `BoundExpression::apply` gives on the array of the structs of their rows.
pub fn an_evaluation_over_parts_gives_what_apply_gives()
    ensures { (root : Bound) (xs : List ArrayData) (n : ℕ) (made applied : List Val)
        → uses_row_index root.expr ≡ false
        → map marked made ≡ map (joined_at root xs) (range_with_len 0 n)
        → map marked applied ≡ map (λ v. eval root.scope root.expr (marked v) 0) (map (row_at xs) (range_with_len 0 n))
        → made ≡ applied }
{}
