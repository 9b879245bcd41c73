// Laws of typing and evaluation.
ghost use Rattle.std.specs.Prelude.{◌≡◌, ◌<◌, ◌^◌, ◌↔◌, ℕ, None, Ok, true, false, All};
ghost use Rattle.std.specs.List.{list_any};
ghost use Rattle.scan_values.specs.DataType.{DataType};
ghost use Rattle.scan_values.specs.Marked.{Marked, boolean};
ghost use Rattle.scan_values.specs.Val.{is_clean};
ghost use Rattle.scan_values.specs.Fits.{fits};
ghost use Rattle.scan_values.specs.Paths.{Path};
ghost use Rattle.scan_expr.specs.Expr.{Expr, uses_row_index, conjuncts_of};
ghost use Rattle.scan_expr.specs.Infer.{infer};
ghost use Rattle.scan_expr.specs.Typing.{bind_type, nodes_fault, typing_fault};
ghost use Rattle.scan_expr.specs.Eval.{eval};
ghost use Rattle.scan_expr.specs.Overflow.{overflows};
ghost use Rattle.scan_expr.specs.Needs.{Demand, uses, needs, use_needs};

/// An expression that binds has the inferred dtype, and the conditions of its nodes hold.
pub fn what_binds_has_the_inferred_dtype()
    ensures { (s : DataType) (e : Expr) (d : DataType) → bind_type s e ≡ Ok d → (infer s e ≡ d) × (nodes_fault s e ≡ None) × (typing_fault s e ≡ None) }
{}

/// A typed expression gives a value of its dtype, also where parts of the scope's value are damaged.
pub fn values_fit_the_dtype()
    ensures { (s : DataType) (e : Expr) (v : Marked) (i : ℕ) → fits v s ≡ true → i < 2 ^ 64 → typing_fault s e ≡ None → fits (eval s e v i) (infer s e) ≡ true }
{}

/// On a value without damage an expression that does not overflow gives one without damage.
pub fn clean_values_stay_clean()
    ensures { (s : DataType) (e : Expr) (v : Marked) (i : ℕ) → is_clean v ≡ true → overflows s e v i ≡ false → is_clean (eval s e v i) ≡ true }
{}

/// The row's number plays no part in an expression in which it does not stand.
pub fn row_numbers_play_no_part()
    ensures { (s : DataType) (e : Expr) (v : Marked) (i j : ℕ) → uses_row_index e ≡ false → eval s e v i ≡ eval s e v j }
{}

/// Nor does it in where such an expression overflows.
pub fn row_numbers_play_no_part_in_overflows()
    ensures { (s : DataType) (e : Expr) (v : Marked) (i j : ℕ) → uses_row_index e ≡ false → overflows s e v i ≡ overflows s e v j }
{}

/// A filter overflows exactly where one of its conjuncts does.
pub fn a_filter_overflows_where_a_conjunct_does()
    ensures { (s : DataType) (e : Expr) (v : Marked) (i : ℕ) → overflows s e v i ≡ list_any (λ c. overflows s c v i) (conjuncts_of e) }
{}

/// A filter is true exactly where each of its conjuncts is.
pub fn conjuncts_are_all_true()
    ensures { (s : DataType) (e : Expr) (v : Marked) (i : ℕ) → (eval s e v i ≡ boolean true) ↔ All (λ c. eval s c v i ≡ boolean true) (conjuncts_of e) }
{}

/// An expression needs exactly what its uses need.
pub fn needs_are_those_of_the_uses()
    ensures { (s : DataType) (e : Expr) (k : Demand) (p : Path) → needs s e k p ≡ list_any (λ u. use_needs u s p) (uses s e k) }
{}
