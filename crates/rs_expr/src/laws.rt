//! What the definitions say: laws that hold of every formula. The functions compute nothing; each is called for its
//! contract.

ghost use Rattle.std.specs.Prelude.{◌≡◌, ◌≤◌, true, nat_abs, ℕ, List, Some};
ghost use Rattle.rs_value.specs.declared.value.Value.{Value};
ghost use Rattle.rs_expr.specs.Formulas.{Formula};
ghost use Rattle.rs_expr.specs.Meaning.{value_of};
ghost use Rattle.rs_expr.specs.Uses.{has_argument, uses};
ghost use Rattle.rs_expr.specs.Widths.{most_width, width_of};

/// A formula that has a width never leaves that magnitude, for arguments in range. No width passes 2^127 - 1, so the
/// value fits an `i128`.
pub fn values_stay_within_widths()
    ensures value { (formula : Formula) (args : List Value) (width : ℕ) → uses (has_argument args) formula ≡ true
        → width_of formula ≡ Some width → nat_abs (value_of formula args) ≤ width }
    ensures most { (formula : Formula) (width : ℕ) → width_of formula ≡ Some width → width ≤ most_width }
{}
