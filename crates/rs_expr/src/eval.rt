ghost use Rattle.std.specs.Prelude.{◌≡◌, ◌≤◌, true, is_some, nat_abs, ℕ, Some};
ghost use Rattle.rs_expr.specs.Formulas.{condition_of, formula_of};
ghost use Rattle.rs_expr.specs.Meaning.{holds, side_of, value_of};
ghost use Rattle.rs_expr.specs.Uses.{condition_uses, has_argument, side_uses, uses};
ghost use Rattle.rs_expr.specs.Widths.{is_narrow, width_of};

use crate::arguments::Arguments;
use crate::expr::{Cond, Expr, TextSide};
use rs_value::Value;

impl Expr {
    /// The value of the formula for these arguments, over whole numbers without bounds: division cuts towards zero, and
    /// CASE gives the result of the first condition that holds. It takes no memory.
    pub fn eval(&self, args: &[Value]) -> i128
        requires narrow { is_some (width_of (formula_of self.now)) ≡ true }
        requires args { uses (has_argument args.now) (formula_of self.now) ≡ true }
        ensures value { result ≡ value_of (formula_of self.now) args.now }
        ensures within { (width : ℕ) → width_of (formula_of self.now) ≡ Some width → nat_abs result ≤ width }
    {
        self.eval_lent(&args)
    }

    /// The same, for arguments that are lent.
    #[cycle(eval)]
    pub fn eval_lent<A: Arguments>(&self, args: &A) -> i128
        requires narrow { is_some (width_of (formula_of self.now)) ≡ true }
        requires args { uses (A.has args.now) (formula_of self.now) ≡ true }
        ensures value { result ≡ value_of (formula_of self.now) (A.values args.now) }
        ensures within { (width : ℕ) → width_of (formula_of self.now) ≡ Some width → nat_abs result ≤ width }
    {
        match self {
            Expr::Arg(place) => args.number(*place) as i128,
            Expr::Int(number) => *number as i128,
            Expr::Neg(part) => -part.eval_lent(args),
            Expr::Add(left, right) => left.eval_lent(args) + right.eval_lent(args),
            Expr::Sub(left, right) => left.eval_lent(args) - right.eval_lent(args),
            Expr::Mul(left, right) => left.eval_lent(args) * right.eval_lent(args),
            Expr::Div(part, divisor) => part.eval_lent(args) / *divisor as i128,
            Expr::Abs(part) => part.eval_lent(args).abs(),
            Expr::Least(left, right) => left.eval_lent(args).min(right.eval_lent(args)),
            Expr::Greatest(left, right) => left.eval_lent(args).max(right.eval_lent(args)),
            Expr::Case(condition, outcome, rest) => {
                if condition.test_lent(args) {
                    outcome.eval_lent(args)
                } else {
                    rest.eval_lent(args)
                }
            }
        }
    }
}

impl Cond {
    /// Whether the condition holds of these arguments. It takes no memory.
    pub fn test(&self, args: &[Value]) -> bool
        requires narrow { is_narrow (condition_of self.now) ≡ true }
        requires args { condition_uses (has_argument args.now) (condition_of self.now) ≡ true }
        ensures { result ≡ holds (condition_of self.now) args.now }
    {
        self.test_lent(&args)
    }

    /// The same, for arguments that are lent.
    #[cycle(eval)]
    pub fn test_lent<A: Arguments>(&self, args: &A) -> bool
        requires narrow { is_narrow (condition_of self.now) ≡ true }
        requires args { condition_uses (A.has args.now) (condition_of self.now) ≡ true }
        ensures { result ≡ holds (condition_of self.now) (A.values args.now) }
    {
        match self {
            Cond::Numbers(rel, left, right) => {
                rel.holds(left.eval_lent(args).cmp(&right.eval_lent(args)))
            }
            Cond::Texts(rel, left, right) => { rel.holds(left.bytes(args).cmp(right.bytes(args))) }
            Cond::And(left, right) => left.test_lent(args) && right.test_lent(args),
            Cond::Or(left, right) => left.test_lent(args) || right.test_lent(args),
            Cond::Not(part) => !part.test_lent(args),
        }
    }
}

impl TextSide {
    /// The bytes of the text.
    fn bytes<'a, A: Arguments>(&'a self, args: &'a A) -> &'a [u8]
        requires { side_uses (A.has args.now) self.now ≡ true }
        ensures { result.now ≡ side_of self.now (A.values args.now) }
    {
        match self {
            TextSide::Arg(place) => args.text(*place),
            TextSide::Text(text) => text.bytes(),
        }
    }
}
