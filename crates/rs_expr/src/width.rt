ghost use Rattle.std.specs.Prelude.{◌≡◌, ◌≤◌, ◌+◌, ◌*◌, ◌/◌, ◌==◌, nat_abs, IfSome, None, Some, if◌then◌else◌};
ghost use Rattle.rs_expr.specs.Formulas.{condition_of, formula_of};
ghost use Rattle.rs_expr.specs.Widths.{is_narrow, most_width, of_two, width_of, within};

use crate::expr::{Cond, Expr};
use rs_value::GREATEST_INT;

/// The greatest magnitude of a formula and of each of its parts.
const MOST_WIDTH: u128 = (1 << 127) - 1;

/// The greatest magnitude of an argument, that of a number in a table or a script.
const ARGUMENT_WIDTH: u128 = GREATEST_INT as u128;

impl Expr {
    /// The greatest magnitude that the formula can have, for arguments in range; `None` where it or a part passes
    /// 2^127 - 1, or a divisor is 0. It takes no memory.
    ///
    /// # Errors
    ///
    /// - `None`: exactly where that of the formula or of a part passes 2^127 - 1, or a divisor is 0.
    #[cycle(width)]
    pub fn width(&self) -> Option<u128>
        ensures value { result ≡ width_of (formula_of self.now) }
        ensures within { IfSome result (λ width. width ≤ most_width) }
    {
        match self {
            Expr::Arg(_) => Some(ARGUMENT_WIDTH),
            Expr::Int(number) => constant_width(*number),
            Expr::Neg(part) => part.width(),
            Expr::Add(left, right) => sum_width(left.width()?, right.width()?),
            Expr::Sub(left, right) => sum_width(left.width()?, right.width()?),
            Expr::Mul(left, right) => product_width(left.width()?, right.width()?),
            Expr::Div(part, divisor) => quotient_width(part.width()?, *divisor),
            Expr::Abs(part) => part.width(),
            Expr::Least(left, right) => Some(left.width()?.max(right.width()?)),
            Expr::Greatest(left, right) => Some(left.width()?.max(right.width()?)),
            Expr::Case(condition, outcome, rest) => {
                if !condition.narrow() {
                    return None;
                }
                Some(outcome.width()?.max(rest.width()?))
            }
        }
    }
}

impl Cond {
    /// Whether every formula in the condition has a width. It takes no memory.
    #[cycle(width)]
    pub fn narrow(&self) -> bool
        ensures { result ≡ is_narrow (condition_of self.now) }
    {
        match self {
            Cond::Numbers(_, left, right) => left.width().is_some() && right.width().is_some(),
            Cond::Texts(_, _, _) => true,
            Cond::And(left, right) => left.narrow() && right.narrow(),
            Cond::Or(left, right) => left.narrow() && right.narrow(),
            Cond::Not(part) => part.narrow(),
        }
    }
}

/// The width of a constant.
fn constant_width(number: i64) -> Option<u128>
    ensures { result ≡ within (nat_abs number) }
{
    Some(number.unsigned_abs() as u128)
}

/// The width of a sum or a difference of parts of these widths.
fn sum_width(left: u128, right: u128) -> Option<u128>
    requires left { left ≤ most_width }
    requires right { right ≤ most_width }
    ensures value { result ≡ within (left + right) }
{
    let width = left + right;
    if width > MOST_WIDTH {
        return None;
    }
    Some(width)
}

/// The width of a product of parts of these widths.
fn product_width(left: u128, right: u128) -> Option<u128>
    requires left { left ≤ most_width }
    requires right { right ≤ most_width }
    ensures value { result ≡ within (left * right) }
{
    let width = left.checked_mul(right)?;
    if width > MOST_WIDTH {
        return None;
    }
    Some(width)
}

/// The width of a part of this width by a divisor.
fn quotient_width(part: u128, divisor: i64) -> Option<u128>
    ensures value { result ≡ (if nat_abs divisor == 0 then None else Some (part / nat_abs divisor)) }
{
    if divisor == 0 {
        return None;
    }
    Some(part / divisor.unsigned_abs() as u128)
}
