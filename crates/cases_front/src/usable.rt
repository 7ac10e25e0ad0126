//! Whether the arguments that a formula uses are there and of their kinds, as its value requires.

ghost use Rattle.std.specs.Prelude.{◌≡◌};
ghost use Rattle.rs_value.specs.declared.kind.Kind.TheVariants as kind;
ghost use Rattle.rs_expr.specs.Formulas.{condition_of, formula_of};
ghost use Rattle.rs_expr.specs.Uses.{condition_uses, has_argument, side_uses, uses};

use rs_expr::{Cond, Expr, TextSide};
use rs_value::{GREATEST_INT, Value};

#[cycle(usable)]
pub fn usable(formula: &Expr, args: &[Value]) -> bool
    ensures { result ≡ uses (has_argument args.now) (formula_of formula.now) }
{
    match formula {
        Expr::Arg(place) => is_number(args, *place),
        Expr::Int(_) => true,
        Expr::Neg(part) => usable(part, args),
        Expr::Add(left, right) => usable(left, args) && usable(right, args),
        Expr::Sub(left, right) => usable(left, args) && usable(right, args),
        Expr::Mul(left, right) => usable(left, args) && usable(right, args),
        Expr::Div(part, _) => usable(part, args),
        Expr::Abs(part) => usable(part, args),
        Expr::Least(left, right) => usable(left, args) && usable(right, args),
        Expr::Greatest(left, right) => usable(left, args) && usable(right, args),
        Expr::Case(condition, outcome, rest) => {
            usable_condition(condition, args) && usable(outcome, args) && usable(rest, args)
        }
    }
}

#[cycle(usable)]
fn usable_condition(condition: &Cond, args: &[Value]) -> bool
    ensures { result ≡ condition_uses (has_argument args.now) (condition_of condition.now) }
{
    match condition {
        Cond::Numbers(_, left, right) => usable(left, args) && usable(right, args),
        Cond::Texts(_, left, right) => usable_side(left, args) && usable_side(right, args),
        Cond::And(left, right) => usable_condition(left, args) && usable_condition(right, args),
        Cond::Or(left, right) => usable_condition(left, args) && usable_condition(right, args),
        Cond::Not(part) => usable_condition(part, args),
    }
}

fn usable_side(side: &TextSide, args: &[Value]) -> bool
    ensures { result ≡ side_uses (has_argument args.now) side.now }
{
    match side {
        TextSide::Arg(place) => is_text(args, *place),
        TextSide::Text(_) => true,
    }
}

fn is_number(args: &[Value], place: u16) -> bool
    ensures { result ≡ has_argument args.now kind.Int place }
{
    match args.get(place as usize) {
        Some(Value::Int(number)) => number.unsigned_abs() <= GREATEST_INT,
        Some(Value::Text(_)) => false,
        None => false,
    }
}

fn is_text(args: &[Value], place: u16) -> bool
    ensures { result ≡ has_argument args.now kind.Text place }
{
    match args.get(place as usize) {
        Some(Value::Int(_)) => false,
        Some(Value::Text(_)) => true,
        None => false,
    }
}
