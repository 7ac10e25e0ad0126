use rs_value::{Rel, Text};

/// A formula: a whole number, made of arguments and constants. Arguments count from 0; in a predicate's formula they
/// are its parameters.
#[cycle(formula)]
#[derive(Debug, Drop)]
pub enum Expr {
    Arg(u16),
    Int(i64),
    Neg(Box<Expr>),
    Add(Box<Expr>, Box<Expr>),
    Sub(Box<Expr>, Box<Expr>),
    Mul(Box<Expr>, Box<Expr>),
    /// A part and its divisor. Division truncates towards zero.
    Div(Box<Expr>, i64),
    Abs(Box<Expr>),
    /// The lesser one of two, MIN in a script.
    Least(Box<Expr>, Box<Expr>),
    /// The greater one of two, MAX in a script.
    Greatest(Box<Expr>, Box<Expr>),
    /// The second part where the condition holds, else the third.
    Case(Box<Cond>, Box<Expr>, Box<Expr>),
}

/// One side of a comparison of texts.
#[derive(Debug, Drop)]
pub enum TextSide {
    Arg(u16),
    Text(Text),
}

/// A condition on arguments.
#[cycle(formula)]
#[derive(Debug, Drop)]
pub enum Cond {
    /// Numbers compare by size.
    Numbers(Rel, Expr, Expr),
    /// Texts compare by bytes.
    Texts(Rel, TextSide, TextSide),
    And(Box<Cond>, Box<Cond>),
    Or(Box<Cond>, Box<Cond>),
    Not(Box<Cond>),
}
