use rs_expr::{Cond, Expr, TextSide};

/// What an expression is: a number, a text, or a truth value.
#[derive(Debug, Drop)]
pub enum Typed {
    Number(Expr),
    Words(TextSide),
    Truth(Cond),
}
