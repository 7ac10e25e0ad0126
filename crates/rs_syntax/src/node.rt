use crate::name::ColRef;
use rs_lex::Span;
use rs_value::{Rel, Text};

/// An operator of arithmetic.
#[derive(Clone, Copy, Debug)]
pub enum Op {
    Add,
    Sub,
    Mul,
    Div,
}

/// An expression, each part with its place: from its first token to its last. Brackets round a whole node aren't
/// part of that node.
#[derive(Debug, Drop)]
pub enum Node {
    Int(i64, Span),
    Text(Text, Span),
    Column(ColRef),
    Neg(Box<Node>, Span),
    Arith(Op, Box<Node>, Box<Node>, Span),
    Abs(Box<Node>, Span),
    /// MIN of two parts.
    Least(Box<Node>, Box<Node>, Span),
    /// MAX of two parts.
    Greatest(Box<Node>, Box<Node>, Span),
    /// A condition, its result and the rest: the ELSE part, or the `Case` of the WHEN parts behind this one.
    Case(Box<Node>, Box<Node>, Box<Node>, Span),
    Compare(Rel, Box<Node>, Box<Node>, Span),
    And(Box<Node>, Box<Node>, Span),
    Or(Box<Node>, Box<Node>, Span),
    Not(Box<Node>, Span),
}
