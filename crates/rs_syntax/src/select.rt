use crate::name::{Arg, ColRef, Name};
use crate::node::Node;
use rs_lex::Span;
use rs_value::{List, SetOp};

/// A term of ORDER BY: a predicate of arguments, times a weight.
#[derive(Debug, Drop)]
pub struct TermSyn {
    /// The weight; 1 at the predicate's name where none is written.
    pub weight: (i64, Span),
    pub predicate: Name,
    pub args: List<Arg>,
    /// From the weight, or the name where no weight is written, to the bracket that closes the arguments.
    pub at: Span,
}

/// What a block gives.
#[derive(Debug, Drop)]
pub enum Items {
    /// All columns of all FROM entries.
    Star(Span),
    List(List<ColRef>),
}

/// SELECT, FROM and WHERE.
#[derive(Debug, Drop)]
pub struct BlockSyn {
    pub distinct: bool,
    pub items: Items,
    /// Tables with their aliases, where one is written.
    pub from: List<(Name, Option<Name>)>,
    pub filter: Option<Node>,
}

/// A query.
#[derive(Debug, Drop)]
pub struct Select {
    pub left: BlockSyn,
    pub right: Option<(SetOp, BlockSyn)>,
    pub terms: List<TermSyn>,
    pub limit: Option<(i64, Span)>,
}
