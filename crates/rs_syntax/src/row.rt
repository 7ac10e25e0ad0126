use rs_lex::Span;
use rs_value::{List, Text};

/// A value of a row of INSERT.
#[derive(Debug, Drop)]
pub enum Cell {
    /// A number. The span of one with `-` has both tokens.
    Int(i64, Span),
    Text(Text, Span),
}

/// A row of INSERT.
#[derive(Debug, Drop)]
pub struct RowSyn {
    pub cells: List<Cell>,
    /// From the bracket in front of the values to the one behind them.
    pub at: Span,
}
