use crate::name::{Arg, Name};
use crate::node::Node;
use crate::row::RowSyn;
use crate::select::Select;
use rs_lex::Span;
use rs_value::{Kind, List, Text};

/// A statement of a script.
#[derive(Debug, Drop)]
pub enum Statement {
    CreateTable {
        name: Name,
        columns: List<(Name, Kind)>,
        file: Text,
    },
    CreatePredicate {
        name: Name,
        params: List<(Name, Kind)>,
        max: (i64, Span),
        /// What a call costs the planner; 1 where it isn't written.
        cost: Option<(i64, Span)>,
        formula: Node,
    },
    CreateRankIndex {
        name: Name,
        table: Name,
        predicate: Name,
        args: List<Arg>,
        /// From the predicate's name to the bracket that closes its arguments.
        at: Span,
    },
    Query(Select),
    Declare {
        name: Name,
        select: Select,
    },
    Fetch {
        count: (i64, Span),
        name: Name,
    },
    Close {
        name: Name,
    },
    Explain(Select),
    ExplainAnalyze(Select),
    Insert {
        table: Name,
        rows: List<RowSyn>,
    },
}
