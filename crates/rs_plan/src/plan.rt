/// A plan of a query, as a tree of operators.
///
/// FROM entries and terms are numbered from 1, the indexes of the catalogue from 0. Any tree can be made, also one that is
/// no plan of a query: `Plan::valid` tells.
#[derive(Debug, Drop, PartialEq, Eq)]
pub enum Plan {
    /// The rows of an entry, as its table has them.
    SeqScan { entry: u8 },
    /// The rows of an entry in the order of a term, as an index has them.
    RankScan { entry: u8, term: u8, index: u8 },
    /// The rows of the child, with one term more evaluated.
    Rank { term: u8, child: Box<Plan> },
    /// The pairs of rows of two sides, found by equal values of columns.
    HashJoin { left: Box<Plan>, right: Box<Plan> },
    /// The pairs of rows of two sides, found by trying each pair.
    NestedJoin { left: Box<Plan>, right: Box<Plan> },
    /// The rows of the child, of each list of output values the first one.
    Distinct { child: Box<Plan> },
    /// The rows of two blocks, put together by the operator of the query.
    SetOperator { left: Box<Plan>, right: Box<Plan> },
}
