ghost use Rattle.std.specs.Prelude.{◌≡◌};
ghost use Rattle.rs_query.specs.Answers.{limit_of};
ghost use Rattle.rs_query.specs.Blocks.{block_in};

use crate::block::Block;
use rs_value::SetOp;

/// A bound query: what a SELECT stands for, with numbers in place of names, and with its LIMIT where there is one.
#[derive(Debug, Drop)]
pub enum Query {
    One(Block, Option<u32>),
    /// The left block and the right one.
    Set(SetOp, Block, Block, Option<u32>),
}

/// The block of this number. A query of one block has it alone.
pub fn block_in(query: &Query, number: u8) -> &Block
    ensures { result.now ≡ block_in query.now number }
{
    match query {
        Query::One(block, _) => block,
        Query::Set(_, left, right, _) => { if number == 1 { left } else { right } }
    }
}

/// How many rows the answer has at most, where the query says so.
///
/// # Errors
///
/// - `None`: exactly where the query has no LIMIT.
pub fn limit_of(query: &Query) -> Option<u32>
    ensures { result ≡ limit_of query.now }
{
    match query {
        Query::One(_, limit) => *limit,
        Query::Set(_, _, _, limit) => *limit,
    }
}
