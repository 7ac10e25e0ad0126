//! Statements of query scripts, and the parser that reads them.
//!
//! Its promise: the statements are those that the tokens parse to, or the fault is at the first place at which they
//! parse to none.
#![tactic(auto)]

mod fault;
mod name;
mod node;
mod parser;
mod row;
mod script;
mod select;
mod statement;

pub use fault::SyntaxFault;
pub use name::{Arg, ColRef, Name};
pub use node::{Node, Op};
pub use row::{Cell, RowSyn};
pub use script::{
    each_list_of_tokens_parses_or_is_refused, one_list_of_statements, one_refusal, parse,
    rows_are_few,
};
pub use select::{BlockSyn, Items, Select, TermSyn};
pub use statement::Statement;
