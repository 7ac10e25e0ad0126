//! Bound queries: what their parts stand for among the tables of a catalogue, and what their answers are.
//!
//! Its promise: what the parts of a query are for some rows, and the combinations of a block in their order, are as
//! defined. The answers of queries are defined here.
#![tactic(auto)]

mod ask;
mod block;
mod calls;
mod combinations;
mod conjunct;
mod equal_rows;
mod growth_laws;
mod inside;
mod kept;
mod keys;
mod laws;
mod lent_cells;
mod limits;
mod listed;
mod masks;
mod query;
mod row_search;
mod search;
mod sizes;
mod step;
mod steps;
mod term;
mod tie;
mod top_laws;
mod weights;

pub use ask::AskFault;
pub use block::Block;
pub use conjunct::Conjunct;
pub use growth_laws::{
    catalogues_grow, queries_keep_their_rows, queries_stay_formed, rows_keep_their_values,
};
pub use inside::parts_are_inside;
pub use kept::KeptList;
pub use laws::{
    combinations_are_choices_that_satisfy, combinations_climb, parts_are_local,
    rankings_are_ordered_by_key, scores_are_evaluated,
};
pub use limits::limits_hold;
pub use masks::is_inside;
pub use query::{Query, block_in, limit_of};
pub use search::Search;
pub use sizes::{size_of, sizes_of};
pub use term::Term;
pub use top_laws::worths_are_within_tops;
