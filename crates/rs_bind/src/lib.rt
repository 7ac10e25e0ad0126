//! Binding: what the names of a statement stand for, or the first rule that it breaks.
//!
//! Its promise: a CREATE statement, an INSERT or a query binds exactly as the rules say, or is refused by the first rule that it
//! breaks, with its place.
#![tactic(auto)]

mod columns;
mod count;
mod filter;
mod from;
mod index;
mod insert;
mod items;
mod laws;
mod names;
mod outputs;
mod places;
mod predicate;
mod query;
mod references;
mod sources;
mod table;
mod term;
mod terms;
mod tops;
mod unranked;

pub use count::bind_count;
pub use index::bind_index;
pub use insert::bind_insert;
pub use laws::{conjuncts_mean_where, queries_are_typed_by_rules, statements_are_typed_by_rules};
pub use predicate::bind_predicate;
pub use query::bind;
pub use rs_typing::{BindFault, Why};
pub use table::bind_table;
