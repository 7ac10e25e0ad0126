//! Filters: which rows satisfy conditions, and what they put out. A row is the rows of its entries, whose values are those of
//! their tables.
//!
//! Its promise: exactly when a row satisfies conjuncts, what it puts out, which rows of two sides of a join match, what
//! the join values of a row are, and which rows DISTINCT gives.
#![tactic(auto)]

mod block_match;
mod choice;
mod conditions;
mod distinct;
mod distinct_laws;
mod filter;
mod join_values;
mod laws;

pub use block_match::BlockMatch;
pub use conditions::JoinConditions;
pub use distinct::DistinctCore;
pub use distinct_laws::{distinct_ends, distinct_takes_rows, new_distinct_stands};
pub use filter::{passes, project};
pub use join_values::{left_values, right_values};
pub use laws::{
    equal_join_values_match, matches_have_equal_join_values, sides_and_matches_are_combinations,
};
