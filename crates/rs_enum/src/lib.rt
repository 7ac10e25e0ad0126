//! The least plan of a query: what plans cost, in which order they come, and their text.
//!
//! Its promise: a plan's cost is as defined, a query has exactly one least plan, and `best` finds it; the text of a
//! plan is as defined; and cards that say the same give the same least plan and texts.
#![tactic(auto)]

mod block_grid;
mod build;
mod candidate;
mod costs;
mod extent;
mod fill;
mod find;
mod grid;
mod laws;
mod nodes;
mod optimiser;
mod planning;
mod row;
mod search;
mod text;
mod tops;

pub use costs::cost;
pub use grid::Grid;
pub use laws::{
    cards_decide_the_plan, cards_decide_the_text, each_query_has_a_plan, plan_order_is_total,
    sampled_cards_are_those_of_the_query, there_is_one_least_plan,
};
pub use optimiser::best;
pub use text::{explain, nodes_of};
