//! Plans of queries: which trees are plans, what they range over and evaluate, and the order of their codes. The list of rows
//! that each node gives, how often and in which order it asks its children, which questions to the scorer come with that, and
//! what each node counts, are defined in `specs/` and computed on worked cases in `proofs/`.
//!
//! Its promise: exactly when a tree is a plan of a query, what it ranges over and evaluates, and the order of codes,
//! which tells different plans apart. The lists, asks, calls and counts of nodes are defined here.
#![tactic(auto)]

mod code;
mod counts;
mod laws;
mod numbers;
mod plan;
mod signature;
mod valid;

pub use counts::Counts;
pub use laws::{code_order_is_total, different_plans_have_different_codes, plans_have_numbers};
pub use plan::Plan;
pub use signature::Signature;
pub use valid::can_hash;
