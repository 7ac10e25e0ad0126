//! The queue of held rows: pairs of a key and an item, of which the first by the order of the keys is taken first.
//!
//! Its promise: for every lawful order of keys, a push puts its pair at the place of its key, and a pop takes the first
//! pair.
#![tactic(auto)]

mod entry;
mod queue;

pub use queue::Queue;
