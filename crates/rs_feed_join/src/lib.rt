//! The rank join of two ranked feeds: it draws from them one row at a time, and gives their pairs in order.
//!
//! Its promise: which pairs it gives, in which order; that it draws of each feed exactly the rows that its thresholds ask for; and what a
//! failure leaves.
#![tactic(auto)]

mod fault;
mod feed_join;
mod feed_pair;
mod parts;
mod side;
mod texts;

pub use fault::JoinFault;
pub use feed_join::FeedJoin;
pub use feed_pair::FeedPair;
