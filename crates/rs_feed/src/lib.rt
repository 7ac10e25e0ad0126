//! Ranked feeds: sources that give rows in the order of their scores, one draw after another, and count the draws.
//!
//! Its promise: what a draw gives of the rows that a feed tells, and that each draw, each row that was given and each failure is
//! counted.
#![tactic(auto)]

mod feed;
mod feed_row;
mod mem_feed;

pub use feed::{Feed, FeedFault};
pub use feed_row::FeedRow;
pub use mem_feed::MemFeed;
