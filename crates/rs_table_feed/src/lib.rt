//! Tables as ranked feeds: a feed that gives the rows of a table in their order.
//!
//! Its promise: a table of texts and numbers is a feed exactly where each number is a score; and the feed gives its rows, one a
//! draw, and never fails.
#![tactic(auto)]

mod range_fault;
mod table_feed;

pub use range_fault::RangeFault;
pub use table_feed::TableFeed;
