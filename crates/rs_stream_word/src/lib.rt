//! The word of the program `ranksql_feed`: the first pairs of two streams, each put as soon as it is sure.
//!
//! Its promise: of streams whose bytes are known the pairs that are put, and the draws, are those of their rows; each pair stands before
//! any later draw; and where a stream ended in front of its record `end,end`, or has a record that is no row, and the join came to it,
//! that is told.
#![tactic(auto)]

mod fault;
mod putting;
mod words;

pub use fault::StreamsFault;
pub use putting::{feed_streams, put_streams};
pub use words::{StreamWords, words_of};
