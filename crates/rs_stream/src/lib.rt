//! Streams as ranked feeds: files, FIFOs and pipes that are read record by record, one record a draw.
//!
//! Its promise: which records a stream has, however its reads split the bytes; that no byte behind a record is taken before the next
//! record is asked for; which row each record gives; and that a stream that ends in front of its record `end,end` is told as broken off.
#![tactic(auto)]

mod fault;
mod records;
mod row;
mod stream_feed;
mod stream_rows;

pub use fault::{RecordFault, StreamFault};
pub use records::Records;
pub use stream_feed::{StreamFeed, Whole};
pub use stream_rows::StreamRows;
