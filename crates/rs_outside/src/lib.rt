//! The outside: files that are fetched and sinks that are written, as traits whose contracts say what an object
//! tells of itself and when it may fail; fakes in memory; and the thin edge to the system.
//!
//! Its promise: a fetch and a put do to what an object tells exactly what their definitions say, and say failed only
//! where the object's count of faults rose.
#![tactic(auto)]

mod answered;
mod dir_files;
mod files;
mod mem_files;
mod mem_sink;
mod out_sink;
mod reading;
mod sink;

pub use answered::Answered;
pub use dir_files::{DirFiles, fetch_opened, fetch_rest};
pub use files::{FetchFault, Files};
pub use mem_files::MemFiles;
pub use mem_sink::MemSink;
pub use out_sink::OutSink;
pub use reading::{Reading, read_some};
pub use sink::{Sink, SinkFault};
