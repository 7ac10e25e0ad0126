//! What a program does around one run: it takes the words of the command line, calls the run, and ends with its status.
//!
//! Its promise: one call of the run that is handed in, on the words of the command line, does all that is done, and its
//! status is the exit status.
#![tactic(auto)]

mod program;
mod streams;
mod words;

pub use program::{command, exit_code, no_memory};
pub use streams::ClosedStreams;
pub use words::command_line;
