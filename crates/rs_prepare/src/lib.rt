//! What stands ready before the first run of an asking: the scores that are known, and the three files that it works with.
//!
//! Its promise: each file is opened by its own word and in its turn, and what is known is what the file of known scores holds. A file
//! is refused exactly for what the system answered: an error when it was to be opened, or what it told of the file that it opened.
//! What the system answers, and that a file's device and number are what its metadata have, is only tested.
#![tactic(auto)]

mod dir_ends;
mod fault;
mod host;
mod node;
mod open_fault;
mod opens;
mod questions;
mod ready;
mod seen;
mod system;

pub use dir_ends::DirEnds;
pub use fault::PrepareFault;
pub use node::{About, FileKind, Node};
pub use open_fault::{End, OpenFault, Stream};
pub use opens::Opens;
pub use questions::Questions;
pub use ready::{EndNames, Prepared, prepare};
pub use system::System;
