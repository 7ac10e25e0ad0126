//! A large input that is made from a number: three tables, and a script that searches them.
//!
//! Its promise: the files are those of the definition, byte by byte.
#![tactic(auto)]

mod files;
mod statements;
mod tables;

pub use files::generate;
