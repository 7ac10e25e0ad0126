//! The core of the hash rank join. It keeps the rows drawn of both sides by their join values, and tries each new row
//! against those rows of the other side that have equal ones.
//!
//! Its promise: it holds all pairs of its rows that match and weren't given, each once, and asks the matcher of rows
//! with equal join values alone.
#![tactic(auto)]

mod drawn;
mod hashed;

pub use hashed::Hrjn;
