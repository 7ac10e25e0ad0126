//! The core of the nested rank join. It keeps the rows drawn of both sides, and tries each new row against all those of
//! the other side.
//!
//! Its promise: it holds all pairs of its rows that match and weren't given, each once.
#![tactic(auto)]

mod nested;

pub use nested::Nrjn;
