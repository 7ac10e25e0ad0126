//! What the programs share whose cases are scripts: the statements of a script, and the tables and predicates that these make.
//!
//! Its promise: a statement that makes a table or a predicate adds just that to the catalogue, or nothing after a
//! fault.
#![tactic(auto)]

mod joining;
mod script;

pub use joining::{bind_fault, make};
pub use script::statements_of;
