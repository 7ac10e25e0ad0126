//! Typing: what an expression is, or the first rule that it breaks.
//!
//! Its promise: an expression is typed by the rules, over whatever its columns stand for, or refused by the first rule
//! that it breaks, with its place.
#![tactic(auto)]

mod fault;
mod laws;
mod rules;
mod scope;
mod typed;
mod typing;

pub use fault::{BindFault, Why};
pub use laws::expressions_are_typed_by_rules;
pub use rules::{number, span_of, truth};
pub use scope::{Parameters, Scope, span_of_column};
pub use typed::Typed;
pub use typing::type_node;
