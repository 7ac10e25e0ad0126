//! The words of the language and its grammar.
//!
//! Its promise: what each token is to the grammar; and that a reader of one token ahead reads exactly what the grammar
//! derives.
#![tactic(auto)]

mod kind;
mod lexeme;
mod word;

pub use kind::TokenKind;
pub use lexeme::{Lexeme, lexemes};
