//! Tokens of a script, each with its place.
//!
//! Its promise: the tokens are those that the script spells, or the fault is at the first place at which it spells
//! none.
#![tactic(auto)]

mod fault;
mod front;
mod laws;
mod lexer;
mod token;

pub use fault::LexFault;
pub use laws::{
    each_script_is_lexed_or_refused, faults_are_refused, gaps_are_passed, one_list_of_tokens,
    refusals_are_faults, spelled_is_not_refused, tokens_are_longest, tokens_are_taken,
    tokens_are_tokens, tokens_end,
};
pub use lexer::{MOST_BYTES, MOST_TOKENS, tokens};
pub use token::{Sort, Span, Token};
