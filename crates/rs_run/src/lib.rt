//! A run of `ranksql`: all that the command does.
//!
//! Its promise: the events of a run, its status and its line on standard error are as defined, for all words, files,
//! scorers and outputs.
#![tactic(auto)]

mod bound_query;
mod certificates;
mod command;
mod dialect;
mod fault;
mod feed;
mod generated;
mod known_script;
mod laws;
mod naming;
mod plain;
mod readers;
mod report;
mod statement;
mod threshold;
mod top;
mod view_laws;
mod viewing;
mod views;
mod words;

pub use command::{run, run_file};
pub use fault::{RunFault, ScriptWord};
pub use known_script::KnownScript;
pub use laws::{
    a_run_from_a_statement_is_the_rest, cursors_keep_their_rows, one_run, plain_and_run_agree,
    words_have_a_run,
};
pub use naming::unmade_predicate;
pub use readers::Readers;
pub use rs_events::Status;
pub use rs_statement::{Evaluating, Fault, Sampling, ScriptFault, SessionFault};
pub use view_laws::{
    fetches_of_views_put_what_plain_puts, fetches_of_views_put_what_selects_put,
    held_views_have_their_answers,
};
pub use words::number_word;
