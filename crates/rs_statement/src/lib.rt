//! What one statement of a script does: it makes a table, a predicate or a rank index, puts rows into a table, answers or explains
//! a query, or opens, asks or closes a cursor. It says with which faults runs end, too.
//!
//! Its promise: a statement's fetches, calls and puts, in order, the catalogue and open cursors that it leaves, or the
//! fault that ends the run, are as defined; so is the line of each fault. A fault ends the run: no clause says what the catalogue and the
//! cursors are behind one, but for INSERT, which leaves the catalogue as it was.
#![tactic(auto)]

mod analyzed;
mod create;
mod evaluating;
mod explained;
mod fault;
mod file;
mod insert;
mod laws;
mod named;
mod planned;
mod planned_query;
mod planning;
mod put;
mod query;
mod sampling;
mod script_fault;
mod select;
mod session;

pub use create::{create_index, create_predicate, create_table};
pub use evaluating::Evaluating;
pub use fault::{Fault, SessionFault, index_fault, only_row};
pub use file::{fetch_file, table_fault};
pub use insert::insert_rows;
pub use laws::{
    guesses_call_nobody, queries_put_all_lines_of_their_answers,
    queries_put_the_first_lines_of_their_answers,
};
pub use named::Named;
pub use put::put_rows;
pub use query::query_fault;
pub use sampling::Sampling;
pub use script_fault::ScriptFault;
pub use select::{run_analyze, run_explain, run_select};
pub use session::{Session, close, declare, fetch, release, session_fault};
