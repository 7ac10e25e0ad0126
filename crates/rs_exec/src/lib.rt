//! The executor. A cursor gives the rows of a query's answer one after another, in the order of a plan: each is asked for only
//! once it is wanted, and the scorer is called only where the plan's operators need it. It executes each valid plan.
//!
//! Its promise: a cursor gives the rows of its plan's list one after another, and makes exactly the calls of each ask,
//! in order. Any two plans of a query have the same rows; up to LIMIT these are the query's answer.
#![tactic(auto)]

mod calls_laws;
mod context;
mod cursor;
mod distinct;
mod distinct_laws;
mod fault;
mod held;
mod join;
mod join_core;
mod join_laws;
mod laws;
mod node;
mod rank;
mod scan;
mod set;
mod set_core;
mod set_laws;
mod start;
mod tally;

pub use calls_laws::{calls_certify_rows, greater_answers_call_no_more};
pub use cursor::Cursor;
pub use distinct_laws::distinct_gives_the_first_rows;
pub use fault::ExecFault;
pub use held::indexes_of_plans_hold_answers;
pub use join_laws::{joins_ask_their_sides, joins_give_the_pairs_that_match};
pub use laws::{
    cursors_stand_in_larger_catalogues, plans_ask_the_same_in_larger_catalogues,
    plans_give_the_answer, plans_give_the_same_rows, rows_give_the_parts_in_turn,
};
pub use set_laws::{set_operators_ask_their_sides, set_operators_give_the_rows_of_both_sides};
