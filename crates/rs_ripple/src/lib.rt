//! The core of a rank join. It draws the rows of two sides, each in the order of its keys, and gives the pairs that
//! were found among them in the order of their keys, each once it comes at or before the thresholds of both sides: no
//! pair still to come can precede it then.
//!
//! Its promise: which side it asks, by the thresholds of both; what it gives; exactly which asks it makes, in which
//! order; and which pairs of the rows drawn a join holds.
#![tactic(auto)]

mod join_laws;
mod laws;
mod ripple;
mod side;

pub use join_laws::{
    left_row_is_fed, new_join_stands, right_row_is_fed, side_of_join_ends, standing_join_fits,
    taken_join_stands,
};
pub use laws::{
    answers_rise, asks_of_core_are_exact, left_row_is_drawn, new_core_stands,
    ready_answers_are_certain, right_row_is_drawn, schedule_has_the_asks, side_ends,
    taken_core_stands,
};
pub use ripple::RippleCore;
pub use side::{Drawn, Input, Side};
