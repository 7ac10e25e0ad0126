//! The core of the rank operator. It evaluates one more term of each row that it is fed, and gives the rows in the order
//! of their new keys, each once its key comes at or before that of the last row that it was fed: no row still to come can
//! precede it then.
//!
//! Its promise: when it is ready, what it gives, and exactly how far it asks into its input.
#![tactic(auto)]

mod laws;
mod mu;

pub use laws::{
    answers_can_be_input, asks_grow_with_answers, asks_of_core_are_exact, ended_core_stands,
    fed_core_stands, new_core_stands, ready_answers_are_certain, taken_core_stands,
};
pub use mu::MuCore;
