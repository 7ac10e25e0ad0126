//! Lists of output values that came before, each one once: what tells a duplicate.
//!
//! Its promise: a set tells exactly whether it has a list, and what one more list does to it, also where no memory may
//! be taken. The first row of each list is defined here.
#![tactic(auto)]

mod outputs;
mod placed;

pub use outputs::Outputs;
