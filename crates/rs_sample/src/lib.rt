//! Samples of the tables of a query, and what planning expects by them: how many rows each part of a plan gives.
//!
//! Its promise: which rows are sampled, by exactly which calls, and the estimates that planning asks for, are as
//! defined for the seed.
#![tactic(auto)]

mod ask;
mod bound;
mod cards;
mod choices;
mod combinations;
mod count;
mod cutoff;
mod draw;
mod estimates;
mod fault;
mod index;
mod lookup;
mod quotient;
mod sample;
mod truths;

pub use cards::Cards;
pub use fault::SampleFault;
