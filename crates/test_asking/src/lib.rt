//! Tests of runs whose missing scores are asked for: which lines are answers, and what is put, asked and kept where runs miss
//! scores one after another.
//!
//! They show what no clause says: that it goes well where there is ample memory. The expected values are worked out by hand.
#![tactic(auto)]

#[cfg(test)]
mod answers;
#[cfg(test)]
mod asked;
#[cfg(test)]
mod failing;
#[cfg(test)]
mod planned;
#[cfg(test)]
mod told;
