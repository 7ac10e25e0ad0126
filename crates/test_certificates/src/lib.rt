//! Tests of feeds and of certificates. They ask what no clause says: that calls succeed with ample memory, and that the definitions
//! mean what was meant.
#![tactic(auto)]

#[cfg(test)]
mod changed;
#[cfg(test)]
mod feeds;
#[cfg(test)]
mod verdicts;
