//! Tests of plans, and of filters. They ask what no clause says: that calls succeed with ample memory, and that
//! the definitions mean what was meant.
#![tactic(auto)]

#[cfg(test)]
mod filters;
#[cfg(test)]
mod plans;
#[cfg(test)]
mod query;
#[cfg(test)]
mod tree;
