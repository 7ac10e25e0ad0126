//! Tests of the cores of set operators. They ask what no clause says: that calls succeed with ample memory, and that the
//! definitions mean what was meant.
#![tactic(auto)]

#[cfg(test)]
mod compared;
#[cfg(test)]
mod rows;
#[cfg(test)]
mod unions;
