//! Tests of the join of two feeds, and of what is put and certified of it. They ask what no clause says: that calls succeed with ample
//! memory, and that the definitions mean what was meant.
#![tactic(auto)]

#[cfg(test)]
mod cases;
#[cfg(test)]
mod joins;
#[cfg(test)]
mod memory;
#[cfg(test)]
mod pairs;
#[cfg(test)]
mod random;
