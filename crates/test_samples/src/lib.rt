//! Tests of samples that lines of text can't tell: which rows are taken, by words that are drawn here, and what is left where
//! memory ends.
#![tactic(auto)]

#[cfg(test)]
mod memory;
#[cfg(test)]
mod query;
#[cfg(test)]
mod rows;
