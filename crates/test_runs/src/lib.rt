//! Tests of runs that lines of text can't tell: those in which memory ends.
#![tactic(auto)]

#[cfg(test)]
mod tests;
