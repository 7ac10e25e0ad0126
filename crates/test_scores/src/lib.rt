//! Tests of known scores: files of them, names of predicates, the lines that are written of them, a scorer over them, files that are fetched once, and
//! tables that are read once.
//!
//! They show what no clause says: that calls succeed where there is ample memory, and that they mean what a user would
//! expect. The expected values are worked out by hand from the definitions, as Python's `csv` reads and writes records.
#![tactic(auto)]

#[cfg(test)]
mod fetched;
#[cfg(test)]
mod known_by;
#[cfg(test)]
mod lines;
#[cfg(test)]
mod names;
#[cfg(test)]
mod read;
#[cfg(test)]
mod scorer;
#[cfg(test)]
mod tables_read;
