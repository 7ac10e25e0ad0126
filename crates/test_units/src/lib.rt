//! Tests of single crates that lines of text can't tell: files and sinks, generated files, scorers, rows that join tables and
//! what is seen of these as they were, merged rows, the cores of the rank operator and of rank joins, rows of a block that no
//! answer has, and a queue for which memory ends. The others are lines of the programs of cases.
//!
//! They show what no clause says: that calls succeed where there is ample memory, and that they mean what a user would
//! expect. They stand here and not in the crates that they are of, since a crate with tests is proved twice, and together,
//! since each crate of tests is read once more.
#![tactic(auto)]

#[cfg(test)]
mod columns;
#[cfg(test)]
mod generated;
#[cfg(test)]
mod growth;
#[cfg(test)]
mod hashed;
#[cfg(test)]
mod joined;
#[cfg(test)]
mod mu;
#[cfg(test)]
mod nested;
#[cfg(test)]
mod outside;
#[cfg(test)]
mod parts;
#[cfg(test)]
mod queue;
#[cfg(test)]
mod rank;
#[cfg(test)]
mod readers;
#[cfg(test)]
mod refused;
#[cfg(test)]
mod ripple;
#[cfg(test)]
mod rows;
#[cfg(test)]
mod scorers;
#[cfg(test)]
mod snapshots;
#[cfg(test)]
mod tables;
