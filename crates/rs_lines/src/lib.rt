//! The lines that a run prints, and the records of files of any length.
//!
//! Its promise: a line is that of the definition, byte by byte; and the records are read one after another, to the last one.
#![tactic(auto)]

mod records;
mod row;

pub use records::{next_record, reader_of};
pub use row::RowLines;
