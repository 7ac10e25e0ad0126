//! Scans: what gives the rows of a table, or of a rank index, one after another. A scan is over a view, the first rows of its
//! table. Rows that join the table later are not in it.
//!
//! Its promise: a scan gives the first rows of its table, or those of its index, one after another, and its rows can be
//! the input of an operator.
#![tactic(auto)]

mod laws;
mod rank_scan;
mod row;
mod seq_scan;

pub use laws::{index_rows_can_be_input, table_rows_can_be_input};
pub use rank_scan::RankScan;
pub use seq_scan::SeqScan;
