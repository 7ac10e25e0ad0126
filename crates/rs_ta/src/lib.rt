//! The threshold scan over ranked lists of the rows of one table: the threshold algorithm of Fagin, Lotem and Naor (Optimal
//! aggregation algorithms for middleware, PODS 2001), with sorted and random accesses, each counted.
//!
//! Its promise: a scan gives the rows for which a test holds by falling sums, and makes exactly the accesses that the answers take:
//! how deep it goes into each list, and which rows it looks up, is defined over the finished lists and the rows for which the test holds,
//! and nothing else. Over the rank indexes of an eligible block its rows are the answer of the block.
#![tactic(auto)]

mod access_counts;
mod block_laws;
mod block_test;
mod eligible;
mod index_lists;
mod laws;
mod lists;
mod lookup;
mod mem_lists;
mod round;
mod row_test;
mod scan;
mod seen_rows;
mod terms;

pub use block_laws::{eligible_blocks_can_be_scanned, threshold_scans_give_the_answer};
pub use block_test::BlockTest;
pub use eligible::eligible_indexes;
pub use index_lists::IndexLists;
pub use laws::{
    depths_decide_the_sums_of_accesses, depths_grow, new_scan_stands, rows_are_looked_up_once,
    thresholds_and_answers_rise,
};
pub use lists::{Lists, Lookup};
pub use mem_lists::MemLists;
pub use row_test::RowTest;
pub use scan::ThresholdScan;
