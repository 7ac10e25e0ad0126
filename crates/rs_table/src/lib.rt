//! Tables of values, read from CSV files.
//!
//! Its promise: a table is the rows of the file's records, or the first thing that refuses them; the rows of every table
//! fit its columns; rows that join it stand behind its own, or the table stays as it was; and the number of a text is how
//! many different texts stand in its column before it does.
#![tactic(auto)]

mod cell;
mod cells;
mod columns;
mod fault;
mod field;
mod first_rows;
mod reader;
mod records;
mod schema;
mod sought;
mod table;
mod texts;

pub use cell::Cell;
pub use fault::TableFault;
pub use first_rows::FirstRows;
pub use reader::{TableReader, TablesRead};
pub use schema::{MOST_COLUMNS, Schema};
pub use table::{MOST_ROWS, Table};

/// The greatest number of bytes of a table's file.
pub const TABLE_LIMIT: usize = 33_554_432;

// A record has at most one field more than its file has bytes, and their number fits a `u32`.
const _: () = prove!(TABLE_LIMIT < u32::MAX as usize);
