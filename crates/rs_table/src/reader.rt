use crate::fault::TableFault;
use crate::schema::Schema;
use crate::table::Table;
use std::alloc::Global;
use std::hash::RandomState;

/// What makes tables of the bytes of CSV files.
pub trait TableReader {
    ghost use Rattle.std.specs.Prelude.{◌≤◌, length};
    ghost use Rattle.rs_value.specs.Answer.{Gives};
    ghost use Rattle.rs_table.specs.Reading.{table_of};

    /// The table of a CSV file, or why it is none, as `Table::read` says it.
    ///
    /// # Errors
    ///
    /// - Those of `Table::read`: exactly where it gives them of these bytes and columns, but for `Memory`, which may come at
    ///   any call.
    fn read_table(
        &mut self,
        alloc: Global,
        hash_keys: RandomState,
        schema: Schema,
        bytes: &[u8],
    ) -> Result<Table, TableFault>
        requires { length bytes.now ≤ 33554432 }
        ensures { Gives TableFault.Memory (table_of schema bytes.now) result };
}

/// Reads each table of its bytes.
#[derive(Drop)]
pub struct TablesRead;

impl TableReader for TablesRead {
    fn read_table(
        &mut self,
        alloc: Global,
        hash_keys: RandomState,
        schema: Schema,
        bytes: &[u8],
    ) -> Result<Table, TableFault> {
        Table::read(alloc, hash_keys, schema, bytes)
    }
}
