ghost use Rattle.std.specs.Prelude.{◌≡◌, ◌≤◌, IfOk, IsSome, None, OnErr, OnOk, length, option_map, Ok, []};
ghost use Rattle.std.specs.Cmp.Lexicographic.{pointwise};
ghost use Rattle.rs_value.specs.Answer.{Gives};
ghost use Rattle.rs_table.specs.Reading.{table_of};
ghost use Rattle.rs_scores.specs.KnownTables.{is_read_of, is_same_column, is_same_kind, table_read_of, tables_with};

use rs_table::{Schema, Table, TableFault, TableReader};
use rs_value::{Kind, Memory, Text};
use std::alloc::Global;
use std::hash::RandomState;
use std::marker::Model;

/// A table, and the bytes that it was read of.
#[derive(Drop)]
struct TableRead {
    bytes: Vec<u8>,
    table: Table,
}

impl Model for TableRead {
    ghost use Rattle.rs_scores.specs.KnownTables.{IsTableRead, TableRead};

    ghost Value = { TableRead };

    ghost view = { λ t. record { bytes = t.bytes.items; table = t.table } };

    ghost invariant = { λ t. IsTableRead (record { bytes = t.bytes.items; table = t.table }) };
}

/// Tables of which each is read once: where the same bytes are read again, with the same columns, the table is a copy.
#[derive(Drop)]
pub struct KnownTables {
    tables: Vec<TableRead>,
}

impl Model for KnownTables {
    ghost use Rattle.std.specs.Prelude.{List};
    ghost use Rattle.rs_scores.specs.KnownTables.{TableRead};

    ghost Value = { List TableRead };

    ghost view = { λ k. k.tables.items };
}

/// Whether two kinds are one.
fn is_same_kind(kind: Kind, other: Kind) -> bool
    ensures { result ≡ is_same_kind kind other }
{
    match (kind, other) {
        (Kind::Int, Kind::Int) | (Kind::Text, Kind::Text) => true,
        _ => false,
    }
}

/// Whether these are the same columns.
fn same_columns(columns: &[(Text, Kind)], others: &[(Text, Kind)]) -> bool
    ensures { result ≡ pointwise is_same_column columns.now others.now }
{
    match (columns, others) {
        ([], []) => true,
        ([first, rest @ ..], [other, more @ ..]) => {
            first.0.bytes() == other.0.bytes()
                && is_same_kind(first.1, other.1)
                && same_columns(rest, more)
        }
        _ => false,
    }
}

impl TableRead {
    /// Whether the table was read of these bytes, with these columns.
    fn is_of(&self, schema: &Schema, bytes: &[u8]) -> bool
        ensures { result ≡ is_read_of schema.now bytes.now self.now }
    {
        same_columns(self.table.schema().columns(), schema.columns())
            && self.bytes.as_slice() == bytes
    }
}

impl KnownTables {
    /// No table was read yet. It takes no memory.
    pub fn new(alloc: Global) -> KnownTables
        ensures { result ≡ [] }
    {
        KnownTables {
            tables: Vec::new(alloc),
        }
    }

    /// What was read of these bytes with these columns.
    fn read_of(&self, schema: &Schema, bytes: &[u8]) -> Option<&TableRead>
        ensures { option_map (λ read. read.now) result ≡ table_read_of schema.now bytes.now self.now }
    {
        self.tables.iter().find(|read| read.is_of(schema, bytes))
    }

    /// Keeps a copy of a table that was read of these bytes.
    fn keep(&mut self, alloc: Global, table: &Table, bytes: &[u8]) -> Result<(), Memory>
        requires { table_of table.now.schema bytes.now ≡ Ok table.now }
        ensures ok { OnOk result (self.new ≡ tables_with table.now bytes.now self.old) }
        ensures err { OnErr result (self.new ≡ self.old) }
    {
        let table = table.copy()?;
        let mut kept = Vec::new(alloc);
        kept.extend_from_slice(bytes)?;
        self.tables.push(TableRead { bytes: kept, table })?;
        Ok(())
    }
}

impl TableReader for KnownTables {
    fn read_table(
        &mut self,
        alloc: Global,
        hash_keys: RandomState,
        schema: Schema,
        bytes: &[u8],
    ) -> Result<Table, TableFault>
        requires { length bytes.now ≤ 33554432 }
        ensures gives { Gives TableFault.Memory (table_of schema bytes.now) result }

        // A table that was read is read no more.
        ensures known { IsSome (table_read_of schema bytes.now self.old) → self.new ≡ self.old }
        ensures reads { table_read_of schema bytes.now self.old ≡ None → IfOk result (λ table. self.new ≡ tables_with table bytes.now self.old) }
        ensures same { OnErr result (self.new ≡ self.old) }
    {
        if let Some(read) = self.read_of(&schema, bytes) {
            return Ok(read.table.copy()?);
        }
        let table = Table::read(alloc, hash_keys, schema, bytes)?;
        self.keep(alloc, &table, bytes)?;
        Ok(table)
    }
}
