//! Tables that are read once.

use rs_scores::KnownTables;
use rs_table::{Schema, TableReader};
use rs_value::{Kind, Text};
use std::alloc::Global;
use std::hash::RandomState;
use std::process::Abort;
use std::test::Fail;

/// The kind of the column k, the bytes of a file, and how many rows are read, where it is a table.
type Read = (Kind, &'static [u8], Option<u32>);

const READS: [Read; 8] = [
    (Kind::Int, b"k\n1\n2\n", Some(2)),
    (Kind::Int, b"k\n1\n2\n", Some(2)),
    (Kind::Text, b"k\n1\n2\n", Some(2)),
    (Kind::Int, b"k\n1\n", Some(1)),
    (Kind::Int, b"k\nx\n", None),
    (Kind::Text, b"k\nx\n", Some(1)),
    (Kind::Int, b"k\nx\n", None),
    (Kind::Int, b"k\n1\n2\n", Some(2)),
];

fn assert_read(
    rt: &impl Abort,
    alloc: Global,
    hash_keys: RandomState,
    tables: &mut KnownTables,
    read: &Read,
) -> Result<(), Fail> {
    assert!(rt; read.1.len() <= 33_554_432);
    let name = Text::from_bytes(alloc, b"k")?;
    let columns = vec![in alloc; (name, read.0)]?;
    match tables.read_table(alloc, hash_keys, Schema::make(columns), read.1) {
        Ok(table) => {
            assert_eq!(rt; Some(table.len()), read.2);
            assert!(rt; table.schema().columns()[0].1 == read.0);
        }
        Err(_) => assert_eq!(rt; None, read.2),
    }
    Ok(())
}

#[test]
fn reads_the_tables_of_bytes(rt: HostRuntime) -> Result<(), Fail> {
    let hash_keys = RandomState::new(&rt)?;
    let mut tables = KnownTables::new(rt.alloc());
    for read in &READS {
        assert_read(&rt, rt.alloc(), hash_keys, &mut tables, read)?;
    }
    Ok(())
}
