use crate::known_script::KnownScript;
use rs_table::TablesRead;

/// What reads a script and its tables.
#[derive(Drop)]
pub struct Readers<T> {
    pub script: KnownScript,
    pub tables: T,
}

impl Readers<TablesRead> {
    /// Those that read all anew.
    pub fn new() -> Readers<TablesRead> {
        Readers {
            script: KnownScript::new(),
            tables: TablesRead,
        }
    }
}
