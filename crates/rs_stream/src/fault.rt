use rs_value::Memory;
use std::alloc::AllocFailed;

/// Why there is no answer to what the next record is.
#[derive(Clone, Copy, Debug, PartialEq, Eq)]
pub enum RecordFault {
    /// A read failed.
    Failed,
    Memory,
}

/// Why a stream gives no more rows. Records are counted from 1, which is the one with the names of the columns.
#[derive(Clone, Copy, Debug, PartialEq, Eq)]
pub enum StreamFault {
    /// A read failed.
    Failed,
    /// The stream ended in front of the record `end,end`.
    BrokenOff,
    /// The first record isn't `key,score`.
    Header,
    /// This record is no row.
    NoRow { record: u64 },
    /// The score of this record is none of 0 to 4,294,967,295.
    Range { record: u64, got: i64 },
    Memory,
}
