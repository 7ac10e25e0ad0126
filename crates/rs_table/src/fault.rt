use rs_value::Memory;
use std::alloc::AllocFailed;
use thiserror::Error;

/// Why a file is no table. Rows and columns count from 1, and the header is row 0.
#[derive(Debug, Drop, Error, PartialEq, Eq)]
pub enum TableFault {
    #[error("the file has no header")]
    NoHeader,
    #[error("the header differs from the schema at column {column}")]
    HeaderDiffers { column: u32 },
    #[error("row {row} has {found} fields")]
    FieldCount { row: u32, found: u32 },
    #[error("row {row}, column {column} isn't UTF-8")]
    NotUtf8 { row: u32, column: u32 },
    #[error("row {row}, column {column} is no number in range")]
    NotInt { row: u32, column: u32 },
    #[error("the file has more than 131,072 rows")]
    TooManyRows,
    #[error("there is no memory for the table")]
    Memory,
    #[error("the header has no such column")]
    NoColumn,
    #[error("the header has {found} columns")]
    TooManyColumns { found: u32 },
}

impl From<Memory> for TableFault {
    ghost use Rattle.std.specs.Prelude.{◌≡◌};
    ghost use Rattle.rs_table.specs.declared.fault.TableFault.TheVariants.{Memory};

    ghost from_gives = { λ _ fault. fault ≡ Memory };

    fn from(_: Memory) -> TableFault {
        TableFault::Memory
    }
}

impl<T: Drop> From<AllocFailed<T>> for TableFault {
    ghost use Rattle.std.specs.Prelude.{◌≡◌};
    ghost use Rattle.rs_table.specs.declared.fault.TableFault.TheVariants.{Memory};

    ghost from_gives = { λ _ fault. fault ≡ Memory };

    fn from(_: AllocFailed<T>) -> TableFault {
        TableFault::Memory
    }
}
