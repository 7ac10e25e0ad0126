ghost use Rattle.std.specs.Prelude.{◌≡◌};
ghost use Rattle.rs_catalog.specs.Indexes.{is_for, same_arg, same_args};

use rs_value::{List, Memory, Text};
use std::alloc::AllocFailed;

/// An argument of a predicate, bound to the columns of a query. Columns count from 0.
#[derive(Debug, Drop, PartialEq, Eq)]
pub enum BoundArg {
    /// A FROM entry, counted from 1, and a column of its table. In an index the entry is 1.
    Column(u8, u8),
    Int(i64),
    Text(Text),
}

impl BoundArg {
    /// Whether an argument of a query is this one of an index: the same column, of FROM entry `entry` and of entry 1, or
    /// an equal constant.
    fn is_that_of_index(&self, entry: u8, other: &BoundArg) -> bool
        ensures { result ≡ same_arg entry self.now other.now }
    {
        match (self, other) {
            (BoundArg::Column(from, column), BoundArg::Column(of, other)) => {
                *from == entry && *of == 1 && column == other
            }
            (BoundArg::Int(number), BoundArg::Int(other)) => number == other,
            (BoundArg::Text(text), BoundArg::Text(other)) => text == other,
            _ => false,
        }
    }
}

/// What a rank index is of: the scores of a predicate for the rows of a table. Tables and predicates count from 0.
#[derive(Debug, Drop)]
pub struct IndexDef {
    pub name: Text,
    pub table: u8,
    pub predicate: u8,
    pub args: List<BoundArg>,
}

impl IndexDef {
    /// Whether the index is of this table and predicate and these arguments, where a column of FROM entry `entry` is read
    /// as that of entry 1.
    pub(crate) fn is_for(&self, table: u8, predicate: u8, args: &[BoundArg], entry: u8) -> bool
        ensures { result ≡ is_for table predicate args.now entry self.now }
    {
        self.table == table
            && self.predicate == predicate
            && are_those_of_index(args, entry, self.args.items())
    }
}

/// Whether the arguments of a query are those of an index, one by one.
fn are_those_of_index(args: &[BoundArg], entry: u8, others: &[BoundArg]) -> bool
    ensures { result ≡ same_args entry args.now others.now }
{
    args.len() == others.len()
        && args
            .iter()
            .zip(others)
            .all(|(arg, other)| arg.is_that_of_index(entry, other))
}

/// Why a rank index was not made.
#[derive(Clone, Copy, Debug, PartialEq, Eq)]
pub enum IndexFault {
    /// The number that was answered for the row is no score: it lies outside 0 to `max`. Rows count from 1.
    BadScore { row: u32, got: i128, max: u32 },
    /// A call of the scorer failed.
    Probe,
    Memory,
}

impl From<Memory> for IndexFault {
    ghost use Rattle.std.specs.Prelude.{◌≡◌};
    ghost use Rattle.rs_catalog.specs.declared.index.IndexFault.TheVariants.{Memory};

    ghost from_gives = { λ _ fault. fault ≡ Memory };

    fn from(_: Memory) -> IndexFault {
        IndexFault::Memory
    }
}

impl<T: Drop> From<AllocFailed<T>> for IndexFault {
    ghost use Rattle.std.specs.Prelude.{◌≡◌};
    ghost use Rattle.rs_catalog.specs.declared.index.IndexFault.TheVariants.{Memory};

    ghost from_gives = { λ _ fault. fault ≡ Memory };

    fn from(_: AllocFailed<T>) -> IndexFault {
        IndexFault::Memory
    }
}
