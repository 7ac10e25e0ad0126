use rs_events::HaltFault;
use rs_feed_join::JoinFault;
use rs_outside::{FetchFault, SinkFault};
use rs_table::TableFault;
use rs_table_feed::RangeFault;
use rs_value::Memory;
use std::alloc::AllocFailed;

/// What ends a word early. Files are 1, the left one or the only one, and 2; and so are the sides of a join. A kept fault is never
/// want of memory.
#[derive(Debug, Drop, PartialEq, Eq)]
pub enum WordFault {
    /// A file was not read.
    Read {
        file: u8,
        fault: FetchFault,
    },
    /// Standard output failed.
    Write,
    /// A file is no table of a text and a number.
    Table {
        file: u8,
        fault: TableFault,
    },
    /// A number of a file's table is no score.
    Range {
        file: u8,
        fault: RangeFault,
    },
    /// The score of a drawn row, `got`, is greater than that of the row before it. Rows are counted from 1.
    Order {
        side: u8,
        row: u32,
        before: u32,
        got: u32,
    },
    /// More rows of a file were drawn than a certificate takes.
    CertTooLong {
        file: u8,
    },
    /// The records of a file are no certificate; this record, counted from 1, is the first that no certificate has there.
    CertForm {
        place: u32,
    },
    Memory,
}

impl From<Memory> for WordFault {
    ghost use Rattle.std.specs.Prelude.{◌≡◌};
    ghost use Rattle.rs_words.specs.declared.fault.WordFault.TheVariants as word;

    ghost from_gives = { λ _ fault. fault ≡ word.Memory };

    fn from(_memory: Memory) -> WordFault {
        WordFault::Memory
    }
}

impl<T: Drop> From<AllocFailed<T>> for WordFault {
    ghost use Rattle.std.specs.Prelude.{◌≡◌};
    ghost use Rattle.rs_words.specs.declared.fault.WordFault.TheVariants as word;

    ghost from_gives = { λ _ fault. fault ≡ word.Memory };

    fn from(_failed: AllocFailed<T>) -> WordFault {
        WordFault::Memory
    }
}

impl HaltFault for WordFault {
    ghost use Rattle.rs_words.specs.Faults.{put_faults};

    ghost faults = { put_faults };

    fn of_put(why: SinkFault) -> WordFault {
        match why {
            SinkFault::Failed => WordFault::Write,
            SinkFault::Memory => WordFault::Memory,
        }
    }
}

/// Why a put didn't go well.
#[derive(Clone, Copy, Debug, PartialEq, Eq)]
pub enum PutFault {
    /// Standard output failed.
    Write,
    Memory,
}

impl From<Memory> for PutFault {
    ghost use Rattle.std.specs.Prelude.{◌≡◌};
    ghost use Rattle.rs_words.specs.declared.fault.PutFault.TheVariants as put;

    ghost from_gives = { λ _ fault. fault ≡ put.Memory };

    fn from(_memory: Memory) -> PutFault {
        PutFault::Memory
    }
}

impl HaltFault for PutFault {
    ghost use Rattle.rs_words.specs.Putting.{pair_faults};

    ghost faults = { pair_faults };

    fn of_put(why: SinkFault) -> PutFault {
        match why {
            SinkFault::Failed => PutFault::Write,
            SinkFault::Memory => PutFault::Memory,
        }
    }
}

/// Why no more pairs of two feeds are put.
#[derive(Clone, Copy, Debug, PartialEq, Eq)]
pub enum PairsFault {
    /// The join gave no answer.
    Join(JoinFault),
    /// The next pair was not put.
    Put(PutFault),
}

impl From<JoinFault> for PairsFault {
    ghost use Rattle.std.specs.Prelude.{◌≡◌};
    ghost use Rattle.rs_words.specs.declared.fault.PairsFault.TheVariants as pairs;

    ghost from_gives = { λ why fault. fault ≡ pairs.Join why };

    fn from(why: JoinFault) -> PairsFault {
        PairsFault::Join(why)
    }
}

impl From<PutFault> for PairsFault {
    ghost use Rattle.std.specs.Prelude.{◌≡◌};
    ghost use Rattle.rs_words.specs.declared.fault.PairsFault.TheVariants as pairs;

    ghost from_gives = { λ why fault. fault ≡ pairs.Put why };

    fn from(why: PutFault) -> PairsFault {
        PairsFault::Put(why)
    }
}
