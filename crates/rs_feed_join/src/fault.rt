use rs_value::Memory;

/// Why a join of two feeds gave no answer. Sides are 1, the left one, and 2.
#[derive(Clone, Copy, Debug, PartialEq, Eq)]
pub enum JoinFault {
    /// The score of a drawn row, `got`, is greater than that of the row before it. Rows are counted from 1.
    OutOfOrder {
        side: u8,
        row: u32,
        before: u32,
        got: u32,
    },
    /// The draw of a feed failed.
    Failed {
        side: u8,
    },
    /// A feed gave one row more than a join takes.
    TooLong {
        side: u8,
    },
    Memory,
    /// An earlier call failed.
    Broken,
}

impl From<Memory> for JoinFault {
    ghost use Rattle.std.specs.Prelude.{◌≡◌};
    ghost use Rattle.rs_feed_join.specs.declared.fault.JoinFault.TheVariants as fault;

    ghost from_gives = { λ memory given. given ≡ fault.Memory };

    fn from(_memory: Memory) -> JoinFault {
        JoinFault::Memory
    }
}
