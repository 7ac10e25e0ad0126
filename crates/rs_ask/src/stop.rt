use rs_value::{List, Memory};

/// What stops it beside the end of a run.
#[derive(Debug, Drop)]
pub enum Stop {
    /// A run over more scores didn't begin with what was put already, though it had memory.
    Differs,
    /// A put of rows failed.
    Write,
    /// The put of this line failed, which is that of a score that was read. So it isn't kept, or only a part of it.
    Lost(List<u8>),
    Memory,
}

impl From<Memory> for Stop {
    ghost use Rattle.std.specs.Prelude.{◌≡◌};
    ghost use Rattle.rs_ask.specs.declared.stop.Stop.TheVariants.{Memory};

    ghost from_gives = { λ _ stop. stop ≡ Memory };

    fn from(_: Memory) -> Stop {
        Stop::Memory
    }
}
