ghost use Rattle.std.specs.Prelude.{◌≡◌, false, true, IfOk, OnOk, OnErr};
ghost use Rattle.rs_outputs.specs.Seen.{with_list};
ghost use Rattle.rs_filter.specs.Distinct.{given_for, new_distinct};

use rs_outputs::Outputs;
use rs_rank::RankRow;
use rs_value::{Memory, Value};
use std::alloc::Global;
use std::marker::Model;

/// The core of DISTINCT: of the rows that it is fed one after another it gives the first of each list of output values. It
/// knows no input.
///
/// After a call that answered `Memory` it is spent, and no further call is allowed.
#[derive(Drop)]
pub struct DistinctCore {
    // The output values of the rows that were fed.
    seen: Outputs,
    spent: bool,
}

impl Model for DistinctCore {
    ghost use Rattle.rs_filter.specs.Distinct.{Distinct};

    ghost Value = { Distinct };

    ghost view = { λ d. record { lists = d.seen.lists; spent = d.spent } };
}

impl DistinctCore {
    /// No row was fed. It takes no memory.
    pub fn new(alloc: Global) -> DistinctCore
        ensures { result ≡ new_distinct }
    {
        DistinctCore {
            seen: Outputs::new(alloc),
            spent: false,
        }
    }

    /// Takes the next row, and its output values. Gives it back where no earlier row had these values.
    ///
    /// # Errors
    ///
    /// - `None`: exactly where an earlier row had these values.
    /// - `Memory`: at any call; the operator is spent from then on.
    pub fn feed(&mut self, row: RankRow, values: Vec<Value>) -> Result<Option<RankRow>, Memory>
        requires { self.old.spent ≡ false }
        ensures row { IfOk result (λ given. given ≡ given_for row values.items self.old.lists) }
        ensures ok { OnOk result (self.new ≡ record self.old { lists = with_list values.items self.old.lists }) }
        ensures err { OnErr result (self.new ≡ record self.old { spent = true }) }
    {
        match self.seen.add(values) {
            Ok(true) => Ok(Some(row)),
            Ok(false) => Ok(None),
            Err(Memory) => {
                self.spent = true;
                Err(Memory)
            }
        }
    }
}
