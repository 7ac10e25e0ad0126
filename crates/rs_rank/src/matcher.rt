ghost use Rattle.std.specs.Prelude.{◌≡◌, ℕ, Bool, IfOk};
ghost use Rattle.rs_rank.specs.declared.row.RankRow.{RankRow};
ghost use Rattle.rs_value.specs.Faults.{raised};

use crate::row::RankRow;
use rs_value::Memory;

/// What decides whether a left row and a right row match. Its calls are counted.
pub trait Matcher {
    /// Whether the two rows match. No call changes it.
    ghost truth: { Self → RankRow → RankRow → Bool };

    /// How many calls were made. It stands still at 2^64 - 1.
    ghost calls: { Self → ℕ };

    /// Whether the two rows match. Each call counts, also one that answers `Memory`.
    ///
    /// # Errors
    ///
    /// - `Memory`: at any call.
    fn matches(&mut self, left: &RankRow, right: &RankRow) -> Result<bool, Memory>
        ensures answer { IfOk result (λ answer. answer ≡ truth self.old left.now right.now) }
        ensures truth { truth self.new ≡ truth self.old }
        ensures calls { calls self.new ≡ raised (calls self.old) };
}
