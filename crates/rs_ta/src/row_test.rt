ghost use Rattle.std.specs.Prelude.{◌≡◌, ℕ, Bool, IfOk};
ghost use Rattle.rs_ta.specs.Lists.{IsRow};

use rs_value::Memory;

/// A condition on the rows of a table, which count from 1.
pub trait RowTest {
    /// How many rows there are.
    ghost rows: { Self → ℕ };

    /// For which of them it holds.
    ghost truth: { Self → ℕ → Bool };

    /// Whether it holds for a row.
    ///
    /// # Errors
    ///
    /// - `Memory`: at any call.
    fn holds(&self, row: u32) -> Result<bool, Memory>
        requires { IsRow (rows self.now) row }
        ensures { IfOk result (λ holds. holds ≡ truth self.now row) };
}
