ghost use Rattle.std.specs.Prelude.{◌≡◌, ℕ, OnOk, OnErr};
ghost use Rattle.rs_rank.specs.Stable.{stable};

use rs_value::Memory;
use std::cmp::Reverse;

/// What has a score.
pub trait Scored {
    ghost score_of: { Self → ℕ };

    fn score(&self) -> u64
        ensures { result ≡ score_of self.now };
}

/// Puts rows into the stable order: greatest score first, and rows of equal scores as they stood.
///
/// # Errors
///
/// - `Memory`: at any call; the rows stay as they were.
pub fn sort_stably<T: Scored>(rows: &mut Vec<T>) -> Result<(), Memory>
    ensures ok { OnOk result (rows.new.items ≡ stable T.score_of rows.old.items) }
    ensures err { OnErr result (rows.new.items ≡ rows.old.items) }
{
    rows.sort_by_key(|row| Reverse(row.score()))?;
    Ok(())
}
