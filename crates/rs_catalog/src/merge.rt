//! The merge of rows with others, each in the stable order.

ghost use Rattle.std.specs.Prelude.{◌≡◌, ◌≤◌, ◌+◌, ◌++◌, length, vec_capacity};
ghost use Rattle.rs_rank.specs.Stable.{stable};

use rs_rank::ScoredRow;

/// Puts other rows at their places in rows, where both are in the stable order: of equal scores behind the rows that were there.
/// There is to be room for them, and it takes no memory. From the last one on each finds its place by halving, and the rows behind
/// that place move to where they stay. So a row moves once at most, and those in front of all new ones don't.
pub(crate) fn merge_rows(rows: &mut Vec<ScoredRow>, others: &[ScoredRow])
    requires rows { stable (λ row. row.score) rows.old.items ≡ rows.old.items }
    requires others { stable (λ row. row.score) others.now ≡ others.now }
    requires room { length rows.old.items + length others.now ≤ vec_capacity rows.old }
    ensures { rows.new.items ≡ stable (λ row. row.score) (rows.old.items ++ others.now) }
{
    let mut end = rows.len();
    let mut left = others.len();
    // There is room, so this doesn't fail. What it writes there is written over.
    let _ = rows.extend_from_slice(others);
    while left > 0 {
        let other = others[left - 1];
        let place = rows[..end].partition_point(|row| other.score <= row.score);
        rows.copy_within(place..end, place + left);
        rows[place + left - 1] = other;
        end = place;
        left -= 1;
    }
}
