//! The first rows of those that a view has and of new ones.

ghost use Rattle.std.specs.Prelude.{◌≡◌, ◌++◌, OnErr, OnOk};
ghost use Rattle.rs_view.specs.Keeping.{AreFirst, AreKept, key_of_row};

use crate::merge::{key_of, merge_in};
use rs_rank::RankRow;
use rs_value::Memory;

/// Puts new rows among those that there are, by falling scores and then by row numbers, and drops what is behind the first ones. The
/// new ones alone are sorted. Where there is no memory for them, nothing changes.
pub(crate) fn keep_first(
    rows: &mut Vec<RankRow>,
    more: Vec<RankRow>,
    most: u32,
) -> Result<(), Memory>
    requires { AreKept key_of_row most rows.old.items }
    ensures ok { OnOk result (AreFirst key_of_row most (rows.old.items ++ more.items) rows.new.items) }
    ensures err { OnErr result (rows.new.items ≡ rows.old.items) }
{
    let mut more = more;
    more.sort_unstable_by_key(|row| key_of(row));
    merge_in(rows, more)?;
    rows.truncate(most as usize);
    Ok(())
}
