//! Going on in an index behind an entry.

ghost use Rattle.std.specs.Prelude.{◌≡◌, ◌≤◌, drop, length};
ghost use Rattle.std.specs.List.{filter};
ghost use Rattle.rs_catalog.specs.After.{entries_within, first_entry, is_behind};
ghost use Rattle.rs_catalog.specs.Indexes.{EntriesInOrder};

use rs_rank::ScoredRow;

/// The place of the first entry behind a score and a row, or the number of entries where there is none. Entries are in order, so
/// it is found by halving.
pub(crate) fn place_behind(ranking: &[ScoredRow], after: Option<(u32, u32)>) -> usize
    requires { EntriesInOrder ranking.now }
    ensures within { result ≤ length ranking.now }
    ensures behind { filter (is_behind after) ranking.now ≡ drop result ranking.now }
{
    match after {
        None => 0,
        Some((score, row)) => ranking.partition_point(|entry| !is_behind(entry, score, row)),
    }
}

/// Whether an entry comes behind a score and a row.
fn is_behind(entry: &ScoredRow, score: u32, row: u32) -> bool
    ensures { result ≡ is_behind (Some (score, row)) entry.now }
{
    entry.score < score || (entry.score == score && row < entry.row)
}

/// The score and the row of the first entry whose row is among the first so many.
pub(crate) fn first_within(entries: &[ScoredRow], rows: u32) -> Option<(u32, u32)>
    ensures { result ≡ first_entry (entries_within rows entries.now) }
{
    for entry in entries {
        if entry.row <= rows {
            return Some((entry.score, entry.row));
        }
    }
    None
}
