ghost use Rattle.std.specs.Prelude.{◌≡◌, option_map, IfOk};
ghost use Rattle.rs_feed_join.specs.Ranked.{row_of, same_text, same_texts};
ghost use Rattle.rs_value.specs.Faults.{raised};

use rs_feed::FeedRow;
use rs_rank::{Matcher, RankRow};
use rs_value::Memory;

/// What rows of two feeds match by: their texts. A join that has their texts as join values doesn't ask it.
#[derive(Drop)]
pub(crate) struct SameTexts<'a> {
    pub(crate) lefts: &'a [FeedRow],
    pub(crate) rights: &'a [FeedRow],
    pub(crate) calls: u64,
}

/// The row of a number, from 1.
fn row_of(rows: &[FeedRow], number: u32) -> Option<&FeedRow>
    ensures { option_map (λ row. row.now) result ≡ row_of rows.now number }
{
    if number == 0 {
        return None;
    }
    rows.get(number as usize - 1)
}

/// Whether both rows are there and have the same text.
fn same_text(left: Option<&FeedRow>, right: Option<&FeedRow>) -> bool
    ensures { result ≡ same_text (option_map (λ row. row.now) left.entry) (option_map (λ row. row.now) right.entry) }
{
    match (left, right) {
        (Some(left), Some(right)) => left.join == right.join,
        _ => false,
    }
}

impl<'a> Matcher for SameTexts<'a> {
    ghost truth = { λ texts. same_texts texts.lefts.now texts.rights.now };

    ghost calls = { λ texts. texts.calls };

    fn matches(&mut self, left: &RankRow, right: &RankRow) -> Result<bool, Memory> {
        self.calls = self.calls.saturating_add(1);
        Ok(same_text(
            row_of(self.lefts, left.ids.rows[0]),
            row_of(self.rights, right.ids.rows[1]),
        ))
    }
}
