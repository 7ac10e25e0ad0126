ghost use Rattle.std.specs.Prelude.{◌≡◌, ℕ, List, ◌∷◌, ◌++◌, [], IfOk, length, ◌<◌, ◌^◌, if◌then◌else◌};
ghost use Rattle.std.specs.Cmp.Lexicographic.{slice_cmp};
ghost use Rattle.std.specs.Ordering.{is_eq, nat_cmp};
ghost use Rattle.rs_cert.specs.ByText.{numbers_in, numbers_with};

use rs_feed::FeedRow;
use rs_value::{Memory, Text};
use std::alloc::Global;
use std::collections::BTreeMap;
use std::marker::Model;

/// The rows of a side, which are found by their texts.
#[derive(Drop)]
pub(crate) struct RowsByText<'a> {
    rows: &'a [FeedRow],
    // The numbers of the rows with a text, from 1, in order.
    numbers: BTreeMap<Text, Vec<u32>>,
}

impl<'a> Model for RowsByText<'a> {
    ghost use Rattle.std.specs.Prelude.{List, ℕ, ◌≡◌};
    ghost use Rattle.rs_feed.specs.declared.feed_row.FeedRow.{FeedRow};
    ghost use Rattle.rs_cert.specs.ByText.{numbers_in, numbers_with};

    ghost Value = { List FeedRow };

    ghost view = { λ b. b.rows.now };

    ghost invariant = { λ b. (text : List ℕ) → numbers_in b.numbers text ≡ numbers_with text 1 b.rows.now };
}

impl<'a> RowsByText<'a> {
    /// The rows of a side.
    pub(crate) fn of(alloc: Global, rows: &'a [FeedRow]) -> Result<RowsByText<'a>, Memory>
        requires { length rows.now < 2 ^ 32 }
        ensures { IfOk result (λ by_text. by_text ≡ rows.now) }
    {
        let mut numbers = BTreeMap::new(alloc);
        for (index, row) in rows.iter().enumerate() {
            add_number(alloc, &mut numbers, &row.join, index as u32 + 1)?;
        }
        Ok(RowsByText { rows, numbers })
    }

    /// The numbers of the rows with a text, from 1, in order.
    pub(crate) fn numbers(&self, text: &Text) -> &[u32]
        ensures { result.now ≡ numbers_with text.now 1 self.now }
    {
        match self.numbers.get(text) {
            Some(numbers) => numbers,
            None => &[],
        }
    }

    /// The rows in order.
    pub(crate) fn rows(&self) -> &[FeedRow]
        ensures { result.now ≡ self.now }
    {
        self.rows
    }
}

/// Adds a number to those of a text.
fn add_number(
    alloc: Global,
    numbers: &mut BTreeMap<Text, Vec<u32>>,
    text: &Text,
    number: u32,
) -> Result<(), Memory>
    ensures { IfOk result (λ done. (other : List ℕ) → numbers_in numbers.new other
        ≡ (if is_eq (slice_cmp nat_cmp text.now other) then numbers_in numbers.old other ++ number ∷ [] else numbers_in numbers.old other)) }
{
    let mut more = match numbers.remove(text) {
        Some(list) => list,
        None => Vec::new(alloc),
    };
    more.push(number)?;
    numbers.insert(text.copy()?, more)?;
    Ok(())
}
