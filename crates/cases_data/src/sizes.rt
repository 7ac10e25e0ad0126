//! The words of a work.

ghost use Rattle.std.specs.Prelude.{◌≡◌, ◌≤◌, IfSome};
ghost use Rattle.std.specs.Option.{option_map};
ghost use Rattle.rs_value.specs.Number.{decimal_value};
ghost use Rattle.cases_data.specs.Sizes.{most, sizes_of};

use cases_lines::cut_word;
use rs_value::decimal_of;

const MOST: u64 = 1_000_000;

/// How much work is to be done.
#[derive(Clone, Copy)]
pub struct Sizes {
    pub held: u64,
    pub operations: u64,
    ghost within: { (held ≤ most) × (operations ≤ most) },
}

impl Sizes {
    /// The sizes that words say: `HELD OPERATIONS`, two decimal numbers, each at most 1,000,000.
    pub fn of(words: &[u8]) -> Option<Sizes>
        ensures { option_map (λ sizes. (sizes.held, sizes.operations)) result ≡ sizes_of words.now }
    {
        let (held, operations) = cut_word(words);
        Some(Sizes {
            held: number_of(held)?,
            operations: number_of(operations)?,
        })
    }
}

fn number_of(word: &[u8]) -> Option<u64>
    ensures value { result ≡ decimal_value most word.now }
    ensures limit { IfSome result (λ number. number ≤ most) }
{
    decimal_of(word, MOST)
}
