//! Rows of a join of two sides, each with one entry and one term.

ghost use Rattle.std.specs.Prelude.{◌≡◌, ◌≤◌, ◌+◌, nat_lt, [], ◌∷◌};

use rs_rank::{Ids, JoinAsk, Key, Matcher, RankRow, Weights};
use rs_ripple::Side;
use rs_value::Memory;
use std::process::Abort;

// Two terms of weight 1 and at most 10: the first is evaluated on the left side, the second on the right one.
pub const TWO_TERMS: Weights = Weights {
    weight: [1, 1, 0, 0, 0, 0, 0, 0],
    max: [10, 10, 0, 0, 0, 0, 0, 0],
};

pub const LEFT: Side = Side { mask: 1, terms: 1 };

pub const RIGHT: Side = Side { mask: 2, terms: 2 };

// A left row, by its number.
pub const fn left(number: u32, sum: u64) -> RankRow
    ensures { result ≡ record {
      ids = record { block = 1; mask = 1; rows = number ∷ 0 ∷ 0 ∷ 0 ∷ 0 ∷ 0 ∷ [] };
      sum = sum;
    } }
{
    RankRow {
        ids: Ids {
            block: 1,
            mask: 1,
            rows: [number, 0, 0, 0, 0, 0],
        },
        sum,
    }
}

// A right row, by its number.
pub const fn right(number: u32, sum: u64) -> RankRow
    ensures { result ≡ record {
      ids = record { block = 1; mask = 2; rows = 0 ∷ number ∷ 0 ∷ 0 ∷ 0 ∷ 0 ∷ [] };
      sum = sum;
    } }
{
    RankRow {
        ids: Ids {
            block: 1,
            mask: 2,
            rows: [0, number, 0, 0, 0, 0],
        },
        sum,
    }
}

// A pair of rows, by their numbers.
pub const fn pair(left: u32, right: u32, sum: u64) -> RankRow
    ensures { result ≡ record {
      ids = record { block = 1; mask = 3; rows = left ∷ right ∷ 0 ∷ 0 ∷ 0 ∷ 0 ∷ [] };
      sum = sum;
    } }
{
    RankRow {
        ids: Ids {
            block: 1,
            mask: 3,
            rows: [left, right, 0, 0, 0, 0],
        },
        sum,
    }
}

// Asserts what a join does next.
pub fn assert_ask(rt: &impl Abort, ask: JoinAsk, want: JoinAsk) {
    assert_eq!(rt; ask, want);
}

// Asserts which row is taken.
pub fn assert_taken(rt: &impl Abort, taken: Option<RankRow>, want: Option<RankRow>) {
    assert_eq!(rt; taken, want);
}

// Asserts what a number is.
pub fn assert_number(rt: &impl Abort, number: u64, want: u64) {
    assert_eq!(rt; number, want);
}

/// A left row matches a right one of a lesser sum.
#[derive(Clone, Copy)]
pub struct Higher {
    pub calls: u64,
}

impl Matcher for Higher {
    ghost truth = { λ h left right. nat_lt right.sum left.sum };

    ghost calls = { λ h. h.calls };

    fn matches(&mut self, left: &RankRow, right: &RankRow) -> Result<bool, Memory> {
        self.calls = self.calls.saturating_add(1);
        Ok(right.sum < left.sum)
    }
}
