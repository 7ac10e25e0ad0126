ghost use Rattle.std.specs.Prelude.{◌≡◌, IsTrue, false, MatchOption, option_map};
ghost use Rattle.rs_order.specs.Last.{last_of};
ghost use Rattle.rs_cert.specs.Claims.{IsClaim, claimed, claimed_pair, comes_behind, is_pair, row_of};

use crate::pair::Pair;
use rs_feed::FeedRow;

/// The row of a number, from 1.
fn row_of(rows: &[FeedRow], number: u32) -> Option<&FeedRow>
    ensures { option_map (λ row. row.now) result ≡ row_of rows.now number }
{
    if number == 0 {
        return None;
    }
    rows.get(number as usize - 1)
}

/// The pair of two rows by their numbers, where both are there and have the same text.
fn pair_of(lefts: &[FeedRow], rights: &[FeedRow], left: u32, right: u32) -> Option<Pair>
    ensures { MatchOption result (is_pair lefts.now rights.now (claimed_pair lefts.now rights.now (left, right)) ≡ false)
        (λ pair. (pair ≡ claimed_pair lefts.now rights.now (left, right)) × IsTrue (is_pair lefts.now rights.now pair)) }
{
    let left_row = row_of(lefts, left)?;
    let right_row = row_of(rights, right)?;
    if left_row.join == right_row.join {
        Some(Pair::of(left, left_row, right, right_row))
    } else {
        None
    }
}

/// What is known of the pairs that a certificate claims.
#[derive(Clone, Copy)]
pub(crate) enum Claim {
    /// They are pairs of rows with the same text, each strictly behind the one in front of it. The last one is told, if there is
    /// one.
    InOrder(Option<Pair>),
    OutOfOrder,
}

/// Looks at the pairs of a certificate by themselves.
pub(crate) fn claim_of(lefts: &[FeedRow], rights: &[FeedRow], pairs: &[(u32, u32)]) -> Claim
    ensures { IsClaim lefts.now rights.now (claimed lefts.now rights.now pairs.now) result }
{
    let mut last: Option<Pair> = None;
    for (left, right) in pairs {
        let Some(pair) = pair_of(lefts, rights, *left, *right) else {
            return Claim::OutOfOrder;
        };
        if !comes_behind(&last, &pair) {
            return Claim::OutOfOrder;
        }
        last = Some(pair);
    }
    Claim::InOrder(last)
}

/// Whether a pair comes strictly behind another one, if there is one.
fn comes_behind(before: &Option<Pair>, pair: &Pair) -> bool
    ensures { result ≡ comes_behind before.now pair.now }
{
    match before {
        Some(before) => before.order(pair).is_lt(),
        None => true,
    }
}
