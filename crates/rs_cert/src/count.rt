ghost use Rattle.std.specs.Prelude.{◌≡◌, ◌+◌, ◌<◌, ◌^◌, MatchOption, length, nat_lt};
ghost use Rattle.rs_order.specs.Asks.{comes_before_bar, those_before};
ghost use Rattle.rs_cert.specs.Pairs.{pair_cmp, pairs_from, pairs_of_row};
ghost use Rattle.rs_cert.specs.Rows.{Falls};

use crate::by_text::RowsByText;
use crate::pair::Pair;
use rs_feed::FeedRow;

/// Whether more than this many pairs come before a bar; without a bar, whether there are more. It looks at no more pairs of a row than
/// come before the bar, and one.
pub(crate) fn has_more_pairs(
    lefts: &[FeedRow],
    rights: &RowsByText,
    bar: &Option<Pair>,
    most: usize,
) -> bool
    requires few { length lefts.now < 2 ^ 32 }
    requires falls { Falls rights.now }
    ensures { result ≡ nat_lt most (length (those_before pair_cmp (λ pair. pair) bar.now (pairs_from 1 lefts.now rights.now))) }
{
    let mut room = most;
    for (index, left) in lefts.iter().enumerate() {
        match room_behind(index as u32 + 1, left, rights, bar, room) {
            Some(rest) => room = rest,
            None => return true,
        }
    }
    false
}

/// How much of some room is left behind the pairs of a left row that come before a bar, or none where they don't fit.
fn room_behind(
    number: u32,
    left: &FeedRow,
    rights: &RowsByText,
    bar: &Option<Pair>,
    room: usize,
) -> Option<usize>
    requires { Falls rights.now }
    ensures { MatchOption result
        (room < length (those_before pair_cmp (λ pair. pair) bar.now (pairs_of_row number left.now 1 rights.now)))
        (λ rest. rest + length (those_before pair_cmp (λ pair. pair) bar.now (pairs_of_row number left.now 1 rights.now)) ≡ room) }
{
    let mut rest = room;
    for right in rights.numbers(&left.join) {
        let pair = Pair::of(number, left, *right, &rights.rows()[*right as usize - 1]);
        if !comes_before(&pair, bar) {
            return Some(rest);
        }
        if rest == 0 {
            return None;
        }
        rest -= 1;
    }
    Some(rest)
}

/// Whether a pair comes strictly before a bar. Without one it does.
fn comes_before(pair: &Pair, bar: &Option<Pair>) -> bool
    ensures { result ≡ comes_before_bar pair_cmp bar.now pair.now }
{
    match bar {
        Some(bar) => pair.order(bar).is_lt(),
        None => true,
    }
}
