ghost use Rattle.std.specs.Prelude.{◌≡◌, ◌≤◌, ◌-◌, ◌^◌, min, slice_index, slice_set};
ghost use Rattle.rs_value.specs.Faults.{raised};
ghost use Rattle.rs_ta.specs.Lists.{count_in, total};

/// Raises the count of a list, from 1 to 8. It stands still at its end.
pub(crate) fn raise(counts: &mut [u64; 8], list: u8)
    requires some { 1 ≤ list }
    requires within { list ≤ 8 }
    ensures { counts.new ≡ slice_set counts.old (list - 1) (raised (slice_index counts.old (list - 1))) }
{
    let place = usize::from(list - 1);
    counts[place] = counts[place].saturating_add(1);
}

/// The sum of the counts of this many lists, or the greatest number where it is greater.
pub(crate) fn sum_of(counts: &[u64; 8], lists: usize) -> u64
    requires { lists ≤ 8 }
    ensures { result ≡ min (total lists (count_in counts.now)) (2 ^ 64 - 1) }
{
    let mut sum: u64 = 0;
    for count in &counts[..lists] {
        sum = sum.saturating_add(*count);
    }
    sum
}
