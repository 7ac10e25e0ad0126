//! Counts of sampled rows, scaled up to whole tables.

ghost use Rattle.std.specs.Prelude.{◌≡◌, ◌≤◌, ◌*◌, ◌/◌, ◌%◌, ◌^◌, ◌<◌, ◌==◌, get_or, length, map, if◌then◌else◌};
ghost use Rattle.std.specs.Int.{div_ceil};
ghost use Rattle.std.specs.List.{AllByRecursion};
ghost use Rattle.rs_sample.specs.Quotients.{most_expected, product_inside};

/// How many of the combinations of the entries in a mask are expected, where this many of those of the samples were counted:
/// the count times the numbers of rows, divided by the sample sizes, rounded up.
pub(crate) fn expected_count(mask: u8, sizes: &[u32; 6], sampled: &[u32; 6], count: u32) -> u128
    requires rows { AllByRecursion (λ size. size ≤ 131072) sizes.now }
    requires sampled { AllByRecursion (λ size. size ≤ 131072) sampled.now }
    requires few { count ≤ product_inside mask sampled.now }
    requires counted { count ≤ 65536 }
    ensures value { result ≡ div_ceil (count * product_inside mask sizes.now) (product_inside mask sampled.now) }
    ensures limit { result ≤ most_expected mask }
{
    let all = product_inside(mask, sampled);
    if all == 0 {
        return 0;
    }
    (u128::from(count) * product_inside(mask, sizes)).div_ceil(all)
}

/// The product of the numbers of the entries in a mask.
pub(crate) fn product_inside(mask: u8, numbers: &[u32; 6]) -> u128
    requires { AllByRecursion (λ number. number ≤ 131072) numbers.now }
    ensures value { result ≡ product_inside mask numbers.now }
    ensures limit { result ≤ most_expected mask }
    ensures fits { result ≤ 2 ^ 102 }
{
    let mut product = 1;
    for place in 0..6 {
        product *= number_inside(mask, numbers, place);
    }
    product
}

/// The number of the entry at a place from 0, or 1 where it isn't in the mask.
fn number_inside(mask: u8, numbers: &[u32; 6], place: usize) -> u128
    requires { place < 6 }
    ensures { result ≡ (if mask / 2 ^ place % 2 == 0 then 1 else get_or numbers.now place 0) }
{
    if (mask >> place) % 2 == 0 {
        return 1;
    }
    u128::from(numbers[place])
}
