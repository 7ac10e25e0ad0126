ghost use Rattle.std.specs.Prelude.{◌≡◌, ◌≤◌, IfSome, nat_abs};
ghost use Rattle.rs_value.specs.Number.{decimal_value, greatest_int, int_value};

/// The greatest magnitude of a number in a table or a script.
pub const GREATEST_INT: u64 = 4_000_000_000_000_000_000;

// The sum or the difference of two such numbers fits an `i64`.
const _: () = prove!(GREATEST_INT <= i64::MAX as u64 / 2);

/// The number that decimal digits write, where it is at most `most`: one or more digits, and nothing else.
/// Leading zeros are allowed, any number of them.
///
/// # Errors
///
/// - `None`: exactly where there is no byte, a byte is no decimal digit, or the number is greater than `most`.
pub fn decimal_of(digits: &[u8], most: u64) -> Option<u64>
    ensures { result ≡ decimal_value most digits.now }
{
    if digits.is_empty() {
        return None;
    }
    let mut number: u128 = 0;
    for digit in digits {
        if !digit.is_ascii_digit() {
            return None;
        }
        number = 10 * number + (*digit - b'0') as u128;
        if number > most as u128 {
            return None;
        }
    }
    Some(number as u64)
}

/// The number of a cell: an optional `+` or `-`, then one or more decimal digits, from
/// -4,000,000,000,000,000,000 to 4,000,000,000,000,000,000.
///
/// # Errors
///
/// - `None`: exactly where the bytes have another form, or the number lies outside this range.
pub fn int_of(bytes: &[u8]) -> Option<i64>
    ensures value { result ≡ int_value bytes.now }
    ensures in_range { IfSome result (λ n. nat_abs n ≤ greatest_int) }
{
    match bytes {
        [b'-', digits @ ..] => Some(-(decimal_of(digits, GREATEST_INT)? as i64)),
        [b'+', digits @ ..] => Some(decimal_of(digits, GREATEST_INT)? as i64),
        _ => Some(decimal_of(bytes, GREATEST_INT)? as i64),
    }
}
