//! Whether numbers are row numbers of some entries of a block.

ghost use Rattle.std.specs.Prelude.{◌≡◌, ◌≤◌};
ghost use Rattle.rs_filter.specs.Matching.{is_choice, is_row_number};

/// Whether the numbers are of rows at the entries in a mask, whose tables have this many rows, and 0 at the other entries.
pub(crate) fn is_choice(mask: u8, sizes: &[u32; 6], rows: &[u32; 6]) -> bool
    ensures { result ≡ is_choice mask sizes.now rows.now }
{
    for place in 0..6 {
        let outside = (mask >> place) % 2 == 0;
        if !is_row_number(outside, sizes[place], rows[place]) {
            return false;
        }
    }
    true
}

/// Whether a number is that of one of this many rows, counted from 1, or is 0 outside.
fn is_row_number(outside: bool, size: u32, row: u32) -> bool
    ensures { result ≡ is_row_number outside size row }
{
    if outside {
        row == 0
    } else {
        1 <= row && row <= size
    }
}
