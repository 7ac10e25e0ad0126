ghost use Rattle.std.specs.Prelude.{◌≡◌};
ghost use Rattle.rs_bind.specs.Queries.{count_of};

use crate::names::number_in;
use rs_lex::Span;
use rs_typing::BindFault;

/// The greatest number of rows that LIMIT or FETCH asks for.
pub const MOST_ROWS: u32 = 1_000_000;

/// The number in FETCH, from 0 to 1,000,000 (`LimitOf`). It takes no memory.
///
/// # Errors
///
/// - `At`: with `LimitOf` and the place, exactly where the number lies outside this range.
/// - `Memory`: never.
pub fn bind_count(count: i64, at: Span) -> Result<u32, BindFault>
    ensures { result ≡ count_of (count, at) }
{
    number_in(&(count, at), 0, MOST_ROWS)
}
