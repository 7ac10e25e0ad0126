ghost use Rattle.std.specs.Prelude.{◌≡◌};
ghost use Rattle.rs_expr.specs.Scores.{score_within};

/// A number as a score, where it lies from 0 to `max`.
///
/// # Errors
///
/// - `None`: exactly where the number lies outside 0 to `max`.
pub fn score_within(got: i128, max: u32) -> Option<u32>
    ensures { result ≡ score_within max got }
{
    if got < 0 || got > max as i128 {
        return None;
    }
    Some(got as u32)
}
