ghost use Rattle.std.specs.Prelude.{◌≡◌, ◌<◌, ◌^◌, MatchOption, length};
ghost use Rattle.rs_cert.specs.Rows.{Falls, RisesFirstAt, rises};

use rs_feed::FeedRow;

/// The number of the first row, from 1, whose score is greater than that of a row in front of it.
pub(crate) fn first_rise(rows: &[FeedRow]) -> Option<u32>
    requires { length rows.now < 2 ^ 32 }
    ensures { MatchOption result (Falls rows.now) (λ number. RisesFirstAt rows.now number) }
{
    let mut before: Option<u32> = None;
    for (index, row) in rows.iter().enumerate() {
        if rises(before, row.score) {
            return Some(index as u32 + 1);
        }
        before = Some(row.score);
    }
    None
}

/// Whether a score is greater than the one in front of it, if there is one.
fn rises(before: Option<u32>, score: u32) -> bool
    ensures { result ≡ rises before score }
{
    match before {
        Some(before) => before < score,
        None => false,
    }
}
