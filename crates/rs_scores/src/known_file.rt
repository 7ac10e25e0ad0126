ghost use Rattle.std.specs.Prelude.{◌≡◌, ◌⊎◌, ◌≤◌, Err, IfOk, MatchResult, Ok, length};
ghost use Rattle.rs_events.specs.Fetching.{FetchesFile};
ghost use Rattle.rs_scores.specs.KnownBy.{IsKnownBy, KnowsBy, or_refused, refused_for, score_bytes};
ghost use Rattle.rs_scores.specs.Reading.{scores_in};

use crate::fault::KnownFault;
use crate::known::KnownScores;
use crate::reading::{MOST_BYTES, read_scores};
use crate::scores_fault::ScoresFault;
use rs_events::fetch_file;
use rs_outside::{FetchFault, Files};
use rs_value::Text;
use std::alloc::Global;

/// What is known by the file of scores of this name, which is fetched once, of the predicates that have these names. Where no
/// file is there nothing is known.
///
/// # Errors
///
/// - `Memory`: at any call.
/// - `Missing`: never.
/// - `TooLong`: exactly where the file has more than 33,554,432 bytes.
/// - `Failed`: exactly where the fetch failed, of which the files keep count.
/// - Those of `read_scores`: exactly where it gives them for the file's bytes.
pub fn read_known<F: Files>(
    alloc: Global,
    names: Vec<Text>,
    file: &Text,
    files: &mut F,
) -> Result<KnownScores, ScoresFault>
    ensures { FetchesFile ScoresFault.Memory (λ why. why ≡ ScoresFault.Fetch FetchFault.Failed) file.now result (IsKnownBy names.items)
        (F.state files.old) (F.state files.new) }
{
    match bytes_of(alloc, file, files) {
        Ok(bytes) => known_by(alloc, names, &bytes),
        Err(fault) => Err(fault),
    }
}

/// The bytes of a file of scores. Where no file is there it has none.
fn bytes_of<F: Files>(alloc: Global, file: &Text, files: &mut F) -> Result<Vec<u8>, ScoresFault>
    ensures fetches { FetchesFile ScoresFault.Memory (λ why. why ≡ ScoresFault.Fetch FetchFault.Failed) file.now result
        (λ there r. MatchResult r (λ bytes. score_bytes there ≡ Ok bytes.items) (λ fault. score_bytes there ≡ Err fault))
        (F.state files.old) (F.state files.new) }
    ensures within { IfOk result (λ bytes. length bytes.items ≤ 33554432) }
{
    match fetch_file(alloc, file, MOST_BYTES, files) {
        Ok(bytes) => Ok(bytes),
        Err(FetchFault::Missing) => Ok(Vec::new(alloc)),
        Err(FetchFault::Memory) => Err(ScoresFault::Memory),
        Err(fault) => Err(ScoresFault::Fetch(fault)),
    }
}

/// What is known by the bytes of a file of scores.
fn known_by(alloc: Global, names: Vec<Text>, bytes: &[u8]) -> Result<KnownScores, ScoresFault>
    requires { length bytes.now ≤ 33554432 }
    ensures { KnowsBy names.items (or_refused (scores_in names.items bytes.now)) result ⊎ (result ≡ Err ScoresFault.Memory) }
{
    match read_scores(alloc, names, bytes) {
        Ok(known) => Ok(known),
        Err(fault) => Err(refused(fault)),
    }
}

/// Why no scores are known, where a file's records are refused.
fn refused(fault: KnownFault) -> ScoresFault
    ensures { result ≡ refused_for fault }
{
    match fault {
        KnownFault::Memory => ScoresFault::Memory,
        fault => ScoresFault::Refused(fault),
    }
}
