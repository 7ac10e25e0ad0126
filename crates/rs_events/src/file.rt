ghost use Rattle.std.specs.Prelude.{◌≡◌, ◌≤◌, None, Ok, Err, IfOk, MatchResult, length};
ghost use Rattle.rs_outside.specs.Files.{Remembers};
ghost use Rattle.rs_events.specs.Fetching.{FetchesFile, fetched_bytes};

use rs_outside::{FetchFault, Files};
use rs_value::Text;
use std::alloc::Global;

/// The bytes of the file of this name, which are at most `limit`. It makes one fetch.
///
/// # Errors
///
/// - Those of `Files::fetch`, as the fetch answers.
pub fn fetch_file<F: Files>(
    alloc: Global,
    file: &Text,
    limit: usize,
    files: &mut F,
) -> Result<Vec<u8>, FetchFault>
    ensures fetches { FetchesFile FetchFault.Memory (λ why. why ≡ FetchFault.Failed) file.now result
        (λ there r. MatchResult r (λ bytes. fetched_bytes limit there ≡ Ok bytes.items) (λ why. fetched_bytes limit there ≡ Err why))
        (F.state files.old) (F.state files.new) }
    ensures within { IfOk result (λ bytes. length bytes.items ≤ limit) }
    // That no file is there is remembered too, where the files remember what is found.
    ensures missing { result ≡ Err FetchFault.Missing → Remembers (F.state files.new) file.now None }
{
    let mut bytes = Vec::new(alloc);
    match files.fetch(file, limit, &mut bytes) {
        Ok(()) => Ok(bytes),
        Err(why) => Err(why),
    }
}
