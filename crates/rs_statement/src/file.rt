ghost use Rattle.std.specs.Prelude.{◌≡◌, ◌⊎◌, ◌≤◌, Ok, Err, IfOk, MatchResult, length};
ghost use Rattle.rs_statement.specs.Content.{content_of};
ghost use Rattle.rs_statement.specs.Parts.Steps.{FetchesFile};

use crate::fault::Fault;
use rs_outside::{FetchFault, Files};
use rs_table::TableFault;
use rs_value::Text;
use std::alloc::Global;

/// The bytes of the file of this name, which are at most `limit`.
///
/// # Errors
///
/// - `Read`: where the files tell what they hold, `Missing` exactly where they have none of the name, and `TooLong` exactly
///   where it has more bytes than the limit; `Failed` only where their count of faults rose.
/// - `Memory`: at any time, in place of what else would come.
/// - `Write`, `Table`, `BadScore`, `Probe`, `Script`, `Session`: never.
pub fn fetch_file<F: Files>(
    alloc: Global,
    file: &Text,
    limit: usize,
    files: &mut F,
) -> Result<Vec<u8>, Fault>
    ensures fetches { FetchesFile file.now result
        (λ there r. MatchResult r (λ bytes. content_of limit file.now there ≡ Ok bytes.items) (λ fault. content_of limit file.now there ≡ Err fault))
        (F.state files.old) (F.state files.new) }
    ensures within { IfOk result (λ bytes. length bytes.items ≤ limit) }
{
    match rs_events::fetch_file(alloc, file, limit, files) {
        Ok(bytes) => Ok(bytes),
        Err(why) => Err(read_fault(file, why)),
    }
}

/// The fault of a file that was not fetched.
fn read_fault(file: &Text, why: FetchFault) -> Fault
    ensures tells { (result ≡ Fault.Read file.now why) ⊎ (result ≡ Fault.Memory) }
    ensures memory { why ≡ FetchFault.Memory → result ≡ Fault.Memory }
{
    if why == FetchFault::Memory {
        return Fault::Memory;
    }
    match file.copy() {
        Ok(name) => Fault::Read { name, why },
        Err(_) => Fault::Memory,
    }
}

/// The fault of a file that is no table.
pub fn table_fault(file: &Text, why: TableFault) -> Fault
    ensures tells { (result ≡ Fault.Table file.now why) ⊎ (result ≡ Fault.Memory) }
    ensures memory { why ≡ TableFault.Memory → result ≡ Fault.Memory }
{
    if let TableFault::Memory = why {
        return Fault::Memory;
    }
    match file.copy() {
        Ok(name) => Fault::Table { name, why },
        Err(_) => Fault::Memory,
    }
}
