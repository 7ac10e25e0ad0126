ghost use Rattle.std.specs.Prelude.{◌≡◌, ◌≤◌, Ok, Err, IfOk, MatchResult, length};
ghost use Rattle.rs_value.specs.Answer.{Gives};
ghost use Rattle.rs_table.specs.Relation.{most_rows};
ghost use Rattle.rs_table_feed.specs.TableFeeds.{new_feed};
ghost use Rattle.rs_events.specs.Fetching.{FetchesFile, fetched_bytes};
ghost use Rattle.rs_feed_join.specs.Cuts.{HaveScores};
ghost use Rattle.rs_words.specs.Faults as told;
ghost use Rattle.rs_words.specs.FeedFiles.{IsFeedFile, feed_columns, file_limit, rows_in, undrawn};

use crate::fault::WordFault;
use rs_outside::{FetchFault, Files};
use rs_table::{Schema, TABLE_LIMIT, Table, TableFault};
use rs_table_feed::TableFeed;
use rs_value::{Kind, Memory, Text};
use std::alloc::Global;
use std::hash::RandomState;

/// Fetches a file, and reads it as a feed of which nothing is drawn: a table with the columns `key TEXT, score INT`, whose numbers
/// are scores. The file is 1 or 2.
pub(crate) fn read_feed<F: Files>(
    alloc: Global,
    file: u8,
    name: &Text,
    files: &mut F,
) -> Result<TableFeed, WordFault>
    ensures fetches { FetchesFile WordFault.Memory (λ why. why ≡ WordFault.Read file FetchFault.Failed) name.now result (IsFeedFile file)
        (F.state files.old) (F.state files.new) }
    ensures unused { IfOk result (λ feed. feed ≡ new_feed feed.rows) }
    ensures scores { IfOk result (λ feed. HaveScores feed.rows) }
    ensures few { IfOk result (λ feed. length feed.rows ≤ most_rows) }
{
    let bytes = fetch_bytes(alloc, file, name, files)?;
    feed_in(alloc, file, files.hash_keys(), &bytes)
}

/// The bytes of a file.
pub(crate) fn fetch_bytes<F: Files>(
    alloc: Global,
    file: u8,
    name: &Text,
    files: &mut F,
) -> Result<Vec<u8>, WordFault>
    ensures fetches { FetchesFile WordFault.Memory (λ why. why ≡ WordFault.Read file FetchFault.Failed) name.now result
        (λ there r. MatchResult r (λ bytes. told.or_read file (fetched_bytes file_limit there) ≡ Ok bytes.items) (λ fault. told.or_read file (fetched_bytes file_limit there) ≡ Err fault))
        (F.state files.old) (F.state files.new) }
    ensures within { IfOk result (λ bytes. length bytes.items ≤ file_limit) }
{
    match rs_events::fetch_file(alloc, name, TABLE_LIMIT, files) {
        Ok(bytes) => Ok(bytes),
        Err(why) => Err(read_fault(file, why)),
    }
}

/// The feed of a file's bytes, whose texts are hashed by the keys.
fn feed_in(
    alloc: Global,
    file: u8,
    hash_keys: RandomState,
    bytes: &[u8],
) -> Result<TableFeed, WordFault>
    requires { length bytes.now ≤ file_limit }
    ensures gives { Gives WordFault.Memory (undrawn (rows_in file bytes.now)) result }
    ensures unused { IfOk result (λ feed. feed ≡ new_feed feed.rows) }
    ensures scores { IfOk result (λ feed. HaveScores feed.rows) }
    ensures few { IfOk result (λ feed. length feed.rows ≤ most_rows) }
{
    let schema = feed_schema(alloc)?;
    let table = match Table::read(alloc, hash_keys, schema, bytes) {
        Ok(table) => table,
        Err(why) => return Err(table_fault(file, why)),
    };
    match TableFeed::new(table) {
        Ok(feed) => Ok(feed),
        Err(fault) => Err(WordFault::Range { file, fault }),
    }
}

/// The columns of a feed's file.
fn feed_schema(alloc: Global) -> Result<Schema, Memory>
    ensures { IfOk result (λ schema. schema ≡ feed_columns) }
{
    let key = Text::from(String::from_str(alloc, "key")?);
    let score = Text::from(String::from_str(alloc, "score")?);
    Ok(Schema::make(vec![in alloc; (key, Kind::Text), (score, Kind::Int)]?))
}

/// The fault of a file that was not fetched.
fn read_fault(file: u8, why: FetchFault) -> WordFault
    ensures { result ≡ told.read_fault file why }
{
    match why {
        FetchFault::Memory => WordFault::Memory,
        FetchFault::Missing | FetchFault::TooLong | FetchFault::Failed => {
            WordFault::Read { file, fault: why }
        }
    }
}

/// The fault of a file that is no table.
fn table_fault(file: u8, why: TableFault) -> WordFault
    ensures { result ≡ told.table_fault file why }
{
    match why {
        TableFault::Memory => WordFault::Memory,
        why => WordFault::Table { file, fault: why },
    }
}
