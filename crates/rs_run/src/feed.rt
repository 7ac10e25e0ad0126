//! The word `feed`: the first pairs of two ranked feeds.

ghost use Rattle.std.specs.Prelude.{◌≡◌, ◌⊎◌, IfOk};
ghost use Rattle.rs_outside.specs.Files.{finds_in};
ghost use Rattle.rs_events.specs.Running.{Runs};
ghost use Rattle.rs_run.specs.FeedTold as told;
ghost use Rattle.rs_run.specs.Faults.{run_faults};
ghost use Rattle.rs_run.specs.Parts.CommandLine.{feed_words_of};
ghost use Rattle.rs_run.specs.Running.{IsFormRun};
ghost use Rattle.rs_run.specs.Words.{Feed};

use crate::fault::RunFault;
use crate::words::FeedCommand;
use rs_events::{Host, Objects};
use rs_expr::Scorer;
use rs_outside::{Files, Sink};
use rs_statement::{Fault, only_row};
use rs_table_feed::RangeFault;
use rs_value::{Memory, Text};
use rs_words::{WordFault, feed_word};
use std::alloc::Global;

/// The greatest score of a row of a feed.
const MOST_SCORE: u32 = 4_294_967_295;

/// Joins two ranked feeds, and puts their first `words.count` pairs and how often both were drawn.
pub fn feed<'f, 's, 'o, F: Files, S: Scorer, O: Sink>(
    alloc: Global,
    words: FeedCommand<'_>,
    host: &mut Objects<'f, 's, 'o, F, S, O>,
) -> Result<(), RunFault>
    ensures { let state = ⟦<Objects<'f, 's, 'o, F, S, O> as Host>⟧.state in
        Runs run_faults (IsFormRun (finds_in (state host.old).files.contents) (state host.old).scorer.answer (Feed (feed_words_of words.entry))) result
        (state host.old) (state host.new) }
{
    let FeedCommand { left, right, count } = words;
    match feed_word(alloc, left, right, count, &mut *host.files, &mut *host.out) {
        Ok(()) => Ok(()),
        Err(why) => Err(word_fault(alloc, left, right, why)),
    }
}

/// The fault of a word over feeds, told by the names of its files; or there is no memory for that.
pub(crate) fn word_fault(alloc: Global, left: &Text, right: &Text, why: WordFault) -> RunFault
    ensures { (result ≡ told.word_fault left.now right.now why) ⊎ (result ≡ RunFault.Statement Fault.Memory) }
{
    match named_fault(alloc, left, right, why) {
        Ok(fault) => fault,
        Err(_) => RunFault::Statement(Fault::Memory),
    }
}

/// The same, where there is memory.
fn named_fault(alloc: Global, left: &Text, right: &Text, why: WordFault) -> Result<RunFault, Memory>
    ensures { IfOk result (λ fault. fault ≡ told.word_fault left.now right.now why) }
{
    match why {
        WordFault::Read { file, fault } => {
            let name = file_name(left, right, file)?;
            Ok(RunFault::Statement(Fault::Read { name, why: fault }))
        }
        WordFault::Write => Ok(RunFault::Statement(Fault::Write)),
        WordFault::Table { file, fault } => {
            let name = file_name(left, right, file)?;
            Ok(RunFault::Statement(Fault::Table { name, why: fault }))
        }
        WordFault::Range { fault, .. } => range_fault(alloc, fault),
        WordFault::Order {
            side,
            row,
            before,
            got,
        } => {
            let name = file_name(left, right, side)?;
            Ok(RunFault::Order {
                name,
                row,
                before,
                got,
            })
        }
        WordFault::CertTooLong { file } => {
            let name = file_name(left, right, file)?;
            Ok(RunFault::CertTooLong { name })
        }
        WordFault::CertForm { place } => {
            let name = left.copy()?;
            Ok(RunFault::CertForm { name, place })
        }
        WordFault::Memory => Ok(RunFault::Statement(Fault::Memory)),
    }
}

/// The fault of a row whose number is no score.
fn range_fault(alloc: Global, why: RangeFault) -> Result<RunFault, Memory>
    ensures { IfOk result (λ fault. fault ≡ told.range_fault why) }
{
    let predicate = Text::from(String::from_str(alloc, "score")?);
    Ok(RunFault::Statement(Fault::BadScore {
        predicate,
        rows: only_row(why.row),
        got: why.got as i128,
        max: MOST_SCORE,
    }))
}

/// The name of a file by its number: 1 is the left one.
fn file_name(left: &Text, right: &Text, file: u8) -> Result<Text, Memory>
    ensures { IfOk result (λ name. name ≡ told.file_name left.now right.now file) }
{
    if file == 1 { left.copy() } else { right.copy() }
}
