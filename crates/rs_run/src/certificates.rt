//! The words `cert` and `check`: certificates of the first pairs of two ranked feeds.

ghost use Rattle.std.specs.Prelude.{◌≤◌};
ghost use Rattle.rs_cert.specs.Records.{most_wanted};
ghost use Rattle.rs_outside.specs.Files.{finds_in};
ghost use Rattle.rs_events.specs.Running.{Runs};
ghost use Rattle.rs_run.specs.Faults.{run_faults};
ghost use Rattle.rs_run.specs.Parts.CommandLine.{feed_words_of};
ghost use Rattle.rs_run.specs.Running.{IsFormRun};
ghost use Rattle.rs_run.specs.Words.{Certify, Check};

use crate::fault::RunFault;
use crate::feed::word_fault;
use crate::words::FeedCommand;
use rs_events::{Host, Objects};
use rs_expr::Scorer;
use rs_outside::{Files, Sink};
use rs_value::Text;
use rs_words::{cert_word, check_word};
use std::alloc::Global;

/// Joins two ranked feeds, and puts the certificate of their first `words.count` pairs.
pub fn cert<'f, 's, 'o, F: Files, S: Scorer, O: Sink>(
    alloc: Global,
    words: FeedCommand<'_>,
    host: &mut Objects<'f, 's, 'o, F, S, O>,
) -> Result<(), RunFault>
    requires { words.count ≤ most_wanted }
    ensures { let state = ⟦<Objects<'f, 's, 'o, F, S, O> as Host>⟧.state in
        Runs run_faults (IsFormRun (finds_in (state host.old).files.contents) (state host.old).scorer.answer (Certify (feed_words_of words.entry))) result
        (state host.old) (state host.new) }
{
    let FeedCommand { left, right, count } = words;
    match cert_word(alloc, left, right, count, &mut *host.files, &mut *host.out) {
        Ok(()) => Ok(()),
        Err(why) => Err(word_fault(alloc, left, right, why)),
    }
}

/// Reads a certificate, and puts what a check says of it.
pub fn check<'f, 's, 'o, F: Files, S: Scorer, O: Sink>(
    alloc: Global,
    file: &Text,
    host: &mut Objects<'f, 's, 'o, F, S, O>,
) -> Result<(), RunFault>
    ensures { let state = ⟦<Objects<'f, 's, 'o, F, S, O> as Host>⟧.state in
        Runs run_faults (IsFormRun (finds_in (state host.old).files.contents) (state host.old).scorer.answer (Check file.now)) result (state host.old) (state host.new) }
{
    match check_word(alloc, file, &mut *host.files, &mut *host.out) {
        Ok(()) => Ok(()),
        Err(why) => Err(word_fault(alloc, file, file, why)),
    }
}
