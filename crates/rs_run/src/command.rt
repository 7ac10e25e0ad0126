ghost use Rattle.std.specs.Prelude.{◌≡◌, ◌≢◌, ◌⊎◌, ℕ, None, Some};
ghost use Rattle.rs_value.specs.Outside.{Faulted};
ghost use Rattle.rs_events.specs.Environment.{Environment, KeepsEnvironment, environment};
ghost use Rattle.rs_outside.specs.Files.{finds_in};
ghost use Rattle.rs_events.specs.Running.{Runs};
ghost use Rattle.rs_run.specs.Faults.{run_faults};
ghost use Rattle.rs_run.specs.Outcome.{FormRunsTo, RunsTo};
ghost use Rattle.rs_run.specs.Parts.CommandLine.{HasCertCount, form_of_command_line};
ghost use Rattle.rs_run.specs.Running.{IsFormRun, IsRun};
ghost use Rattle.rs_run.specs.Words.{RunGenerated, RunScript, form_of};

use crate::certificates::{cert, check};
use crate::fault::RunFault;
use crate::feed::feed;
use crate::generated::run_generated;
use crate::plain::run_script;
use crate::readers::Readers;
use crate::report::report;
use crate::threshold::run_by_scan;
use crate::top::top;
use crate::viewing::run_with_views;
use crate::words::{CommandLine, command_line_of};
use rs_events::{Host, Objects, Status};
use rs_expr::Scorer;
use rs_outside::{Files, Sink};
use rs_statement::Evaluating;
use rs_table::TableReader;
use rs_value::Text;
use std::alloc::Global;

/// Does all that the command does: takes the words of the command line without the program's name, fetches from
/// `files`, asks `scorer` for scores, puts rows to `out` and the line of a fault to `err`, and answers the status. Where
/// nothing is known of the files, as of those of the system, what is said of a run is said of one over some files.
///
/// # Errors
///
/// Each status but Memory yields to want of memory, and to a put, a fetch or a call that failed before.
///
/// - `Done`: exactly where all events of the run were done and it has no fault. Nothing is put to `err` then.
/// - `Memory`: at any time. The line of the fault may be missing then.
/// - `Usage`: exactly where the words are of no form: of none of the nine, or a number word isn't one or lies outside
///   its range. There is no event then.
/// - `Read`: exactly where the run comes to the fetch of a name that isn't there, or of a file beyond its limit; and
///   where a fetch failed, which comes only where the files' count of faults rose.
/// - `Write`: only where a put on standard output failed; its count of faults rose.
/// - `Script`: exactly where the run comes to a script that isn't UTF-8, whose tokens or statements are refused, to a
///   statement that breaks a rule or has no room for its name, or under `ta` or `view` to one that the word doesn't
///   take.
/// - `Table`: exactly where the run comes to a file that is no table, or not one of the columns that are wanted; under
///   `feed` or `cert` also to a row out of order, under `cert` to more rows of a side than a certificate has, and under
///   `check` to a file that is no certificate.
/// - `BadScore`: exactly where the run comes to a call whose answer lies outside 0 to the predicate's MAX, but for
///   those of a sample; in `top` to a row whose number lies outside 0 to MAX, and under `feed` or `cert` to one whose
///   number lies outside 0 to 4,294,967,295.
/// - `Probe`: only where a call failed; the scorer's count of faults rose.
/// - `Session`: exactly where the run comes to a DECLARE of a name that is taken, to a FETCH or CLOSE of one that no
///   open cursor or held view has, or to a 65th cursor or view.
pub fn run<F: Files, S: Scorer, O: Sink, E: Sink>(
    alloc: Global,
    words: &[Text],
    files: &mut F,
    scorer: &mut S,
    out: &mut O,
    err: &mut E,
) -> Status
    // The events of the run are done up to a halt, and the status and the line are the halt's. Each status has its cause: the
    // definition of the run, want of memory, or a put, a fetch or a call that failed. Done comes only where all events were
    // done without a fault. Where no fetch, no call and no put on standard output failed, the run ends as its definition
    // says, after all its events, or there was no memory.
    ensures run { RunsTo words.now result
        (environment (F.state files.old) (S.state scorer.old) (O.state out.old) (E.state err.old))
        (environment (F.state files.new) (S.state scorer.new) (O.state out.new) (E.state err.new)) }

    // Usage comes exactly where the words are of no form, Write only where a put on standard output failed, and Probe
    // only where a call of the scorer did.
    ensures usage { result ≡ Status.Usage → form_of words.now ≡ None }
    ensures no_form { form_of words.now ≡ None → (result ≡ Status.Usage) ⊎ (result ≡ Status.Memory) }
    ensures write { result ≡ Status.Write → Faulted (O.state out.old) (O.state out.new) }
    ensures probe { result ≡ Status.Probe → Faulted (S.state scorer.old).outside (S.state scorer.new).outside }

    // The word `gen` leaves the files that are handed in alone.
    ensures unfetched { (number rows : ℕ) → form_of words.now ≡ Some (RunGenerated number rows) → F.state files.new ≡ F.state files.old }

    // What a second run with the same objects stands on: what is known of the files stays known, the scorer's answers
    // stay, no count of faults falls, and what is steady stays so.
    ensures keeps { KeepsEnvironment
        (environment (F.state files.old) (S.state scorer.old) (O.state out.old) (E.state err.old))
        (environment (F.state files.new) (S.state scorer.new) (O.state out.new) (E.state err.new)) }
{
    let mut host = Objects { files, scorer, out };
    match answer(alloc, words, &mut host) {
        Ok(()) => Status::Done,
        Err(fault) => report(alloc, &fault, err),
    }
}

/// Does what the script of a name says, with its queries evaluated so: what `run` does for the words `plain SCRIPT` and
/// `run SCRIPT SEED`. Beside these, it may choose plans by guesses, for which `run` has no word; and the readers may know what
/// was read before.
///
/// # Errors
///
/// Each status but Memory yields to want of memory, and to a put, a fetch or a call that failed before.
///
/// - `Done`: exactly where all events of the run were done and it has no fault. Nothing is put to `err` then.
/// - `Memory`: at any time. The line of the fault may be missing then.
/// - `Usage`: never.
/// - `Read`: exactly where the run comes to the fetch of a name that isn't there, or of a file beyond its limit; and
///   where a fetch failed, which comes only where the files' count of faults rose.
/// - `Write`: only where a put on standard output failed; its count of faults rose.
/// - `Script`: exactly where the run comes to a script that isn't UTF-8, whose tokens or statements are refused, or to
///   a statement that breaks a rule or has no room for its name.
/// - `Table`: exactly where the run comes to the file of a CREATE TABLE that is no table of its columns.
/// - `BadScore`: exactly where the run comes to a call whose answer lies outside 0 to the predicate's MAX, but for
///   those of a sample.
/// - `Probe`: only where a call failed; the scorer's count of faults rose.
/// - `Session`: exactly where the run comes to a DECLARE of a name that is taken, to a FETCH or CLOSE of one that no
///   open cursor has, or to a 65th cursor.
pub fn run_file<T: TableReader, F: Files, S: Scorer, O: Sink, E: Sink>(
    alloc: Global,
    evaluating: Evaluating,
    script: &Text,
    readers: &mut Readers<T>,
    files: &mut F,
    scorer: &mut S,
    out: &mut O,
    err: &mut E,
) -> Status
    // The clauses are those of `run`. Usage never comes, since there are no words.
    ensures run { FormRunsTo (Some (RunScript script.now evaluating)) result
        (environment (F.state files.old) (S.state scorer.old) (O.state out.old) (E.state err.old))
        (environment (F.state files.new) (S.state scorer.new) (O.state out.new) (E.state err.new)) }
    ensures usage { result ≢ Status.Usage }
    ensures write { result ≡ Status.Write → Faulted (O.state out.old) (O.state out.new) }
    ensures probe { result ≡ Status.Probe → Faulted (S.state scorer.old).outside (S.state scorer.new).outside }
    ensures keeps { KeepsEnvironment
        (environment (F.state files.old) (S.state scorer.old) (O.state out.old) (E.state err.old))
        (environment (F.state files.new) (S.state scorer.new) (O.state out.new) (E.state err.new)) }
{
    let mut host = Objects { files, scorer, out };
    match run_script(alloc, evaluating, script, readers, &mut host) {
        Ok(()) => Status::Done,
        Err(fault) => {
            let fault = RunFault::Statement(fault);
            report(alloc, &fault, err)
        }
    }
}

/// Does what the words say, up to the first fault.
fn answer<'f, 's, 'o, F: Files, S: Scorer, O: Sink>(
    alloc: Global,
    words: &[Text],
    host: &mut Objects<'f, 's, 'o, F, S, O>,
) -> Result<(), RunFault>
    ensures does { let state = ⟦<Objects<'f, 's, 'o, F, S, O> as Host>⟧.state in
        Runs run_faults (IsRun (finds_in (state host.old).files.contents) (state host.old).scorer.answer words.now) result (state host.old) (state host.new) }
    ensures unfetched { let state = ⟦<Objects<'f, 's, 'o, F, S, O> as Host>⟧.state in
        (number rows : ℕ) → form_of words.now ≡ Some (RunGenerated number rows) → (state host.new).files ≡ (state host.old).files }
{
    match command_line_of(words) {
        Some(command) => obey(alloc, command, host),
        None => Err(RunFault::Usage),
    }
}

/// Does what a command asks for, up to the first fault.
fn obey<'f, 's, 'o, F: Files, S: Scorer, O: Sink>(
    alloc: Global,
    command: CommandLine<'_>,
    host: &mut Objects<'f, 's, 'o, F, S, O>,
) -> Result<(), RunFault>
    requires { HasCertCount (form_of_command_line command) }
    ensures does { let state = ⟦<Objects<'f, 's, 'o, F, S, O> as Host>⟧.state in
        Runs run_faults (IsFormRun (finds_in (state host.old).files.contents) (state host.old).scorer.answer (form_of_command_line command.entry)) result
        (state host.old) (state host.new) }
    ensures unfetched { let state = ⟦<Objects<'f, 's, 'o, F, S, O> as Host>⟧.state in
        (number rows : ℕ) → form_of_command_line command.entry ≡ RunGenerated number rows → (state host.new).files ≡ (state host.old).files }
{
    match command {
        CommandLine::Top(words) => {
            top(alloc, words, host)?;
            Ok(())
        }
        CommandLine::RunScript(script, evaluating) => {
            run_script(alloc, evaluating, script, &mut Readers::new(), host)?;
            Ok(())
        }
        CommandLine::RunGenerated(number, rows) => {
            run_generated(alloc, number, rows, host)?;
            Ok(())
        }
        CommandLine::Threshold(script) => run_by_scan(alloc, script, &mut Readers::new(), host),
        CommandLine::Feed(words) => feed(alloc, words, host),
        CommandLine::Certify(words) => cert(alloc, words, host),
        CommandLine::Check(file) => check(alloc, file, host),
        CommandLine::Views(script) => run_with_views(alloc, script, &mut Readers::new(), host),
    }
}
