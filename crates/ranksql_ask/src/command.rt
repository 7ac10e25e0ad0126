ghost use Rattle.std.specs.Prelude.{◌≡◌, ◌∷◌, [], OnErr, OnOk, Some, codes};
ghost use Rattle.rs_value.specs.Outside.{Keeps};
ghost use Rattle.rs_run.specs.Outcome.{PutsLine, PutsNothing};
ghost use Rattle.rs_events.specs.Status.{exit_status_of};
ghost use Rattle.rs_ask.specs.Asking.{AskingState, channel_state};
ghost use Rattle.rs_prepare.specs.Preparing.{end_words, openings};
ghost use Rattle.rs_scores.specs.KnownFiles.{known_state};
ghost use Rattle.ranksql_ask.specs.AskFaults.{NoPredicate, ask_line, ask_status, refusal};
ghost use Rattle.ranksql_ask.specs.Endings.{Commands, Obeys, Readies, Tells, TellsMemory};
ghost use Rattle.ranksql_ask.specs.Lines.{end_lines, end_status, stop_lines, stop_status};
ghost use Rattle.ranksql_ask.specs.Parts.Asking.{request_made};
ghost use Rattle.ranksql_ask.specs.Words.{request_of};

use crate::ending::{counts_line, end_status, last_line};
use crate::fault::StartFault;
use crate::script::Script;
use crate::words::{Request, request_of};
use rs_ask::{Answers, Asked, Channel, Rerun, Stop, ask_and_run};
use rs_outside::{Files, Sink, SinkFault};
use rs_prepare::{EndNames, Opens, prepare};
use rs_run::{KnownScript, Readers, Status, unmade_predicate};
use rs_scores::{KnownFiles, KnownScores, KnownTables};
use rs_value::{Memory, Text};
use std::alloc::Global;

/// The exit status where a run doesn't begin with what was put already.
const DIFFERS: u8 = 10;

/// Does all that the program does: takes the words of the command line without the program's name, looks whether the script makes the
/// predicates that are asked for, makes ready what the asking needs, runs the words that are left, and puts a line with the counts to
/// `err` at the end. Answers the exit status, and gives back the sink of the rows.
///
/// `opens` opens the files of the asking, the known scores are read from `kept`, and script and tables from `files`.
pub fn command<H: Opens, F: Files, G: Files + Drop, O: Sink, E: Sink>(
    alloc: Global,
    words: &[Text],
    opens: &mut H,
    kept: &mut F,
    files: G,
    out: O,
    err: &mut E,
) -> (u8, O)
    ensures { Commands (openings H.questions_to H.answers_from H.scores_in H.refuses) (channel_state H.Questions.state H.Answers.state H.Scores.state) (request_of words.now) (known_state [] (G.state files)) result.0
        (record { opens = opens.old; kept = F.state kept.old; out = O.state out; err = E.state err.old })
        (record { opens = opens.new; kept = F.state kept.new; out = O.state result.1; err = E.state err.new }) }
{
    match request_of(alloc, words) {
        Ok(Some(request)) => answer(alloc, request, opens, kept, files, out, err),
        Ok(None) => {
            drop(files);
            (refuse(alloc, &StartFault::Usage, err), out)
        }
        Err(Memory) => {
            drop(files);
            (refuse(alloc, &StartFault::Memory, err), out)
        }
    }
}

/// Does what is asked for, where the script makes the predicates.
fn answer<H: Opens, F: Files, G: Files + Drop, O: Sink, E: Sink>(
    alloc: Global,
    request: Request<'_>,
    opens: &mut H,
    kept: &mut F,
    files: G,
    out: O,
    err: &mut E,
) -> (u8, O)
    ensures { Commands (openings H.questions_to H.answers_from H.scores_in H.refuses) (channel_state H.Questions.state H.Answers.state H.Scores.state) (Some (request_made request.entry)) (known_state [] (G.state files)) result.0
        (record { opens = opens.old; kept = F.state kept.old; out = O.state out; err = E.state err.old })
        (record { opens = opens.new; kept = F.state kept.new; out = O.state result.1; err = E.state err.new }) }
{
    let Request {
        names,
        ends,
        asking,
    } = request;
    let mut readers = Readers {
        script: KnownScript::new(),
        tables: KnownTables::new(alloc),
    };
    let mut files = KnownFiles::new(alloc, files);
    match unmade_predicate(alloc, asking.script, &names, &mut readers, &mut files) {
        Ok(None) => {
            let mut script = Script {
                asking,
                readers,
                files: Some(files),
            };
            make_ready(alloc, names, ends, &mut script, opens, kept, out, err)
        }
        Ok(Some(name)) => (refuse_name(alloc, name, err), out),
        Err(Memory) => (refuse(alloc, &StartFault::Memory, err), out),
    }
}

/// Makes ready what the asking needs, and asks and runs.
fn make_ready<R: Rerun, H: Opens, F: Files, O: Sink, E: Sink>(
    alloc: Global,
    names: Vec<Text>,
    ends: EndNames<'_>,
    runs: &mut R,
    opens: &mut H,
    kept: &mut F,
    out: O,
    err: &mut E,
) -> (u8, O)
    ensures { Readies (openings H.questions_to H.answers_from H.scores_in H.refuses) (channel_state H.Questions.state H.Answers.state H.Scores.state) R.ran names.items (end_words ends.entry) result.0 runs.old runs.new
        (record { opens = opens.old; kept = F.state kept.old; out = O.state out; err = E.state err.old })
        (record { opens = opens.new; kept = F.state kept.new; out = O.state result.1; err = E.state err.new }) }
{
    match prepare(alloc, names, ends, opens, kept) {
        Ok(mut prepared) => obey(
            alloc,
            runs,
            &mut prepared.known,
            &mut prepared.channel,
            out,
            err,
        ),
        Err(why) => (refuse(alloc, &StartFault::of(ends, why), err), out),
    }
}

/// Asks and runs, and tells how it ended.
fn obey<R: Rerun, Q: Sink, A: Answers, K: Sink, O: Sink, E: Sink>(
    alloc: Global,
    runs: &mut R,
    known: &mut KnownScores,
    channel: &mut Channel<Q, A, K>,
    out: O,
    err: &mut E,
) -> (u8, O)
    ensures { Obeys R.ran result.0 runs.old known.old runs.new known.new
        (record { channel = channel_state Q.state A.state K.state channel.old; out = O.state out })
        (record { channel = channel_state Q.state A.state K.state channel.new; out = O.state result.1 })
        (E.state err.old) (E.state err.new) }
{
    let before = known.len();
    let (ended, out) = ask_and_run(alloc, runs, known, channel, out);
    match ended {
        Ok(asked) => (tell_end(alloc, &asked, before, err), out),
        Err(stop) => (tell_stop(&stop, err), out),
    }
}

/// Puts the line of how the last run ended, and the line with the counts.
fn tell_end<E: Sink>(alloc: Global, asked: &Asked, before: usize, err: &mut E) -> u8
    ensures { Tells (end_lines asked.now before) (end_status asked.now) result (E.state err.old) (E.state err.new) }
{
    let Ok(line) = last_line(alloc, asked) else {
        return tell_memory(err);
    };
    if tell(&line, err).is_err() {
        return tell_memory(err);
    }
    match counts_line(alloc, asked, before) {
        Ok(line) => tell_one(line.as_bytes(), end_status(asked), err),
        Err(Memory) => tell_memory(err),
    }
}

/// Puts the lines of what stopped it.
fn tell_stop<E: Sink>(stop: &Stop, err: &mut E) -> u8
    ensures { Tells (stop_lines stop.now) (stop_status stop.now) result (E.state err.old) (E.state err.new) }
{
    match stop {
        Stop::Differs => tell_one(b"differs\n", DIFFERS, err),
        Stop::Write => tell_one(b"write\n", Status::Write.number(), err),
        Stop::Lost(line) => tell_lost(line.items(), err),
        Stop::Memory => tell_one(b"memory\n", Status::Memory.number(), err),
    }
}

/// Tells a score that couldn't be kept by the line that isn't in the file of known scores, as it is to stand there.
fn tell_lost<E: Sink>(line: &[u8], err: &mut E) -> u8
    ensures { Tells (codes "write: not kept:\n" ∷ line.now ∷ []) 4 result (E.state err.old) (E.state err.new) }
{
    match tell(b"write: not kept:\n", err) {
        Ok(()) => tell_one(line, Status::Write.number(), err),
        Err(Memory) => tell_memory(err),
    }
}

/// Puts the line of a name of which the script makes no predicate.
fn refuse_name<E: Sink>(alloc: Global, name: &Text, err: &mut E) -> u8
    ensures { Tells (ask_line (NoPredicate name.now) ∷ []) (exit_status_of (ask_status (NoPredicate name.now))) result (E.state err.old) (E.state err.new) }
{
    refuse(alloc, &StartFault::NoPredicate(name), err)
}

/// Puts the line of a fault before any run.
fn refuse<E: Sink>(alloc: Global, fault: &StartFault<'_>, err: &mut E) -> u8
    ensures { Tells (ask_line (refusal fault.now) ∷ []) (exit_status_of (ask_status (refusal fault.now))) result (E.state err.old) (E.state err.new) }
{
    match fault.line(alloc) {
        Ok(line) => tell_one(line.as_bytes(), fault.status().number(), err),
        Err(Memory) => tell_memory(err),
    }
}

/// Puts a last line, and answers the status.
fn tell_one<E: Sink>(line: &[u8], status: u8, err: &mut E) -> u8
    ensures { Tells (line.now ∷ []) status result (E.state err.old) (E.state err.new) }
{
    match tell(line, err) {
        Ok(()) => status,
        Err(Memory) => tell_memory(err),
    }
}

/// Puts a line, where there is memory for it. That a put fails is told nowhere.
fn tell<E: Sink>(line: &[u8], err: &mut E) -> Result<(), Memory>
    ensures ok { OnOk result (PutsLine line.now (E.state err.old) (E.state err.new)) }
    ensures err { OnErr result (PutsNothing (E.state err.old) (E.state err.new)) }
    ensures keeps { Keeps (E.state err.old) (E.state err.new) }
{
    match err.put(line) {
        Ok(()) | Err(SinkFault::Failed) => Ok(()),
        Err(SinkFault::Memory) => Err(Memory),
    }
}

/// Puts the line of want of memory.
fn tell_memory<E: Sink>(err: &mut E) -> u8
    ensures status { result ≡ 1 }
    ensures tells { TellsMemory (E.state err.old) (E.state err.new) }
{
    let _ = tell(b"memory\n", err);
    Status::Memory.number()
}
