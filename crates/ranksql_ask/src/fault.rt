ghost use Rattle.std.specs.Prelude.{◌≡◌, IfOk};
ghost use Rattle.std.specs.String.{string_bytes};
ghost use Rattle.rs_prepare.specs.Preparing.{end_words};
ghost use Rattle.ranksql_ask.specs.AskFaults.{Scores, ask_line, ask_status, end_text, known_text, one_file_line, read_line, refusal, stream_text, unopened, unready};

use rs_outside::FetchFault;
use rs_prepare::{End, EndNames, OpenFault, PrepareFault, Stream};
use rs_run::{Fault, RunFault, Status};
use rs_scores::{KnownFault, ScoresFault};
use rs_value::{Memory, Text};
use std::alloc::Global;

/// Why nothing is run.
#[derive(Clone, Copy, Debug)]
pub enum StartFault<'a> {
    /// The words are of no form.
    Usage,
    Memory,
    /// The script makes no predicate of this name.
    NoPredicate(&'a Text),
    /// The file of this name can't be read.
    Read(&'a Text, FetchFault),
    /// The file of questions or that of scores can't be written to.
    Write,
    /// The file of this name holds something that is no known score.
    Scores(&'a Text, KnownFault),
    /// Another run has locked the file of known scores of this name.
    InUse(&'a Text),
    /// The file of this end is one that is in use already.
    OneFile(End, Stream),
}

impl<'a> StartFault<'a> {
    /// The fault of what doesn't stand ready.
    pub fn of(ends: EndNames<'a>, why: PrepareFault) -> StartFault<'a>
        ensures { refusal result ≡ unready (end_words ends.entry) why }
    {
        match why {
            PrepareFault::Unopened(end, why) => StartFault::of_unopened(ends, end, why),
            PrepareFault::Unread(ScoresFault::Memory) => StartFault::Memory,
            PrepareFault::Unread(ScoresFault::Fetch(why)) => StartFault::Read(ends.scores, why),
            PrepareFault::Unread(ScoresFault::Refused(why)) => StartFault::Scores(ends.scores, why),
        }
    }

    /// The fault of an end that isn't opened.
    fn of_unopened(ends: EndNames<'a>, end: End, why: OpenFault) -> StartFault<'a>
        ensures { refusal result ≡ unopened (end_words ends.entry) end why }
    {
        match (why, end) {
            (OpenFault::Memory, _) => StartFault::Memory,
            (OpenFault::OneFile(stream), end) => StartFault::OneFile(end, stream),
            (OpenFault::InUse, End::Scores) => StartFault::InUse(ends.scores),
            (OpenFault::Missing, End::Answers) => StartFault::Read(
                ends.answers,
                FetchFault::Missing,
            ),
            (_, End::Answers) => StartFault::Read(ends.answers, FetchFault::Failed),
            (_, _) => StartFault::Write,
        }
    }

    /// How the program ends then.
    pub fn status(&self) -> Status
        ensures { result ≡ ask_status (refusal self.now) }
    {
        match self {
            StartFault::Usage => Status::Usage,
            StartFault::Memory => Status::Memory,
            StartFault::NoPredicate(_) => Status::Script,
            StartFault::Read(..) => Status::Read,
            StartFault::Write | StartFault::OneFile(..) => Status::Write,
            StartFault::Scores(..) | StartFault::InUse(_) => Status::Table,
        }
    }

    /// The line of it for standard error.
    ///
    /// # Errors
    ///
    /// - `Memory`: at any call.
    pub fn line(&self, alloc: Global) -> Result<String, Memory>
        ensures { IfOk result (λ line. string_bytes line ≡ ask_line (refusal self.now)) }
    {
        match self {
            StartFault::Usage => Ok(String::from_str(
                alloc,
                "usage: ranksql_ask NAMES SCORES QUESTIONS ANSWERS run SCRIPT SEED, or plain SCRIPT behind ANSWERS\n",
            )?),
            StartFault::Memory => Ok(String::from_str(alloc, "memory\n")?),
            StartFault::NoPredicate(name) => {
                let name = name.as_str();
                Ok(format!(in alloc; "ask: no predicate {name}\n")?)
            }
            StartFault::Read(name, why) => read_line(alloc, name, *why),
            StartFault::Write => Ok(String::from_str(alloc, "write\n")?),
            StartFault::Scores(name, why) => scores_line(alloc, name, why),
            StartFault::InUse(name) => {
                let name = name.as_str();
                Ok(format!(in alloc; "scores: {name}: InUse\n")?)
            }
            StartFault::OneFile(end, stream) => one_file_line(alloc, *end, *stream),
        }
    }
}

/// The line of a file that isn't read.
fn read_line(alloc: Global, name: &Text, why: FetchFault) -> Result<String, Memory>
    ensures { IfOk result (λ line. string_bytes line ≡ read_line name.now why) }
{
    let name = name.copy()?;
    RunFault::Statement(Fault::Read { name, why }).line(alloc)
}

/// The line of a file of known scores that is refused.
fn scores_line(alloc: Global, name: &Text, why: &KnownFault) -> Result<String, Memory>
    ensures { IfOk result (λ line. string_bytes line ≡ ask_line (Scores name.now why.now)) }
{
    let why = known_text(alloc, why)?;
    let name = name.as_str();
    let why = why.as_str();
    Ok(format!(in alloc; "scores: {name}: {why}\n")?)
}

/// Why a file holds no known scores.
fn known_text(alloc: Global, why: &KnownFault) -> Result<String, Memory>
    ensures { IfOk result (λ text. string_bytes text ≡ known_text why.now) }
{
    match why {
        KnownFault::NotEnded => Ok(String::from_str(alloc, "NotEnded")?),
        KnownFault::FieldCount { number, found } => {
            Ok(format!(in alloc; "FieldCount record {number} found {found}")?)
        }
        KnownFault::NotAsked { number } => Ok(format!(in alloc; "NotAsked record {number}")?),
        KnownFault::NotUtf8 { number, field } => {
            Ok(format!(in alloc; "NotUtf8 record {number} field {field}")?)
        }
        KnownFault::NotScore { number } => Ok(format!(in alloc; "NotScore record {number}")?),
        KnownFault::Twice { number } => Ok(format!(in alloc; "Twice record {number}")?),
        KnownFault::Memory => Ok(String::from_str(alloc, "memory")?),
    }
}

/// The line of a file that is in use already.
fn one_file_line(alloc: Global, end: End, stream: Stream) -> Result<String, Memory>
    ensures { IfOk result (λ line. string_bytes line ≡ one_file_line end stream) }
{
    let end = end_text(end);
    let stream = stream_text(stream);
    Ok(format!(in alloc; "ask: {end} {stream}\n")?)
}

/// The word of an end.
fn end_text(end: End) -> &'static str
    ensures { result.now ≡ end_text end }
{
    match end {
        End::Questions => "QUESTIONS",
        End::Answers => "ANSWERS",
        End::Scores => "SCORES",
    }
}

/// What a file is.
fn stream_text(stream: Stream) -> &'static str
    ensures { result.now ≡ stream_text stream }
{
    match stream {
        Stream::Output => "is standard output",
        Stream::Error => "is standard error",
        Stream::Scores => "and SCORES are one file",
        Stream::Questions => "and QUESTIONS are one file",
    }
}
