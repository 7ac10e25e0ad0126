ghost use Rattle.std.specs.Prelude.{◌≡◌};
ghost use Rattle.rs_prepare.specs.DirEnds.{AreNewEnds, ChecksScores, ChecksSeen, Holds, Locks, OpensAnswers, OpensQuestions, OpensScores, UnopensOnly, answers_options, held_options, open_fault, opened_or, questions_options, scores_options};
ghost use Rattle.std.specs.IoError.{error_kind};

use crate::node::{About, FileKind, node_of};
use crate::open_fault::OpenFault;
use crate::opens::Opens;
use crate::questions::Questions;
use crate::seen::Seen;
use crate::system::System;
use rs_ask::ReadAnswers;
use rs_outside::OutSink;
use rs_value::Text;
use std::fs::OpenOptions;
use std::io::{self, ErrorKind};
use std::marker::Model;

/// The files of the system, by their paths, for an asking whose rows go to standard output. A file that is standard output, or that
/// another word of the asking names too, is refused, where the system tells the two apart; and so is a file of known scores that is
/// standard error. Contracts see which files are open, as the system told it.
#[derive(Drop)]
pub struct DirEnds<'a, R> {
    system: &'a R,
    seen: Seen,
}

impl<'a, R> Model for DirEnds<'a, R> {
    ghost use Rattle.rs_prepare.specs.DirEnds.{Ends};

    ghost Value = { Ends R };

    ghost view = { λ d. record { system = d.system.now; seen = d.seen } };
}

/// The fault that an error is when a file is opened.
fn fault_at_open(error: &io::Error) -> OpenFault
    ensures { result ≡ open_fault (error_kind error.now) }
{
    match error.kind() {
        ErrorKind::NotFound => OpenFault::Missing,
        ErrorKind::OutOfMemory => OpenFault::Memory,
        _ => OpenFault::Failed,
    }
}

/// What was opened, or why it was not.
fn opened<F: Drop>(file: io::Result<F>) -> Result<F, OpenFault>
    ensures { result ≡ opened_or file }
{
    match file {
        Ok(file) => Ok(file),
        Err(error) => Err(fault_at_open(&error)),
    }
}

/// What is asked for where the file of scores is opened.
fn scores_options() -> OpenOptions
    ensures { result ≡ scores_options }
{
    let mut how = questions_options();
    how.create(true);
    how
}

/// What is asked for where the file of questions is opened.
fn questions_options() -> OpenOptions
    ensures { result ≡ questions_options }
{
    let mut how = OpenOptions::new();
    how.append(true);
    how
}

/// What is asked for where the file of answers is opened.
fn answers_options() -> OpenOptions
    ensures { result ≡ answers_options }
{
    let mut how = OpenOptions::new();
    how.read(true);
    how
}

/// What is asked for where a FIFO is held open. Opened for reading and writing, it waits for nobody.
fn held_options() -> OpenOptions
    ensures { result ≡ held_options }
{
    let mut how = answers_options();
    how.write(true);
    how
}

impl<'a, R: System> DirEnds<'a, R> {
    /// The files of this system, of which none is open yet.
    pub fn new(system: &'a R) -> DirEnds<'a, R>
        ensures { AreNewEnds R.tells system.now result }
    {
        let seen = Seen {
            output: node_of(system.output()),
            error: node_of(system.error()),
            scores: None,
            questions: None,
        };
        DirEnds { system, seen }
    }

    /// Locks a file of which this is told as long as it is open, where it is a regular one.
    fn lock(&self, file: &R::File, about: Option<About>) -> Result<(), OpenFault>
        ensures { Locks R.tells self.now.system file.now about result }
    {
        match about {
            Some(
                About {
                    kind: FileKind::Regular,
                    ..
                },
            ) if self.system.is_in_use(file) => Err(OpenFault::InUse),
            _ => Ok(()),
        }
    }

    /// Refuses a file of scores of which this is told: one of those that are open, or else standard error, or else one that another
    /// program has locked. Else it is locked as long as it is open.
    #[tactic(auto, using(crate::proofs::EndsFacts::refuses_scores, crate::proofs::EndsFacts::refuses_error, crate::proofs::EndsFacts::checks_lock))]
    fn check_scores(&self, file: &R::File, about: Option<About>) -> Result<(), OpenFault>
        ensures { ChecksScores R.tells self.now file.now about result }
    {
        let node = node_of(about);
        self.seen.refuse(node)?;
        self.seen.refuse_error(node)?;
        self.lock(file, about)
    }

    /// Refuses a file of which this is told, where it is one of those that are open.
    #[tactic(auto, using(crate::proofs::EndsFacts::checks_seen))]
    fn check_seen(&self, about: Option<About>) -> Result<(), OpenFault>
        ensures { ChecksSeen self.now about result }
    {
        self.seen.refuse(node_of(about))
    }

    /// A FIFO that is to be held open: that of this name itself, so no pipe that the name only leads to.
    fn held(&self, name: &Text) -> Option<R::File>
        ensures { Holds R.tells self.now.system name.now result }
    {
        match self.system.file_named(name) {
            Some(
                About {
                    kind: FileKind::Fifo,
                    ..
                },
            ) => self.system.open(&held_options(), name).ok(),
            _ => None,
        }
    }
}

impl<'a, R: System> Opens for DirEnds<'a, R> {
    type Questions = Questions<R::File>;

    type Answers = ReadAnswers<R::File>;

    type Scores = OutSink<R::File>;

    ghost questions_to = { OpensQuestions R.tells };

    ghost answers_from = { OpensAnswers R.tells };

    ghost scores_in = { OpensScores R.tells };

    ghost refuses = { UnopensOnly R.tells };

    fn open_scores(&mut self, name: &Text) -> Result<OutSink<R::File>, OpenFault> {
        let file = opened(self.system.open(&scores_options(), name))?;
        let about = self.system.open_file(&file);
        self.check_scores(&file, about)?;
        self.seen.scores = node_of(about);
        Ok(OutSink::new(file))
    }

    fn open_questions(&mut self, name: &Text) -> Result<Questions<R::File>, OpenFault> {
        let held = self.held(name);
        let file = opened(self.system.open(&questions_options(), name))?;
        let about = self.system.open_file(&file);
        self.check_seen(about)?;
        self.seen.questions = node_of(about);
        Ok(Questions::new(file, held))
    }

    fn open_answers(&mut self, name: &Text) -> Result<ReadAnswers<R::File>, OpenFault> {
        let file = opened(self.system.open(&answers_options(), name))?;
        self.check_seen(self.system.open_file(&file))?;
        Ok(ReadAnswers::new(file))
    }
}
