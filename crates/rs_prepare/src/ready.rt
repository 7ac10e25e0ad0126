ghost use Rattle.std.specs.Prelude.{IfErr, IfOk};
ghost use Rattle.rs_prepare.specs.Preparing.{Opened, Prepares, end_words, openings};

use crate::fault::PrepareFault;
use crate::open_fault::End;
use crate::opens::Opens;
use rs_ask::Channel;
use rs_outside::Files;
use rs_scores::{KnownScores, read_known};
use rs_value::Text;
use std::alloc::Global;

/// The names of the three files.
#[derive(Clone, Copy, Debug)]
pub struct EndNames<'a> {
    pub scores: &'a Text,
    pub questions: &'a Text,
    pub answers: &'a Text,
}

/// What stands ready before the first run.
#[derive(Drop)]
pub struct Prepared<Q, A, K> {
    pub known: KnownScores,
    pub channel: Channel<Q, A, K>,
}

/// Makes ready what an asking needs for the predicates of these names. First it opens the file of known scores, so that one that
/// can't be written to or is in use is found before anything is asked; then it reads what is known; and then it opens the file of
/// questions and that of answers.
///
/// # Errors
///
/// - `Unopened`: exactly where the outside refuses to open a file so.
/// - Those of `read_known`: exactly where it gives them for the file of known scores.
pub fn prepare<H: Opens, F: Files>(
    alloc: Global,
    names: Vec<Text>,
    ends: EndNames<'_>,
    opens: &mut H,
    files: &mut F,
) -> Result<Prepared<H::Questions, H::Answers, H::Scores>, PrepareFault>
    ensures { Prepares (openings H.questions_to H.answers_from H.scores_in H.refuses) names.items (end_words ends.entry) result opens.old opens.new (F.state files.old) (F.state files.new) }
{
    let scores = match opens.open_scores(ends.scores) {
        Ok(scores) => scores,
        Err(why) => {
            drop(names);
            return Err(PrepareFault::Unopened(End::Scores, why));
        }
    };
    let known = match read_known(alloc, names, ends.scores, files) {
        Ok(known) => known,
        Err(why) => {
            drop(scores);
            return Err(PrepareFault::Unread(why));
        }
    };
    match open_pair(ends, opens) {
        Ok((questions, answers)) => Ok(Prepared {
            known,
            channel: Channel {
                questions,
                answers,
                scores,
            },
        }),
        Err(fault) => {
            drop(known);
            drop(scores);
            Err(fault)
        }
    }
}

/// Opens the file of questions and then that of answers.
fn open_pair<H: Opens>(
    ends: EndNames<'_>,
    opens: &mut H,
) -> Result<(H::Questions, H::Answers), PrepareFault>
    ensures { Opened (openings H.questions_to H.answers_from H.scores_in H.refuses) (end_words ends.entry) result opens.old opens.new }
{
    let questions = match opens.open_questions(ends.questions) {
        Ok(questions) => questions,
        Err(why) => return Err(PrepareFault::Unopened(End::Questions, why)),
    };
    match opens.open_answers(ends.answers) {
        Ok(answers) => Ok((questions, answers)),
        Err(why) => {
            drop(questions);
            Err(PrepareFault::Unopened(End::Answers, why))
        }
    }
}
