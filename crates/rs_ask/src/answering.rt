ghost use Rattle.std.specs.Prelude.{◌≡◌, ◌∷◌, ◌+◌, [], IfErr, IfOk, IfSome, None, OnErr, OnOk, Some, length};
ghost use Rattle.rs_value.specs.Outside.{Keeps};
ghost use Rattle.rs_scores.specs.Known.{score_of};
ghost use Rattle.rs_ask.specs.Answers.{score_in};
ghost use Rattle.rs_ask.specs.Putting.{PutsAll, PutsAndPart};
ghost use Rattle.rs_scores.specs.Lines.{known_line, question_line};
ghost use Rattle.rs_ask.specs.Asking.{AskStops, GivesAnswer, KeepStops, Learns, Replies, channel_state};

use crate::answer::read_answer;
use crate::answers::Answers;
use crate::channel::Channel;
use crate::no_answer::NoAnswer;
use crate::pass::Pass;
use crate::stop::Stop;
use rs_outside::{Sink, SinkFault};
use rs_scores::{KnownScore, KnownScores, Question};
use rs_value::List;
use std::alloc::Global;

/// Whether a question was asked and its score learned.
#[derive(Debug, Drop)]
pub(crate) enum Reply {
    /// There was no question.
    Nothing,
    Learned,
    Unanswered(NoAnswer),
}

/// Asks for the score of the question that is missing, reads the answer, keeps it, and adds it to the table.
pub(crate) fn ask<Q: Sink, A: Answers, K: Sink>(
    alloc: Global,
    pass: &Pass,
    known: &mut KnownScores,
    channel: &mut Channel<Q, A, K>,
) -> Result<Reply, Stop>
    requires { IfSome pass.now.missing (λ question. score_of question known.old ≡ None) }
    ensures ok { IfOk result (λ reply. Replies pass.now.missing pass.now.most reply known.old known.new
        (channel_state Q.state A.state K.state channel.old) (channel_state Q.state A.state K.state channel.new)) }
    ensures err { IfErr result (λ stop. AskStops pass.now.missing pass.now.most stop known.old known.new
        (channel_state Q.state A.state K.state channel.old) (channel_state Q.state A.state K.state channel.new)) }
{
    let Some(question) = &pass.missing else {
        return Ok(Reply::Nothing);
    };
    let question = question.copy()?;
    match answer_to(
        alloc,
        &question,
        pass.most,
        &mut channel.questions,
        &mut channel.answers,
    )? {
        Ok(score) => {
            let entry = KnownScore { question, score };
            keep(alloc, entry, known, &mut channel.scores)?;
            Ok(Reply::Learned)
        }
        Err(why) => Ok(Reply::Unanswered(why)),
    }
}

/// Asks a question, and reads its answer, where there is one.
fn answer_to<Q: Sink, A: Answers>(
    alloc: Global,
    question: &Question,
    most: u32,
    questions: &mut Q,
    answers: &mut A,
) -> Result<Result<i64, NoAnswer>, Stop>
    ensures ok { IfOk result (λ answer. GivesAnswer question.now most answer (Q.state questions.old) (Q.state questions.new) (A.state answers.old) (A.state answers.new)) }
    ensures err { IfErr result (λ stop. (stop ≡ Stop.Memory) × (A.state answers.new ≡ A.state answers.old)
        × PutsAndPart [] (Some (question_line question.now)) (Q.state questions.old) (Q.state questions.new)) }
    ensures asks { Keeps (Q.state questions.old) (Q.state questions.new) }
    ensures reads { Keeps (A.state answers.old) (A.state answers.new) }
{
    let line = question.line(alloc)?;
    match questions.put(&line) {
        Ok(()) => Ok(score_in(read_answer(answers), most)),
        // Who answers reads no more.
        Err(SinkFault::Failed) => Ok(Err(NoAnswer::Unasked)),
        Err(SinkFault::Memory) => Err(Stop::Memory),
    }
}

/// An answer as a score of a predicate, whose greatest score is this.
fn score_in(answer: Result<i64, NoAnswer>, most: u32) -> Result<i64, NoAnswer>
    ensures { result ≡ score_in most answer }
{
    match answer {
        Ok(number) => {
            if 0 <= number && number <= i64::from(most) {
                Ok(number)
            } else {
                Err(NoAnswer::OutOfRange(number))
            }
        }
        Err(why) => Err(why),
    }
}

/// Keeps a score, and then adds it to the table.
fn keep<K: Sink>(
    alloc: Global,
    entry: KnownScore,
    known: &mut KnownScores,
    scores: &mut K,
) -> Result<(), Stop>
    requires { score_of entry.question known.old ≡ None }
    ensures learns { OnOk result (Learns known.old known.new entry) }
    ensures count { OnOk result (length known.new.scores ≡ length known.old.scores + 1) }
    ensures kept { OnOk result (PutsAll (known_line entry ∷ []) (K.state scores.old) (K.state scores.new)) }
    ensures same { OnErr result (known.new ≡ known.old) }
    ensures stops { IfErr result (λ stop. KeepStops stop (known_line entry) (K.state scores.old) (K.state scores.new)) }
    ensures keeps { Keeps (K.state scores.old) (K.state scores.new) }
{
    let line = entry.line(alloc)?;
    match scores.put(&line) {
        Ok(()) => {}
        Err(SinkFault::Failed) => return Err(Stop::Lost(List::of(line))),
        Err(SinkFault::Memory) => return Err(Stop::Memory),
    }
    known.add(entry.question, entry.score)?;
    Ok(())
}
