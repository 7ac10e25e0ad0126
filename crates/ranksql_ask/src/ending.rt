ghost use Rattle.std.specs.Prelude.{◌≡◌, [], IfOk, length, slice_index_or};
ghost use Rattle.std.specs.String.{string_bytes};
ghost use Rattle.ranksql_ask.specs.Lines.{counts_line, end_status, last_line, no_number, out_of_range_line, pass_line, predicate_of, probe_line, question_count, unanswered_line};

use rs_ask::{Asked, NoAnswer, Pass};
use rs_run::Status;
use rs_scores::Question;
use rs_value::Memory;
use std::alloc::Global;

/// The status of the program where it ended with a run.
pub fn end_status(asked: &Asked) -> u8
    ensures { result ≡ end_status asked.now }
{
    match asked.unanswered {
        Some(NoAnswer::OutOfRange(_)) => Status::BadScore.number(),
        _ => asked.pass.status,
    }
}

/// The line of how the last run ended, which may be empty. Where its question has no answer it says why.
///
/// # Errors
///
/// - `Memory`: at any call.
pub fn last_line(alloc: Global, asked: &Asked) -> Result<Vec<u8>, Memory>
    ensures { IfOk result (λ line. line.items ≡ last_line asked.now) }
{
    match (&asked.pass.missing, &asked.unanswered) {
        (Some(question), Some(why)) => unanswered_line(alloc, question, asked.pass.most, why),
        _ => copied(alloc, pass_line(&asked.pass)),
    }
}

/// The line of a run, which may be empty.
fn pass_line(pass: &Pass) -> &[u8]
    ensures { result.now ≡ pass_line pass.now }
{
    if pass.lacked_memory {
        // The run may not have kept its line.
        b"memory\n"
    } else {
        pass.err.bytes()
    }
}

/// The line of a question that has no answer.
fn unanswered_line(
    alloc: Global,
    question: &Question,
    most: u32,
    why: &NoAnswer,
) -> Result<Vec<u8>, Memory>
    ensures { IfOk result (λ line. line.items ≡ unanswered_line question.now most why.now) }
{
    match why {
        NoAnswer::Unasked | NoAnswer::Ended => probe_line(alloc, question, b"closed"),
        NoAnswer::Unread => probe_line(alloc, question, b"read"),
        NoAnswer::TooLong => probe_line(alloc, question, b"more than 64 bytes"),
        NoAnswer::NotNumber(line) => probe_line(alloc, question, &no_number(alloc, line.bytes())?),
        NoAnswer::OutOfRange(number) => out_of_range_line(alloc, question, most, *number),
    }
}

/// The line of a question whose answer is none for this reason.
fn probe_line(alloc: Global, question: &Question, why: &[u8]) -> Result<Vec<u8>, Memory>
    ensures { IfOk result (λ line. line.items ≡ probe_line question.now why.now) }
{
    let mut line = copied(alloc, b"probe: ")?;
    line.extend_from_slice(predicate_of(question))?;
    line.extend_from_slice(b": ")?;
    line.extend_from_slice(why)?;
    line.extend_from_slice(b"\n")?;
    Ok(line)
}

/// What is told of a line that has no number.
fn no_number(alloc: Global, answer: &[u8]) -> Result<Vec<u8>, Memory>
    ensures { IfOk result (λ text. text.items ≡ no_number answer.now) }
{
    let mut text = copied(alloc, b"\"")?;
    text.extend_from_slice(answer)?;
    text.extend_from_slice(b"\" is no whole number")?;
    Ok(text)
}

/// The line of a question whose answer is no score of its predicate.
fn out_of_range_line(
    alloc: Global,
    question: &Question,
    most: u32,
    number: i64,
) -> Result<Vec<u8>, Memory>
    ensures { IfOk result (λ line. line.items ≡ out_of_range_line question.now most number) }
{
    let told = format!(in alloc; "score: {number} is not in 0..{most}: ")?;
    let mut line = copied(alloc, told.as_bytes())?;
    line.extend_from_slice(&question.line(alloc)?)?;
    Ok(line)
}

/// The name of the predicate that a question asks for.
fn predicate_of(question: &Question) -> &[u8]
    ensures { result.now ≡ predicate_of question.now }
{
    match question.fields() {
        [name, ..] => name.bytes(),
        [] => b"",
    }
}

/// A copy of these bytes.
fn copied(alloc: Global, bytes: &[u8]) -> Result<Vec<u8>, Memory>
    ensures { IfOk result (λ copy. copy.items ≡ bytes.now) }
{
    let mut copy = Vec::new(alloc);
    copy.extend_from_slice(bytes)?;
    Ok(copy)
}

/// How many questions were asked, of which the last may have no answer.
fn question_count(asked: &Asked) -> u64
    ensures { result ≡ question_count asked.now }
{
    let unanswered = match asked.pass.missing {
        None => 0,
        Some(_) => 1,
    };
    (asked.answers as u64).saturating_add(unanswered)
}

/// The line with the counts.
///
/// # Errors
///
/// - `Memory`: at any call.
pub fn counts_line(alloc: Global, asked: &Asked, known: usize) -> Result<String, Memory>
    ensures { IfOk result (λ line. string_bytes line ≡ counts_line asked.now known) }
{
    let calls = asked.pass.calls;
    let questions = question_count(asked);
    Ok(format!(in alloc; "calls={calls} questions={questions} known={known}\n")?)
}
