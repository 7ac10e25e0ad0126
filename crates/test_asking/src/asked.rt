//! What is put, asked and kept where runs miss scores one after another.

use crate::failing::FailingBytes;
use crate::planned::{Planned, PlannedRuns};
use crate::told::{Told, is_told};
use rs_ask::{Asked, Channel, NoAnswer, ReadAnswers, Stop, ask_and_run};
use rs_outside::MemSink;
use rs_scores::KnownScores;
use rs_value::Text;
use std::alloc::Global;
use std::io::ErrorKind;
use std::process::Abort;
use std::test::Fail;

/// What fails: the put of a row, of a question or of a score of this number, behind so many bytes, or the read of this number. A byte
/// of the answers takes one read.
enum Fails {
    Row(u32, usize),
    Question(u32, usize),
    Score(u32, usize),
    Read(u64),
}

/// How it ends: with a run, behind so many answers; with a question that has no answer; or stopped.
enum Ending {
    Run(usize),
    Unanswered(usize, Told),
    Differs,
    Write,
    Lost(&'static [u8]),
    Memory,
}

/// Runs, the bytes of the answers, and what fails; then how it ends; all that was put, asked and kept; and what is left of the
/// answers.
struct Case {
    runs: &'static [Planned],
    answers: &'static [u8],
    fails: Option<Fails>,
    ended: Ending,
    out: &'static [u8],
    questions: &'static [u8],
    scores: &'static [u8],
    left: &'static [u8],
}

const CASES: [Case; 25] = [
    // Nothing is missing.
    Case {
        runs: &[(&[b"a\n"], -1, false)],
        answers: b"9\n",
        fails: None,
        ended: Ending::Run(0),
        out: b"a\n",
        questions: b"",
        scores: b"",
        left: b"9\n",
    },
    // Two scores are missing, and each run goes on where the one before it ended.
    Case {
        runs: &[
            (&[], 5, false),
            (&[b"a\n"], 6, false),
            (&[b"a\n", b"b\n"], -1, false),
        ],
        answers: b"70\n100 \r\n",
        fails: None,
        ended: Ending::Run(2),
        out: b"a\nb\n",
        questions: b"near,5\nnear,6\n",
        scores: b"near,5,70\nnear,6,100\n",
        left: b"",
    },
    // The answers end.
    Case {
        runs: &[(&[], 5, false), (&[b"a\n"], 6, false)],
        answers: b"70\n",
        fails: None,
        ended: Ending::Unanswered(1, Told::Ended),
        out: b"a\n",
        questions: b"near,5\nnear,6\n",
        scores: b"near,5,70\n",
        left: b"",
    },
    // An answer is no number.
    Case {
        runs: &[(&[b"a\n"], 5, false)],
        answers: b"x\n",
        fails: None,
        ended: Ending::Unanswered(0, Told::NotNumber(b"x")),
        out: b"a\n",
        questions: b"near,5\n",
        scores: b"",
        left: b"",
    },
    // A run puts less than was put already.
    Case {
        runs: &[(&[b"a\n"], 5, false), (&[], -1, false)],
        answers: b"70\n",
        fails: None,
        ended: Ending::Differs,
        out: b"a\n",
        questions: b"near,5\n",
        scores: b"near,5,70\n",
        left: b"",
    },
    // A run puts something else.
    Case {
        runs: &[(&[b"a\n"], 5, false), (&[b"b\n", b"c\n"], -1, false)],
        answers: b"70\n",
        fails: None,
        ended: Ending::Differs,
        out: b"a\n",
        questions: b"near,5\n",
        scores: b"near,5,70\n",
        left: b"",
    },
    // A run lacks memory before it has put what was put already.
    Case {
        runs: &[(&[b"a\n"], 5, false), (&[], -1, true)],
        answers: b"70\n",
        fails: None,
        ended: Ending::Memory,
        out: b"a\n",
        questions: b"near,5\n",
        scores: b"near,5,70\n",
        left: b"",
    },
    // A run lacks memory behind a row that wasn't put yet.
    Case {
        runs: &[(&[b"a\n"], 5, false), (&[b"a\n", b"b\n"], -1, true)],
        answers: b"70\n",
        fails: None,
        ended: Ending::Run(1),
        out: b"a\nb\n",
        questions: b"near,5\n",
        scores: b"near,5,70\n",
        left: b"",
    },
    // A run that misses a score that is known by then says so no more, and is the last.
    Case {
        runs: &[(&[], 5, false), (&[b"a\n"], 5, false)],
        answers: b"70\n80\n",
        fails: None,
        ended: Ending::Run(1),
        out: b"a\n",
        questions: b"near,5\n",
        scores: b"near,5,70\n",
        left: b"80\n",
    },
    // The last answer isn't ended.
    Case {
        runs: &[(&[], 5, false), (&[b"a\n"], 6, false)],
        answers: b"70\n80",
        fails: None,
        ended: Ending::Unanswered(1, Told::Ended),
        out: b"a\n",
        questions: b"near,5\nnear,6\n",
        scores: b"near,5,70\n",
        left: b"",
    },
    // The put of the first question fails at once: no answer is read.
    Case {
        runs: &[(&[b"a\n"], 5, false)],
        answers: b"70\n",
        fails: Some(Fails::Question(1, 0)),
        ended: Ending::Unanswered(0, Told::Unasked),
        out: b"a\n",
        questions: b"",
        scores: b"",
        left: b"70\n",
    },
    // That of the second one fails behind three bytes of it.
    Case {
        runs: &[(&[], 5, false), (&[b"a\n"], 6, false)],
        answers: b"70\n80\n",
        fails: Some(Fails::Question(2, 3)),
        ended: Ending::Unanswered(1, Told::Unasked),
        out: b"a\n",
        questions: b"near,5\nnea",
        scores: b"near,5,70\n",
        left: b"80\n",
    },
    // The read of each byte of the first answer fails, and then that of the second answer's first byte.
    Case {
        runs: &[(&[], 5, false), (&[b"a\n"], 6, false)],
        answers: b"70\n80\n",
        fails: Some(Fails::Read(1)),
        ended: Ending::Unanswered(0, Told::Unread),
        out: b"",
        questions: b"near,5\n",
        scores: b"",
        left: b"70\n80\n",
    },
    Case {
        runs: &[(&[], 5, false), (&[b"a\n"], 6, false)],
        answers: b"70\n80\n",
        fails: Some(Fails::Read(2)),
        ended: Ending::Unanswered(0, Told::Unread),
        out: b"",
        questions: b"near,5\n",
        scores: b"",
        left: b"0\n80\n",
    },
    Case {
        runs: &[(&[], 5, false), (&[b"a\n"], 6, false)],
        answers: b"70\n80\n",
        fails: Some(Fails::Read(3)),
        ended: Ending::Unanswered(0, Told::Unread),
        out: b"",
        questions: b"near,5\n",
        scores: b"",
        left: b"\n80\n",
    },
    Case {
        runs: &[(&[], 5, false), (&[b"a\n"], 6, false)],
        answers: b"70\n80\n",
        fails: Some(Fails::Read(4)),
        ended: Ending::Unanswered(1, Told::Unread),
        out: b"a\n",
        questions: b"near,5\nnear,6\n",
        scores: b"near,5,70\n",
        left: b"80\n",
    },
    // The put of the second score fails behind four bytes of its line: its answer is lost.
    Case {
        runs: &[(&[], 5, false), (&[b"a\n"], 6, false)],
        answers: b"70\n80\n",
        fails: Some(Fails::Score(2, 4)),
        ended: Ending::Lost(b"near,6,80\n"),
        out: b"a\n",
        questions: b"near,5\nnear,6\n",
        scores: b"near,5,70\nnear",
        left: b"",
    },
    // A number above the greatest score, and one below 0: neither is kept.
    Case {
        runs: &[(&[b"a\n"], 5, false)],
        answers: b"101\n70\n",
        fails: None,
        ended: Ending::Unanswered(0, Told::OutOfRange(101)),
        out: b"a\n",
        questions: b"near,5\n",
        scores: b"",
        left: b"70\n",
    },
    Case {
        runs: &[(&[], 5, false), (&[b"a\n"], 6, false)],
        answers: b"0\n-1\n",
        fails: None,
        ended: Ending::Unanswered(1, Told::OutOfRange(-1)),
        out: b"a\n",
        questions: b"near,5\nnear,6\n",
        scores: b"near,5,0\n",
        left: b"",
    },
    // A later run puts the same bytes in other pieces, and more.
    Case {
        runs: &[
            (&[b"a\nb\n"], 5, false),
            (&[b"a", b"\n", b"b\nc\n", b"d\n"], -1, false),
        ],
        answers: b"70\n",
        fails: None,
        ended: Ending::Run(1),
        out: b"a\nb\nc\nd\n",
        questions: b"near,5\n",
        scores: b"near,5,70\n",
        left: b"",
    },
    // It differs in the middle of a piece, behind one that doesn't: nothing more is put.
    Case {
        runs: &[
            (&[b"a\n", b"b\n"], 5, false),
            (&[b"a\n", b"bc\n", b"d\n"], -1, false),
        ],
        answers: b"70\n",
        fails: None,
        ended: Ending::Differs,
        out: b"a\nb\n",
        questions: b"near,5\n",
        scores: b"near,5,70\n",
        left: b"",
    },
    // A run that lacks memory behind a part of what was put: that stays, and isn't put once more.
    Case {
        runs: &[(&[b"a\n", b"b\n"], 5, false), (&[b"a\n"], -1, true)],
        answers: b"70\n",
        fails: None,
        ended: Ending::Memory,
        out: b"a\nb\n",
        questions: b"near,5\n",
        scores: b"near,5,70\n",
        left: b"",
    },
    // The put of the first row fails, and that of the second one behind a byte of it: nothing is asked.
    Case {
        runs: &[(&[b"a\n", b"b\n"], 5, false)],
        answers: b"70\n",
        fails: Some(Fails::Row(1, 0)),
        ended: Ending::Write,
        out: b"",
        questions: b"",
        scores: b"",
        left: b"70\n",
    },
    Case {
        runs: &[(&[b"a\n", b"b\n"], 5, false)],
        answers: b"70\n",
        fails: Some(Fails::Row(2, 1)),
        ended: Ending::Write,
        out: b"a\nb",
        questions: b"",
        scores: b"",
        left: b"70\n",
    },
    // That of the first row that is new in a later run.
    Case {
        runs: &[(&[b"a\n"], 5, false), (&[b"a\n", b"b\n", b"c\n"], 6, false)],
        answers: b"70\n80\n",
        fails: Some(Fails::Row(2, 0)),
        ended: Ending::Write,
        out: b"a\n",
        questions: b"near,5\n",
        scores: b"near,5,70\n",
        left: b"80\n",
    },
];

/// No score of `near` is known.
fn none_known(alloc: Global) -> Result<KnownScores, Fail> {
    let mut names = Vec::new(alloc);
    names.push(Text::from_bytes(alloc, b"near")?)?;
    Ok(KnownScores::new(alloc, names))
}

/// Whether it ended so.
fn is_ended(asked: &Result<Asked, Stop>, ended: &Ending) -> bool {
    match (asked, ended) {
        (Ok(asked), Ending::Run(answers)) => {
            asked.answers == *answers && asked.pass.missing.is_none() && asked.unanswered.is_none()
        }
        (Ok(asked), Ending::Unanswered(answers, told)) => {
            asked.answers == *answers
                && asked.pass.missing.is_some()
                && tells(&asked.unanswered, told)
        }
        (Err(Stop::Differs), Ending::Differs) => true,
        (Err(Stop::Write), Ending::Write) => true,
        (Err(Stop::Lost(line)), Ending::Lost(bytes)) => line.items().as_slice() == *bytes,
        (Err(Stop::Memory), Ending::Memory) => true,
        _ => false,
    }
}

/// Whether there is such a cause.
fn tells(why: &Option<NoAnswer>, told: &Told) -> bool {
    match why {
        Some(why) => is_told(why, told),
        None => false,
    }
}

/// The put of a row that fails, if one does, and behind how many bytes.
fn failing_row(case: &Case) -> Option<(u32, usize)> {
    match case.fails {
        Some(Fails::Row(number, after)) => Some((number, after)),
        _ => None,
    }
}

/// The same of the put of a question.
fn failing_question(case: &Case) -> Option<(u32, usize)> {
    match case.fails {
        Some(Fails::Question(number, after)) => Some((number, after)),
        _ => None,
    }
}

/// The same of the put of a score.
fn failing_score(case: &Case) -> Option<(u32, usize)> {
    match case.fails {
        Some(Fails::Score(number, after)) => Some((number, after)),
        _ => None,
    }
}

/// A sink of which this put fails.
fn sink_failing(alloc: Global, fails: Option<(u32, usize)>) -> Result<MemSink, Fail> {
    let mut sink = MemSink::new(alloc);
    if let Some((number, after)) = fails {
        sink.fail_at(number, after)?;
    }
    Ok(sink)
}

/// The number of the read that fails, or 0.
fn failing_read(case: &Case) -> u64 {
    match case.fails {
        Some(Fails::Read(number)) => number,
        _ => 0,
    }
}

fn assert_case(rt: &impl Abort, alloc: Global, case: &Case) -> Result<(), Fail> {
    let mut known = none_known(alloc)?;
    let mut runs = PlannedRuns {
        runs: case.runs,
        made: 0,
    };
    let mut bytes = FailingBytes::new(case.answers, failing_read(case), ErrorKind::BrokenPipe);
    let questions = sink_failing(alloc, failing_question(case))?;
    let scores = sink_failing(alloc, failing_score(case))?;
    let mut channel = Channel {
        questions,
        answers: ReadAnswers::new(&mut bytes),
        scores,
    };
    let out = sink_failing(alloc, failing_row(case))?;
    let (asked, out) = ask_and_run(alloc, &mut runs, &mut known, &mut channel, out);
    assert!(rt; is_ended(&asked, &case.ended));
    assert!(rt; out.bytes() == case.out);
    assert!(rt; channel.questions.bytes() == case.questions);
    assert!(rt; channel.scores.bytes() == case.scores);
    assert_eq!(rt; channel.answers.faults() > 0, failing_read(case) > 0);
    drop(channel);
    assert!(rt; bytes.left == case.left);
    Ok(())
}

#[test]
fn asks_and_runs(rt: HostRuntime) -> Result<(), Fail> {
    for case in &CASES {
        assert_case(&rt, rt.alloc(), case)?;
    }
    Ok(())
}
