//! Runs that are planned beforehand.

ghost use Rattle.std.specs.Prelude.{◌≡◌, IfSome, None};
ghost use Rattle.rs_scores.specs.Known.{score_of};

use rs_ask::{Pass, Rerun};
use rs_outside::{MemSink, Sink, SinkFault};
use rs_scores::{KnownScores, Question};
use rs_value::{Memory, Text, Value};
use std::alloc::Global;

/// The greatest score of `near`.
const MOST: u32 = 100;

/// A run: the pieces that it puts, the number for which it misses the score of `near`, and whether it lacks memory behind what it
/// puts. A number below 0 is missed by none.
pub(crate) type Planned = (&'static [&'static [u8]], i64, bool);

/// Runs that are planned, and how many were made. Behind the last one there is an empty one that misses nothing.
#[derive(Drop)]
pub(crate) struct PlannedRuns {
    pub runs: &'static [Planned],
    pub made: usize,
}

/// The question of a call of `near` with this number.
fn question_of(alloc: Global, number: i64) -> Result<Question, Memory> {
    let near = Text::from(String::from_str(alloc, "near")?);
    Question::of(alloc, &near, &[Value::Int(number)])
}

/// The question of a call of `near` with this number, where its score isn't known.
fn missing(alloc: Global, known: &KnownScores, number: i64) -> Option<Question>
    ensures { IfSome result (λ question. score_of question known.now ≡ None) }
{
    if number < 0 {
        return None;
    }
    let Ok(question) = question_of(alloc, number) else {
        return None;
    };
    if known.score(&question).is_some() {
        return None;
    }
    Some(question)
}

/// Puts these pieces, up to the first put that doesn't go well.
fn put_all<O: Sink>(pieces: &[&[u8]], out: &mut O) -> Result<(), SinkFault> {
    for piece in pieces {
        out.put(piece)?;
    }
    Ok(())
}

impl Rerun for PlannedRuns {
    ghost ran = { λ _ _ _ _ _ _. Unit {0} };

    fn rerun<O: Sink>(&mut self, alloc: Global, known: &KnownScores, out: &mut O) -> Pass
        ensures missing { IfSome result.missing (λ question. score_of question known.now ≡ None) }
    {
        let (pieces, number, lacks): Planned = match self.runs.get(self.made) {
            Some(planned) => *planned,
            None => (&[], -1, false),
        };
        self.made = self.made.saturating_add(1);
        // As a run does: it ends where a put doesn't go well, and then it misses no score.
        let (number, lacked_memory) = match put_all(pieces, out) {
            Ok(()) => (number, lacks),
            Err(SinkFault::Failed) => (-1, false),
            Err(SinkFault::Memory) => (-1, true),
        };
        Pass {
            err: MemSink::new(alloc),
            status: 8,
            lacked_memory,
            calls: self.made as u64,
            missing: missing(alloc, known, number),
            most: MOST,
        }
    }
}
