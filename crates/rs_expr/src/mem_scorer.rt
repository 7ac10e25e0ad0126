ghost use Rattle.std.specs.Prelude.{◌≡◌, ◌∷◌, ◌++◌, true, [], IfOk, OnErr, OnOk, option_map, position};
ghost use Rattle.rs_value.specs.Answer.{Gives};
ghost use Rattle.rs_value.specs.Faults.{raised};
ghost use Rattle.rs_value.specs.Outside.{Counts};
ghost use Rattle.rs_value.specs.Value.{all_fit};
ghost use Rattle.rs_expr.specs.MemScorer.{after_fail_at, after_score, after_set, is_call_planned, is_same_call, no_scores, score_answer, answered_score, scorer_state, written_for};
ghost use Rattle.rs_expr.specs.Scoring.{Answers, call_of, calls_after, count_after};

use crate::predicate::Predicate;
use crate::scorer::{Call, Scorer, ScorerFault, formula_value};
use rs_value::{List, Memory, Text, Value};
use std::alloc::Global;
use std::marker::Model;

/// A score that is written for a call.
#[derive(Debug, Drop)]
struct WrittenScore {
    call: Call,
    score: i128,
}

/// A scorer in memory, for tests of what calls scorers. It answers the scores that were written, and for other calls
/// the value of the predicate's formula. It keeps the calls, and fails where it is told.
#[derive(Debug, Drop)]
pub struct MemScorer {
    written: Vec<WrittenScore>,
    calls: Vec<Call>,
    count: u64,
    failing: Vec<u64>,
    faults: u64,
}

impl Model for MemScorer {
    ghost use Rattle.rs_expr.specs.MemScorer.{MemScorerState};

    ghost Value = { MemScorerState };

    ghost view = { λ m. record {
      written = m.written.items;
      calls = m.calls.items;
      count = m.count;
      failing = m.failing.items;
      faults = m.faults;
    } };
}

/// A list of equal values.
fn copied_values(alloc: Global, values: &[Value]) -> Result<List<Value>, Memory>
    ensures { IfOk result (λ copies. copies ≡ values.now) }
{
    let mut copies = Vec::new(alloc);
    for value in values {
        copies.push(value.copy()?)?;
    }
    Ok(List::of(copies))
}

impl Call {
    /// The call of the predicate of this name with these arguments, which are copied.
    ///
    /// # Errors
    ///
    /// - `Memory`: at any call.
    pub fn copy(alloc: Global, predicate: &Text, args: &[Value]) -> Result<Call, Memory>
        ensures { IfOk result (λ call. call ≡ record { predicate = predicate.now; args = args.now }) }
    {
        Ok(Call {
            predicate: predicate.copy()?,
            args: copied_values(alloc, args)?,
        })
    }

    /// Whether it is a call of a predicate of this name with equal arguments.
    fn is_of(&self, predicate: &Text, args: &[Value]) -> bool
        ensures { result ≡ is_same_call self.now (record { predicate = predicate.now; args = args.now }) }
    {
        self.predicate == *predicate && self.args.items().as_slice() == args
    }
}

/// The place of the first score that is written for this call.
fn place_of(written: &[WrittenScore], predicate: &Text, args: &[Value]) -> Option<usize>
    ensures { let call : Call = record { predicate = predicate.now; args = args.now } in
        result ≡ position (λ entry. is_same_call entry.call call) written.now }
{
    written
        .iter()
        .position(|entry| entry.call.is_of(predicate, args))
}

/// The score that is written for this call.
fn written_for(written: &[WrittenScore], predicate: &Text, args: &[Value]) -> Option<i128>
    ensures { result ≡ written_for (record { predicate = predicate.now; args = args.now }) written.now }
{
    written
        .iter()
        .find(|entry| entry.call.is_of(predicate, args))
        .map(|entry| entry.score)
}

impl MemScorer {
    /// A scorer with no written score. It takes no memory.
    pub fn new(alloc: Global) -> MemScorer
        ensures { result ≡ no_scores }
    {
        MemScorer {
            written: Vec::new(alloc),
            calls: Vec::new(alloc),
            count: 0,
            failing: Vec::new(alloc),
            faults: 0,
        }
    }

    /// Writes the score of the predicate of this name for these arguments: in place of the one that is there, or else
    /// as a last one.
    ///
    /// # Errors
    ///
    /// - `Memory`: at any call; nothing changes.
    pub fn set(&mut self, predicate: &Text, args: &[Value], score: i128) -> Result<(), Memory>
        ensures ok { OnOk result
            (self.new ≡ after_set (record { predicate = predicate.now; args = args.now }) score self.old) }
        ensures err { OnErr result (self.new ≡ self.old) }
    {
        match place_of(&self.written, predicate, args) {
            Some(at) => self.written[at].score = score,
            None => {
                let call = Call::copy(*self.written.allocator(), predicate, args)?;
                self.written.push(WrittenScore { call, score })?;
            }
        }
        Ok(())
    }

    /// Plans that the call of this number, counted from 1, fails. Several may be planned.
    ///
    /// # Errors
    ///
    /// - `Memory`: at any call; nothing changes.
    pub fn fail_at(&mut self, call: u64) -> Result<(), Memory>
        ensures ok { OnOk result (self.new ≡ after_fail_at call self.old) }
        ensures err { OnErr result (self.new ≡ self.old) }
    {
        self.failing.push(call)?;
        Ok(())
    }

    /// The calls so far, those that failed too.
    pub fn calls(&self) -> &[Call]
        ensures { result.now ≡ self.now.calls }
    {
        &self.calls
    }

    /// Whether the next call is to fail.
    fn is_next_planned(&self) -> bool
        ensures { result ≡ is_call_planned self.now }
    {
        let number = self.calls.len() as u64 + 1;
        self.failing.iter().any(|call| *call == number)
    }

    /// Adds a call to the list and counts it.
    fn add_call(&mut self, predicate: &Text, args: &[Value]) -> Result<(), Memory>
        ensures ok { OnOk result (self.new ≡ record self.old {
          calls = self.old.calls ++ record { predicate = predicate.now; args = args.now } ∷ [];
          count = raised self.old.count;
        }) }
        ensures err { OnErr result (self.new ≡ self.old) }
    {
        let call = Call::copy(*self.calls.allocator(), predicate, args)?;
        self.calls.push(call)?;
        self.count = self.count.saturating_add(1);
        Ok(())
    }
}

impl Scorer for MemScorer {
    ghost state = { scorer_state };

    fn score(&mut self, predicate: &Predicate, args: &[Value]) -> Result<i128, ScorerFault>
        requires { all_fit predicate.now.params args.now ≡ true }
        ensures answers { Answers (answered_score self.old predicate.now args.now) result }
        ensures same { answered_score self.new ≡ answered_score self.old }
        ensures told { (scorer_state self.new).outside.told
            ≡ option_map (calls_after (call_of predicate.now args.now) result) (scorer_state self.old).outside.told }
        ensures calls { self.new.count ≡ count_after result self.old.count }
        ensures counts { Counts (result ≡ Err ScorerFault.Failed) (scorer_state self.old).outside (scorer_state self.new).outside }

        // The answer, which only want of memory can replace, and what the call leaves.
        ensures answer { Gives ScorerFault.Memory (score_answer predicate.now args.now self.old) result }
        ensures after { self.new ≡ after_score (call_of predicate.now args.now) result self.old }
    {
        let fails = self.is_next_planned();
        if self.add_call(predicate.name(), args).is_err() {
            return Err(ScorerFault::Memory);
        }
        if fails {
            self.faults = self.faults.saturating_add(1);
            return Err(ScorerFault::Failed);
        }
        match written_for(&self.written, predicate.name(), args) {
            Some(score) => Ok(score),
            None => Ok(formula_value(predicate, args)),
        }
    }
}
