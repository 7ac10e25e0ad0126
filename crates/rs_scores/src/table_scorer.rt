ghost use Rattle.std.specs.Prelude.{◌≡◌, ◌∷◌, ◌++◌, [], true, IfOk, OnOk, OnErr, Err, if◌then◌else◌, is_some, option_map};
ghost use Rattle.rs_value.specs.Answer.{Gives};
ghost use Rattle.rs_value.specs.Faults.{raised};
ghost use Rattle.rs_value.specs.Outside.{Counts};
ghost use Rattle.rs_value.specs.Value.{all_fit};
ghost use Rattle.rs_expr.specs.Scoring.{Answers, call_of, calls_after, count_after};
ghost use Rattle.rs_scores.specs.TableScorer.{after_score, answer_of, answered_score, missing_for, missing_last, new_scorer, score_answer, table_state};

use crate::known::KnownScores;
use crate::question::Question;
use rs_expr::{Call, Predicate, Scorer, ScorerFault, formula_value};
use rs_value::{Memory, Text, Value};
use std::alloc::Global;
use std::marker::Model;

/// What is answered for a call.
enum Answer {
    Score(i128),
    /// The score is asked for outside and isn't known.
    Missing(Question),
}

/// A scorer over a table of known scores. It answers a call of a predicate that is asked for outside by its known score, and
/// fails where none is known; for each other call it answers the value of the predicate's formula. It keeps the calls, the
/// question of the last one where that one failed, and the greatest score of its predicate.
#[derive(Drop)]
pub struct TableScorer<'a> {
    known: &'a KnownScores,
    calls: Vec<Call>,
    count: u64,
    missing: Option<Question>,
    most: u32,
    faults: u64,
}

impl<'a> Model for TableScorer<'a> {
    ghost use Rattle.rs_scores.specs.TableScorer.{IsTableScorer, TableScorerState};

    ghost Value = { TableScorerState };

    ghost view = { λ s. record {
      known = s.known.now;
      calls = s.calls.items;
      count = s.count;
      missing = s.missing;
      most = s.most;
      faults = s.faults;
    } };

    ghost invariant = { λ s. IsTableScorer (record {
      known = s.known.now;
      calls = s.calls.items;
      count = s.count;
      missing = s.missing;
      most = s.most;
      faults = s.faults;
    }) };
}

/// What is answered for a call of a predicate with these arguments.
fn answer_for(
    alloc: Global,
    known: &KnownScores,
    predicate: &Predicate,
    args: &[Value],
) -> Result<Answer, Memory>
    requires { all_fit predicate.now.params args.now ≡ true }
    ensures { IfOk result (λ answer. answer ≡ answer_of known.now predicate.now args.now) }
{
    if !known.is_asked(predicate.name()) {
        return Ok(Answer::Score(formula_value(predicate, args)));
    }
    let question = Question::of(alloc, predicate.name(), args)?;
    match known.score(&question) {
        Some(score) => Ok(Answer::Score(score as i128)),
        None => Ok(Answer::Missing(question)),
    }
}

/// The count of faults after a call that failed or did not.
fn faults_after(failed: bool, faults: u64) -> u64
    ensures { result ≡ (if failed then raised faults else faults) }
{
    if failed {
        faults.saturating_add(1)
    } else {
        faults
    }
}

impl<'a> TableScorer<'a> {
    /// A scorer over this table that wasn't called yet. It takes no memory.
    pub fn new(alloc: Global, known: &'a KnownScores) -> TableScorer<'a>
        ensures { result ≡ new_scorer known.now }
    {
        TableScorer {
            known,
            calls: Vec::new(alloc),
            count: 0,
            missing: None,
            most: 0,
            faults: 0,
        }
    }

    /// The calls so far, those that failed too.
    pub fn calls(&self) -> &[Call]
        ensures { result.now ≡ self.now.calls }
    {
        &self.calls
    }

    /// How many calls there were, those that failed too.
    pub fn count(&self) -> u64
        ensures { result ≡ self.now.count }
    {
        self.count
    }

    /// The question of the last call, where that one failed: its score is asked for and isn't known.
    ///
    /// # Errors
    ///
    /// - `None`: exactly where there was no call, or the last one is of a predicate that isn't asked for, or its score is known.
    pub fn into_missing(self) -> Option<Question>
        ensures value { result ≡ self.entry.missing }
        ensures last { result ≡ missing_last self.entry.known self.entry.calls }
    {
        self.missing
    }

    /// The greatest score of the predicate of the last call, or 0 where there was none.
    pub fn most(&self) -> u32
        ensures { result ≡ self.now.most }
    {
        self.most
    }

    /// Adds a call with its answer, of which nothing is kept where there is no memory.
    fn add(
        &mut self,
        predicate: &Text,
        args: &[Value],
        most: u32,
        missing: Option<Question>,
    ) -> Result<(), Memory>
        requires { let call : Call = record { predicate = predicate.now; args = args.now } in missing ≡ missing_for self.old.known call }
        ensures ok { OnOk result (self.new ≡ record self.old {
          calls = self.old.calls ++ record { predicate = predicate.now; args = args.now } ∷ [];
          count = raised self.old.count;
          missing = missing;
          most = most;
          faults = (if is_some missing then raised self.old.faults else self.old.faults);
        }) }
        ensures err { OnErr result (self.new ≡ self.old) }
    {
        let call = Call::copy(*self.calls.allocator(), predicate, args)?;
        self.calls.push(call)?;
        self.count = self.count.saturating_add(1);
        self.faults = faults_after(missing.is_some(), self.faults);
        self.missing = missing;
        self.most = most;
        Ok(())
    }
}

impl<'a> Scorer for TableScorer<'a> {
    ghost state = { table_state };

    fn score(&mut self, predicate: &Predicate, args: &[Value]) -> Result<i128, ScorerFault>
        requires { all_fit predicate.now.params args.now ≡ true }
        ensures answers { Answers (answered_score self.old.known predicate.now args.now) result }
        ensures same { answered_score self.new.known ≡ answered_score self.old.known }
        ensures told { (table_state self.new).outside.told
            ≡ option_map (calls_after (call_of predicate.now args.now) result) (table_state self.old).outside.told }
        ensures calls { self.new.count ≡ count_after result self.old.count }
        ensures counts { Counts (result ≡ Err ScorerFault.Failed) (table_state self.old).outside (table_state self.new).outside }

        // The answer, which only want of memory can replace, and what the call leaves.
        ensures answer { Gives ScorerFault.Memory (score_answer (answer_of self.old.known predicate.now args.now)) result }
        ensures after { self.new ≡ after_score (call_of predicate.now args.now) predicate.now.max result self.old }
    {
        let answer = match answer_for(*self.calls.allocator(), self.known, predicate, args) {
            Ok(answer) => answer,
            Err(_) => return Err(ScorerFault::Memory),
        };
        let (result, missing) = match answer {
            Answer::Score(score) => (Ok(score), None),
            Answer::Missing(question) => (Err(ScorerFault::Failed), Some(question)),
        };
        match self.add(predicate.name(), args, predicate.max(), missing) {
            Ok(()) => result,
            Err(_) => Err(ScorerFault::Memory),
        }
    }
}
