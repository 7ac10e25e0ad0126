ghost use Rattle.std.specs.Prelude.{◌≡◌};
ghost use Rattle.rs_scores.specs.TableScorer.{missing_last, new_scorer, table_state};

use crate::began::Began;
use rs_expr::{Predicate, Scorer, ScorerFault};
use rs_scores::{KnownScores, Question, TableScorer};
use rs_value::Value;
use std::alloc::Global;
use std::marker::{Model, PhantomData};

/// The scorer of a pass: one over a table of known scores, which is the same table in all its calls. The contract of a run doesn't
/// say so of a scorer.
#[derive(Drop)]
pub(crate) struct PassScorer<'a, B: Began> {
    scorer: TableScorer<'a>,
    of: PhantomData<B>,
}

impl<'a, B: Began> Model for PassScorer<'a, B> {
    ghost use Rattle.std.specs.Prelude.{◌≡◌};
    ghost use Rattle.rs_scores.specs.TableScorer.{TableScorerState};

    ghost Value = { TableScorerState };

    ghost view = { λ s. s.scorer };

    ghost invariant = { λ s. s.scorer.known ≡ B.known };
}

impl<'a, B: Began> PassScorer<'a, B> {
    /// A scorer over this table that wasn't called yet. It takes no memory.
    pub(crate) fn new(alloc: Global, known: &'a KnownScores) -> PassScorer<'a, B>
        requires { B.known ≡ known.now }
        ensures { result ≡ new_scorer known.now }
    {
        PassScorer {
            scorer: TableScorer::new(alloc, known),
            of: PhantomData,
        }
    }

    /// How many calls there were, those that failed too.
    pub(crate) fn count(&self) -> u64
        ensures { result ≡ self.now.count }
    {
        self.scorer.count()
    }

    /// The greatest score of the predicate of the last call, or 0 where there was none.
    pub(crate) fn most(&self) -> u32
        ensures { result ≡ self.now.most }
    {
        self.scorer.most()
    }

    /// The question of the last call, where that one failed: its score is asked for and isn't known.
    pub(crate) fn into_missing(self) -> Option<Question>
        ensures value { result ≡ missing_last B.known self.entry.calls }
        ensures known { self.entry.known ≡ B.known }
    {
        let PassScorer { scorer, of: _ } = self;
        scorer.into_missing()
    }
}

impl<'a, B: Began> Scorer for PassScorer<'a, B> {
    ghost state = { table_state };

    fn score(&mut self, predicate: &Predicate, args: &[Value]) -> Result<i128, ScorerFault> {
        self.scorer.score(predicate, args)
    }
}
