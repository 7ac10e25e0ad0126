ghost use Rattle.std.specs.Prelude.{◌≡◌, ◌==◌, ◌+◌, ◌<◌, ◌^◌, ℕ, List, [], IfOk, OnOk, OnErr, if◌then◌else◌, is_some, length, not};
ghost use Rattle.rs_scores.specs.Known.{is_asked, score_of, score_with};

use crate::question::Question;
use rs_value::{Memory, Text};
use std::alloc::Global;
use std::collections::BTreeMap;
use std::marker::Model;

/// The predicates that are asked for outside, and the scores of them that are known. A question has one score.
#[derive(Drop)]
pub struct KnownScores {
    names: Vec<Text>,
    // Scores come from a file, so they are kept in order: no file makes a search long.
    scores: BTreeMap<Question, i64>,
}

impl Model for KnownScores {
    ghost use Rattle.rs_scores.specs.Known.{Known};

    ghost Value = { Known };

    ghost view = { λ k. record { names = k.names.items; scores = k.scores.entries } };
}

impl KnownScores {
    /// The predicates of these names are asked for, and no score is known. It takes no memory.
    pub fn new(alloc: Global, names: Vec<Text>) -> KnownScores
        ensures { result ≡ record { names = names.items; scores = [] } }
    {
        KnownScores {
            names,
            scores: BTreeMap::new(alloc),
        }
    }

    /// The names of the predicates that are asked for.
    pub fn names(&self) -> &[Text]
        ensures { result.now ≡ self.now.names }
    {
        &self.names
    }

    /// Whether the predicate of this name is asked for.
    pub fn is_asked(&self, name: &Text) -> bool
        ensures { result ≡ is_asked self.now.names name.now }
    {
        self.names.contains(name)
    }

    /// How many scores are known.
    pub fn len(&self) -> usize
        ensures count { result ≡ length self.now.scores }
        ensures small { result < 2 ^ 63 }
    {
        self.scores.len()
    }

    /// Whether no score is known.
    pub fn is_empty(&self) -> bool
        ensures { result ≡ (length self.now.scores == 0) }
    {
        self.scores.is_empty()
    }

    /// The score of a question, where it is known.
    ///
    /// # Errors
    ///
    /// - `None`: exactly where the score of the question isn't known.
    pub fn score(&self, question: &Question) -> Option<i64>
        ensures { result ≡ score_of question.now self.now }
    {
        self.scores.get(question).copied()
    }

    /// Adds the score of a question, where none is known. Says whether none was: the first of two answers stays.
    ///
    /// # Errors
    ///
    /// - `Memory`: at any call; nothing changes.
    pub fn add(&mut self, question: Question, score: i64) -> Result<bool, Memory>
        ensures new { IfOk result (λ new. new ≡ not (is_some (score_of question self.old))) }
        ensures names { self.new.names ≡ self.old.names }
        ensures scores { OnOk result ((other : List (List ℕ)) → score_of other self.new ≡ score_with question score self.old other) }
        ensures count { IfOk result (λ new. length self.new.scores ≡ (if new then length self.old.scores + 1 else length self.old.scores)) }
        ensures err { OnErr result (self.new ≡ self.old) }
    {
        if self.score(&question).is_some() {
            return Ok(false);
        }
        self.scores.insert(question, score)?;
        Ok(true)
    }
}
