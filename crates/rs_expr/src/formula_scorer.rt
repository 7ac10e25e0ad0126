ghost use Rattle.std.specs.Prelude.{◌≡◌, true, Ok};
ghost use Rattle.rs_value.specs.Outside.{Counts};
ghost use Rattle.rs_value.specs.Value.{all_fit};
ghost use Rattle.rs_expr.specs.FormulaScorer.{formula_state};
ghost use Rattle.rs_expr.specs.Meaning.{value_of};
ghost use Rattle.rs_expr.specs.Scoring.{Answers, count_after};

use crate::predicate::Predicate;
use crate::scorer::{Scorer, ScorerFault, formula_value};
use rs_value::Value;
use std::marker::Model;

/// The scorer that answers the value of a predicate's formula. It takes no memory and never fails.
#[derive(Debug, Drop)]
pub struct FormulaScorer {
    calls: u64,
}

impl Model for FormulaScorer {
    ghost use Rattle.std.specs.Prelude.{ℕ};

    ghost Value = { ℕ };

    ghost view = { λ s. s.calls };
}

impl FormulaScorer {
    /// A scorer that wasn't called yet.
    pub fn new() -> FormulaScorer
        ensures { result ≡ 0 }
    {
        FormulaScorer { calls: 0 }
    }
}

impl Scorer for FormulaScorer {
    ghost state = { formula_state };

    fn score(&mut self, predicate: &Predicate, args: &[Value]) -> Result<i128, ScorerFault>
        requires { all_fit predicate.now.params args.now ≡ true }
        ensures answers { Answers (value_of predicate.now.formula args.now) result }
        ensures calls { self.new ≡ count_after result self.old }
        ensures counts { Counts (result ≡ Err ScorerFault.Failed) (formula_state self.old).outside (formula_state self.new).outside }

        // It always answers.
        ensures value { result ≡ Ok (value_of predicate.now.formula args.now) }
    {
        self.calls = self.calls.saturating_add(1);
        Ok(formula_value(predicate, args))
    }
}
