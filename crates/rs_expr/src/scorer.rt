ghost use Rattle.std.specs.Prelude.{◌≡◌, option_map, true};
ghost use Rattle.rs_value.specs.Outside.{Counts};
ghost use Rattle.rs_value.specs.Value.{all_fit};
ghost use Rattle.rs_expr.specs.Meaning.{value_of};
ghost use Rattle.rs_expr.specs.Scoring.{Answers, ScorerState, call_of, calls_after, count_after};

use crate::predicate::Predicate;
use rs_value::{List, Text, Value};

/// Why a scorer gave no score.
#[derive(Clone, Copy, Debug, PartialEq, Eq)]
pub enum ScorerFault {
    Failed,
    Memory,
}

/// A call of a scorer: the predicate's name and the arguments.
#[derive(Debug, Drop)]
pub struct Call {
    pub predicate: Text,
    pub args: List<Value>,
}

/// What answers the score of a predicate. Each call may cost money, so each is counted. A scorer may have any number of
/// calls at first: the clauses of `score` say exactly what one call adds.
pub trait Scorer {
    /// What is answered, for a predicate and arguments, which no call changes; how many calls were made; the calls, where the
    /// object tells them; how many failed; and whether none will.
    ghost state: { Self → ScorerState };

    /// The score of a predicate for these arguments, which have the kinds of its parameters. It may lie outside 0 to
    /// the predicate's greatest score. The same predicate and arguments always have the same score. Each call is told
    /// and counted, also one that fails, but not one for which there was no memory.
    ///
    /// # Errors
    ///
    /// - `Failed`: only where the count of faults rose; of a steady scorer never. The call is told and counted.
    /// - `Memory`: at any call, which isn't told.
    fn score(&mut self, predicate: &Predicate, args: &[Value]) -> Result<i128, ScorerFault>
        requires { all_fit predicate.now.params args.now ≡ true }
        ensures answers { Answers ((state self.old).answer predicate.now args.now) result }
        ensures same { (state self.new).answer ≡ (state self.old).answer }
        ensures told { (state self.new).outside.told
            ≡ option_map (calls_after (call_of predicate.now args.now) result) (state self.old).outside.told }
        ensures calls { (state self.new).calls ≡ count_after result (state self.old).calls }
        ensures counts { Counts (result ≡ Err ScorerFault.Failed) (state self.old).outside (state self.new).outside };
}

/// The value of a predicate's formula for these arguments, which have the kinds of its parameters.
pub fn formula_value(predicate: &Predicate, args: &[Value]) -> i128
    requires { all_fit predicate.now.params args.now ≡ true }
    ensures { result ≡ value_of predicate.now.formula args.now }
{
    predicate.formula().eval(args)
}
