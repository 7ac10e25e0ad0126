ghost use Rattle.std.specs.Prelude.{◌≡◌, IfSome, None};
ghost use Rattle.rs_scores.specs.Known.{score_of};

use rs_outside::{MemSink, Sink};
use rs_scores::{KnownScores, Question};
use std::alloc::Global;

/// What one run over some known scores left, beside the rows that it put: the line of its fault, its exit status, how many calls of
/// the scorer it made, and the question of its last call, where that one failed because its score isn't known, with the greatest
/// score of its predicate. A run that lacked memory may have put less than a run before it.
#[derive(Drop)]
pub struct Pass {
    pub err: MemSink,
    pub status: u8,
    pub lacked_memory: bool,
    pub calls: u64,
    pub missing: Option<Question>,
    pub most: u32,
}

/// What can be run again and again, each time over the scores that are known then.
pub trait Rerun {
    ghost use Rattle.std.specs.Prelude.{List, ℕ};
    ghost use Rattle.rs_value.specs.Outside.{Outside};
    ghost use Rattle.rs_scores.specs.Known.{Known};
    ghost use Rattle.rs_ask.specs.declared.pass.Pass.{Pass as Run};

    /// What a run did: itself before, what was known, what the run left, itself after, and where it put its rows, before and after.
    ghost ran: { Self → Known → Run → Self → Outside (List (List ℕ)) → Outside (List (List ℕ)) → Type 0 };

    /// Runs over the scores that are known, and puts its rows to `out`. What it misses isn't known.
    fn rerun<O: Sink>(&mut self, alloc: Global, known: &KnownScores, out: &mut O) -> Pass
        ensures ran { ran self.old known.now result self.new (O.state out.old) (O.state out.new) }
        ensures missing { IfSome result.missing (λ question. score_of question known.now ≡ None) };
}
