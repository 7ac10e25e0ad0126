ghost use Rattle.std.specs.Prelude.{◌≡◌, IfSome, IsSome, None};
ghost use Rattle.rs_scores.specs.Known.{score_of};
ghost use Rattle.rs_scores.specs.KnownFiles.{known_state};
ghost use Rattle.ranksql_ask.specs.Parts.Asking.{form_of_asking};
ghost use Rattle.ranksql_ask.specs.Passes.{IsPass, is_memory, missing_in};

use crate::began::Began;
use crate::pass_scorer::PassScorer;
use crate::words::Asking;
use rs_ask::{Pass, Rerun};
use rs_outside::{Files, MemSink, Sink};
use rs_run::{Readers, Status, run_file};
use rs_scores::{KnownFiles, KnownScores, KnownTables, Question};
use std::alloc::Global;
use std::marker::Brand;

/// What is run again and again, what was read of it, and the files that it fetches, which are the same in each run.
#[derive(Drop)]
pub struct Script<'a, F> {
    pub asking: Asking<'a>,
    pub readers: Readers<KnownTables>,
    // They are taken out for the time of a run.
    pub files: Option<KnownFiles<F>>,
    ghost there: { IsSome files },
}

/// The question that a run with this status missed, where its score isn't known.
fn missing_in(known: &KnownScores, status: Status, question: Option<Question>) -> Option<Question>
    ensures value { result ≡ missing_in known.now status question }
    ensures unknown { IfSome result (λ question. score_of question known.now ≡ None) }
{
    let question = question?;
    // The score of what a scorer missed is never known. The look at the table says it to the proof.
    if status == Status::Probe && known.score(&question).is_none() {
        Some(question)
    } else {
        None
    }
}

/// Whether this is the status of want of memory.
fn is_memory(status: Status) -> bool
    ensures { result ≡ is_memory status }
{
    matches!(status, Status::Memory)
}

/// Runs over the scores that are known, where proofs know which these are. Gives the files back.
fn run_over<F: Files, O: Sink, B: Began>(
    alloc: Global,
    asking: &Asking<'_>,
    readers: &mut Readers<KnownTables>,
    mut files: KnownFiles<F>,
    known: &KnownScores,
    out: &mut O,
) -> (Pass, KnownFiles<F>)
    requires { B.known ≡ known.now }
    ensures ran { IsPass (form_of_asking asking.now) known.now result.0 (known_state files.found (F.state files.files)) (known_state result.1.found (F.state result.1.files)) (O.state out.old) (O.state out.new) }
    ensures missing { IfSome result.0.missing (λ question. score_of question known.now ≡ None) }
{
    let mut scorer = PassScorer::<B>::new(alloc, known);
    let mut err = MemSink::new(alloc);
    let status = run_file(
        alloc,
        asking.evaluating,
        asking.script,
        readers,
        &mut files,
        &mut scorer,
        out,
        &mut err,
    );
    let calls = scorer.count();
    let most = scorer.most();
    let missing = missing_in(known, status, scorer.into_missing());
    let pass = Pass {
        err,
        status: status.number(),
        lacked_memory: is_memory(status),
        calls,
        missing,
        most,
    };
    (pass, files)
}

impl<'a, F: Files + Drop> Rerun for Script<'a, F> {
    ghost use Rattle.ranksql_ask.specs.Endings.{RunsOnce};
    ghost use Rattle.ranksql_ask.specs.Parts.Runners.{runner_of};

    ghost ran = { λ old known pass new rows puts. RunsOnce (runner_of F.state old) known pass (runner_of F.state new) rows puts };

    fn rerun<O: Sink>(&mut self, alloc: Global, known: &KnownScores, out: &mut O) -> Pass
        ensures ran { RunsOnce (runner_of F.state self.old) known.now result (runner_of F.state self.new) (O.state out.old) (O.state out.new) }
        ensures missing { IfSome result.missing (λ question. score_of question known.now ≡ None) }
    {
        let Some(files) = self.files.take() else {
            unreachable!();
        };
        let (pass, files) = run_over::<F, O, Brand>(
            alloc,
            &self.asking,
            &mut self.readers,
            files,
            known,
            out,
        );
        self.files = Some(files);
        pass
    }
}
