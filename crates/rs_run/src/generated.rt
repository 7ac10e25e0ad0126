ghost use Rattle.std.specs.Prelude.{◌≡◌, IfOk};
ghost use Rattle.rs_gen.specs.Files.{script_name};
ghost use Rattle.rs_statement.specs.Parts.Steps.{Runs};
ghost use Rattle.rs_outside.specs.Files.{finds_in};
ghost use Rattle.rs_run.specs.Running.{IsRunOf};
ghost use Rattle.rs_run.specs.Words.{RunGenerated};

use crate::plain::run_script;
use crate::readers::Readers;
use rs_events::{Host, Objects};
use rs_expr::Scorer;
use rs_gen::generate;
use rs_outside::{Files, Sink};
use rs_statement::{Evaluating, Fault, Sampling};
use rs_value::{Memory, Text};
use std::alloc::Global;

/// Does what the generated script says over the generated tables, with the number as the seed of its samples. The files are
/// made in memory, so nothing is fetched from the host's. Their texts are hashed by the keys of these.
pub fn run_generated<'f, 's, 'o, F: Files, S: Scorer, O: Sink>(
    alloc: Global,
    number: u32,
    rows: u32,
    host: &mut Objects<'f, 's, 'o, F, S, O>,
) -> Result<(), Fault>
    ensures does { let state = ⟦<Objects<'f, 's, 'o, F, S, O> as Host>⟧.state in
        Runs (IsRunOf (finds_in (state host.old).files.contents) (state host.old).scorer.answer (RunGenerated number rows)) result (state host.old) (state host.new) }
    ensures unfetched { let state = ⟦<Objects<'f, 's, 'o, F, S, O> as Host>⟧.state in (state host.new).files ≡ (state host.old).files }
{
    let name = script_name(alloc)?;
    let mut files = generate(alloc, host.files.hash_keys(), number, rows)?;
    let evaluating = Evaluating::Planned(Sampling::ByScores(number as u64));
    let mut within = Objects {
        files: &mut files,
        scorer: &mut *host.scorer,
        out: &mut *host.out,
    };
    run_script(alloc, evaluating, &name, &mut Readers::new(), &mut within)
}

/// The name of the generated script.
fn script_name(alloc: Global) -> Result<Text, Memory>
    ensures { IfOk result (λ name. name ≡ script_name) }
{
    let name = String::from_str(alloc, "gen.sql")?;
    Ok(Text::from(name))
}
