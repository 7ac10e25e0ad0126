ghost use Rattle.std.specs.Prelude.{◌≡◌, ◌≤◌, IfOk, length};
ghost use Rattle.rs_value.specs.Answer.{Gives};
ghost use Rattle.rs_value.specs.Text.{text_of};
ghost use Rattle.rs_statement.specs.Parts.Steps.{FetchesFile, Runs};
ghost use Rattle.rs_run.specs.Parts.Read.{IsSource};
ghost use Rattle.rs_run.specs.Plain.{or_text_fault, without_mark};
ghost use Rattle.rs_outside.specs.Files.{finds_in};
ghost use Rattle.rs_run.specs.Running.{IsRunOf};
ghost use Rattle.rs_run.specs.Words.{RunScript};

use crate::dialect::interpret;
use crate::readers::Readers;
use crate::statement::Evaluated;
use rs_catalog::Catalog;
use rs_events::Host;
use rs_lex::MOST_BYTES;
use rs_outside::Files;
use rs_statement::{Evaluating, Fault, ScriptFault, Session, fetch_file, release};
use rs_table::TableReader;
use rs_value::{Text, TextFault};
use std::alloc::Global;

/// The bytes EF BB BF, of which one may stand at the start of a file.
const BYTE_ORDER_MARK: &[u8] = b"\xEF\xBB\xBF";

/// Does what a script says, statement by statement, up to the first fault. It and its tables are read by these readers.
pub fn run_script<T: TableReader, W: Host>(
    alloc: Global,
    evaluating: Evaluating,
    name: &Text,
    readers: &mut Readers<T>,
    host: &mut W,
) -> Result<(), Fault>
    ensures { Runs
        (IsRunOf (finds_in (W.state host.old).files.contents) (W.state host.old).scorer.answer (RunScript name.now evaluating)) result
        (W.state host.old) (W.state host.new) }
{
    let mut evaluated = Evaluated {
        evaluating,
        catalog: Catalog::new(alloc),
        session: Session::new(alloc),
        tables: &mut readers.tables,
    };
    let done = interpret(alloc, &mut evaluated, name, &mut readers.script, host);
    release(evaluated.catalog, evaluated.session);
    done
}

/// Fetches the text of a script, without the byte order mark at its start.
pub(crate) fn fetch_script<F: Files>(
    alloc: Global,
    name: &Text,
    files: &mut F,
) -> Result<Text, Fault>
    ensures fetches { FetchesFile name.now result (IsSource name.now) (F.state files.old) (F.state files.new) }
    ensures small { IfOk result (λ script. length script ≤ 1048576) }
{
    let bytes = fetch_file(alloc, name, MOST_BYTES, files)?;
    script_of(alloc, &bytes)
}

/// The text of a script's bytes.
fn script_of(alloc: Global, bytes: &[u8]) -> Result<Text, Fault>
    ensures gives { Gives Fault.Memory (or_text_fault (text_of (without_mark bytes.now))) result }
    ensures short { IfOk result (λ script. length script ≤ length bytes.now) }
{
    match Text::from_bytes(alloc, without_mark(bytes)) {
        Ok(script) => Ok(script),
        Err(TextFault::NotUtf8 { at }) => Err(Fault::Script(ScriptFault::NotUtf8 { at })),
        Err(TextFault::Memory) => Err(Fault::Memory),
    }
}

/// The bytes behind a byte order mark, where one is there.
fn without_mark(bytes: &[u8]) -> &[u8]
    ensures value { result.now ≡ without_mark bytes.now }
    ensures short { length result.now ≤ length bytes.now }
{
    match bytes.strip_prefix(BYTE_ORDER_MARK) {
        Some(rest) => rest,
        None => bytes,
    }
}
