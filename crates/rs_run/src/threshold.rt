//! The word `ta`: a script whose queries are answered by threshold scans.

ghost use Rattle.std.specs.Prelude.{◌≡◌, ◌≤◌, ◌∷◌, ◌++◌, ℕ, [], IfOk, OnErr, OnOk, Some, false, length};
ghost use Rattle.std.specs.String.{string_bytes};
ghost use Rattle.rs_lines.specs.Row.{line_of};
ghost use Rattle.rs_syntax.specs.Syntax.{command_of, commands_of, query_of};
ghost use Rattle.rs_syntax.specs.Written.{AreWritten, IsWritten, IsWrittenQuery};
ghost use Rattle.rs_catalog.specs.IndexesHold.{IndexesHold};
ghost use Rattle.rs_query.specs.WellFormed.{IsBlock, IsQuery};
ghost use Rattle.rs_query.specs.declared.query.Query.TheVariants.{One};
ghost use Rattle.rs_ta.specs.Depths.{ScanInput};
ghost use Rattle.rs_ta.specs.Eligible.{answer_for, block_input, eligible_indexes};
ghost use Rattle.rs_ta.specs.IndexLists.{index_lists_state};
ghost use Rattle.rs_ta.specs.Scans.{AreAccessed};
ghost use Rattle.rs_events.specs.Environment.{Environment};
ghost use Rattle.rs_outside.specs.Files.{finds_in};
ghost use Rattle.rs_events.specs.Run.{lines_run};
ghost use Rattle.rs_events.specs.Running.{Ran, Runs, Stepped};
ghost use Rattle.rs_statement.specs.Lines.{rank_lines};
ghost use Rattle.rs_run.specs.Faults.{run_faults};
ghost use Rattle.rs_run.specs.Parts.Scanning.{IsAsked, IsBlockRow, IsBrokenOff, IsScanning, IsUnasked, Makes, accesses_text, most_asks, scan_input, scanned_rows};
ghost use Rattle.rs_run.specs.Running.{IsFormRun};
ghost use Rattle.rs_run.specs.Threshold.{DoesByScan, access_line, scan_asks, scan_lines, scan_step, scanned_step};
ghost use Rattle.rs_run.specs.Words.{Threshold};
ghost use Rattle.rs_run.specs.declared.fault.ScriptWord.TheVariants.{Ta};

use crate::bound_query::bound_query;
use crate::dialect::{Dialect, interpret};
use crate::fault::{RunFault, ScriptWord};
use crate::readers::Readers;
use crate::statement::run_without_cursor;
use rs_catalog::{Catalog, Snapshot};
use rs_events::{Host, put_text};
use rs_lines::RowLines;
use rs_outside::Sink;
use rs_query::{Block, Query};
use rs_rank::RankRow;
use rs_statement::{Evaluating, Fault, Session, release};
use rs_syntax::{Select, Statement};
use rs_ta::{
    BlockTest, IndexLists, Lists, ThresholdScan, depths_decide_the_sums_of_accesses,
    eligible_blocks_can_be_scanned, eligible_indexes, new_scan_stands,
    threshold_scans_give_the_answer, thresholds_and_answers_rise,
};
use rs_table::TableReader;
use rs_value::{Memory, Text};
use std::alloc::Global;

/// What `ta` makes of statements: each query is answered by a threshold scan. The catalogue alone is kept. Tables are read by
/// `tables`.
#[derive(Drop)]
struct Scanned<'t, T> {
    catalog: Catalog,
    tables: &'t mut T,
}

impl<'t, T: TableReader> Dialect for Scanned<'t, T> {
    ghost use Rattle.rs_catalog.specs.Catalog.{CatalogDef};
    ghost use Rattle.rs_catalog.specs.IndexesHold.{IndexesHold};
    ghost use Rattle.rs_run.specs.Threshold.{DoesByScan};
    ghost use Rattle.rs_run.specs.declared.fault.RunFault.TheVariants.{Statement};

    type OwnFault = RunFault;

    ghost State = { CatalogDef };

    ghost state = { λ own. own.catalog };

    ghost Way = { Unit {0} };

    ghost way = { λ own. tt };

    ghost does = { λ way. DoesByScan };

    ghost holds = { λ answer own. IndexesHold answer own.catalog };

    ghost tells = { Statement };

    fn take<W: Host>(
        &mut self,
        alloc: Global,
        number: usize,
        statement: &Statement,
        host: &mut W,
    ) -> Result<(), RunFault> {
        self.run_statement(alloc, number, statement, host)
    }

    fn told(why: Fault) -> RunFault {
        RunFault::Statement(why)
    }
}

/// Does what a script says, statement by statement, up to the first fault, with its queries answered by threshold scans. It and
/// its tables are read by these readers.
pub fn run_by_scan<T: TableReader, W: Host>(
    alloc: Global,
    name: &Text,
    readers: &mut Readers<T>,
    host: &mut W,
) -> Result<(), RunFault>
    ensures { Runs run_faults
        (IsFormRun (finds_in (W.state host.old).files.contents) (W.state host.old).scorer.answer (Threshold name.now)) result
        (W.state host.old) (W.state host.new) }
{
    let mut scanned = Scanned {
        catalog: Catalog::new(alloc),
        tables: &mut readers.tables,
    };
    let done = interpret(alloc, &mut scanned, name, &mut readers.script, host);
    release(scanned.catalog, Session::new(alloc));
    done
}

impl<'t, T: TableReader> Scanned<'t, T> {
    /// Runs the statement of this number.
    fn run_statement<W: Host>(
        &mut self,
        alloc: Global,
        number: usize,
        statement: &Statement,
        host: &mut W,
    ) -> Result<(), RunFault>
        requires written { IsWritten (command_of statement.now) }
        requires held { IndexesHold (W.state host.old).scorer.answer self.old.catalog }
        ensures does { Stepped run_faults
            (DoesByScan (finds_in (W.state host.old).files.contents) (W.state host.old).scorer.answer number self.old.catalog (command_of statement.now)) self.new.catalog result
            (W.state host.old) (W.state host.new) }
        ensures held { IfOk result (λ _. IndexesHold (W.state host.old).scorer.answer self.new.catalog) }
    {
        match statement {
            Statement::Query(select) => scan_query(alloc, number, select, &self.catalog, host),
            Statement::Declare { .. } => Err(not_eligible(number)),
            Statement::Fetch { .. } => Err(not_eligible(number)),
            Statement::Close { .. } => Err(not_eligible(number)),
            Statement::Explain(_) => Err(not_eligible(number)),
            Statement::ExplainAnalyze(_) => Err(not_eligible(number)),
            _ => self.make(alloc, statement, host),
        }
    }

    /// Runs a statement that makes a table, a predicate, an index or rows, as under the other words.
    fn make<W: Host>(
        &mut self,
        alloc: Global,
        statement: &Statement,
        host: &mut W,
    ) -> Result<(), RunFault>
        requires makes { Makes (command_of statement.now) }
        requires written { IsWritten (command_of statement.now) }
        requires held { IndexesHold (W.state host.old).scorer.answer self.old.catalog }
        ensures does { (number : ℕ) → Stepped run_faults
            (DoesByScan (finds_in (W.state host.old).files.contents) (W.state host.old).scorer.answer number self.old.catalog (command_of statement.now)) self.new.catalog result
            (W.state host.old) (W.state host.new) }
        ensures held { IfOk result (λ _. IndexesHold (W.state host.old).scorer.answer self.new.catalog) }
    {
        run_without_cursor(
            alloc,
            Evaluating::Plainly,
            statement,
            &mut self.catalog,
            &mut *self.tables,
            host,
        )?;
        Ok(())
    }
}

/// Puts the rows of a query, the statement of this number, and the line of its accesses. It is bound first.
fn scan_query<W: Host>(
    alloc: Global,
    number: usize,
    select: &Select,
    catalog: &Catalog,
    host: &mut W,
) -> Result<(), RunFault>
    requires written { IsWrittenQuery (query_of select.now) }
    requires held { IndexesHold (W.state host.old).scorer.answer catalog.now }
    ensures { Stepped run_faults (λ step. step ≡ scanned_step (W.state host.old).scorer.answer number catalog.now (query_of select.now)) catalog.now result
        (W.state host.old) (W.state host.new) }
{
    let query = bound_query(alloc, catalog, select)?;
    let done = scan_bound(alloc, number, &query, catalog, host);
    drop(query);
    done
}

/// Puts the rows of a bound query, the statement of this number, and the line of its accesses.
fn scan_bound<W: Host>(
    alloc: Global,
    number: usize,
    query: &Query,
    catalog: &Catalog,
    host: &mut W,
) -> Result<(), RunFault>
    requires formed { IsQuery catalog.now query.now }
    requires held { IndexesHold (W.state host.old).scorer.answer catalog.now }
    ensures { Stepped run_faults (λ step. step ≡ scan_step (W.state host.old).scorer.answer number catalog.now query.now) catalog.now result
        (W.state host.old) (W.state host.new) }
{
    match query {
        Query::One(block, limit) => match eligible_indexes(alloc, catalog, block)? {
            Some(indexes) => scan_block(alloc, block, *limit, indexes, catalog, host),
            None => Err(not_eligible(number)),
        },
        Query::Set(..) => Err(not_eligible(number)),
    }
}

/// The fault of the statement of this number, which the word doesn't take.
fn not_eligible(number: usize) -> RunFault
    ensures { result ≡ RunFault.NotEligible Ta number }
{
    RunFault::NotEligible {
        word: ScriptWord::Ta,
        statement: number,
    }
}

/// Puts the rows of an eligible block, and the line of its accesses. No scorer is called.
fn scan_block<W: Host>(
    alloc: Global,
    block: &Block,
    limit: Option<u32>,
    indexes: Vec<u8>,
    catalog: &Catalog,
    host: &mut W,
) -> Result<(), RunFault>
    requires formed { IsBlock catalog.now block.now }
    requires eligible { eligible_indexes catalog.now block.now ≡ Some indexes.items }
    requires held { IndexesHold (W.state host.old).scorer.answer catalog.now }
    ensures { Ran run_faults
        (lines_run (scan_lines (W.state host.old).scorer.answer catalog.now (One block.now limit) (block_input catalog.now block.now indexes.items))) result
        (W.state host.old) (W.state host.new) }
{
    eligible_blocks_can_be_scanned();
    threshold_scans_give_the_answer();
    new_scan_stands();
    let test = BlockTest::new(catalog, block);
    let mut lists = IndexLists::new(catalog, indexes);
    let mut scan = ThresholdScan::new(alloc, block.weights(), 1, 1);
    let put = put_scan(
        alloc,
        limit,
        block,
        catalog,
        &test,
        &mut scan,
        &mut lists,
        host.out(),
    );
    drop(scan);
    drop(lists);
    put
}

/// Puts the rows that a new scan of a block gives, and the line of its accesses. The lists have the accesses that what is put takes.
fn put_scan<O: Sink>(
    alloc: Global,
    limit: Option<u32>,
    block: &Block,
    catalog: &Catalog,
    test: &BlockTest<'_>,
    scan: &mut ThresholdScan,
    lists: &mut IndexLists<'_>,
    out: &mut O,
) -> Result<(), RunFault>
    requires formed { IsBlock catalog.now block.now }
    requires one_entry { length block.now.from ≡ 1 }
    requires test { test.now ≡ record { catalogue = catalog.now; block = block.now } }
    requires scanning { IsScanning test.now scan.old lists.old }
    requires unasked { IsUnasked scan.old }
    ensures puts { (beside : Environment) → let i = scan_input test.now scan.old lists.old in
        Ran run_faults (lines_run (rank_lines 1 (scanned_rows test.now limit i) ++ access_line i (scan_asks limit i) ∷ [])) result
        (record beside { out = O.state out.old }) (record beside { out = O.state out.new }) }
    ensures accessed { OnOk result (let i = scan_input test.now scan.old lists.old in AreAccessed i (scan_asks limit i) (index_lists_state lists.new)) }
    ensures broken { OnErr result (let i = scan_input test.now scan.old lists.old in
        IsBrokenOff i (scan_asks limit i) (rank_lines 1 (scanned_rows test.now limit i) ++ access_line i (scan_asks limit i) ∷ [])
        (O.state out.old) (O.state out.new) (index_lists_state lists.new)) }
{
    // Its contract says that the lists are ranked.
    let _ = lists.lists();
    put_scanned_rows(alloc, limit, block, catalog, test, scan, lists, out)?;
    put_accesses(alloc, scan, lists, out)
}

/// Puts the rows that a new scan of a block gives, as many as LIMIT says at most, each before the scan is asked again.
fn put_scanned_rows<O: Sink>(
    alloc: Global,
    limit: Option<u32>,
    block: &Block,
    catalog: &Catalog,
    test: &BlockTest<'_>,
    scan: &mut ThresholdScan,
    lists: &mut IndexLists<'_>,
    out: &mut O,
) -> Result<(), RunFault>
    requires formed { IsBlock catalog.now block.now }
    requires one_entry { length block.now.from ≡ 1 }
    requires test { test.now ≡ record { catalogue = catalog.now; block = block.now } }
    requires scanning { IsScanning test.now scan.old lists.old }
    requires unasked { IsUnasked scan.old }
    ensures puts { (beside : Environment) → let i = scan_input test.now scan.old lists.old in
        Ran run_faults (lines_run (rank_lines 1 (scanned_rows test.now limit i))) result
        (record beside { out = O.state out.old }) (record beside { out = O.state out.new }) }
    ensures asked { OnOk result (let i = scan_input test.now scan.old lists.old in IsAsked i (scan_asks limit i) scan.new lists.new) }
    ensures broken { OnErr result (let i = scan_input test.now scan.old lists.old in
        IsBrokenOff i (scan_asks limit i) (rank_lines 1 (scanned_rows test.now limit i)) (O.state out.old) (O.state out.new) (index_lists_state lists.new)) }
{
    thresholds_and_answers_rise();
    // Its contract says that the lists are ranked.
    let _ = lists.lists();
    let mut lines = RowLines::new(alloc);
    for given in 0..most_asks(limit) {
        let found = scan.next(test, lists)?;
        match found {
            Some(row) => {
                put_scanned_row(alloc, &mut lines, given + 1, block, catalog, row, out)?;
            }
            None => return Ok(()),
        }
    }
    Ok(())
}

/// How often a scan is asked at most.
fn most_asks(limit: Option<u32>) -> u64
    ensures { result ≡ most_asks limit }
{
    match limit {
        Some(limit) => u64::from(limit),
        None => u64::MAX,
    }
}

/// Puts the line of a row that has this rank, which `lines` makes. It is kept from row to row.
fn put_scanned_row<O: Sink>(
    alloc: Global,
    lines: &mut RowLines,
    rank: u64,
    block: &Block,
    catalog: &Catalog,
    row: RankRow,
    out: &mut O,
) -> Result<(), RunFault>
    requires formed { IsBlock catalog.now block.now }
    requires one_entry { length block.now.from ≡ 1 }
    requires row { IsBlockRow catalog.now block.now row }
    ensures { (beside : Environment) → let answer = answer_for catalog.now block.now row in
        Ran run_faults (lines_run (line_of rank answer.score answer.values ∷ [])) result
        (record beside { out = O.state out.old }) (record beside { out = O.state out.new }) }
{
    let values = block.outputs(alloc, &Snapshot::current(catalog), &row.ids)?;
    let line = lines.line(u128::from(rank), row.sum, &values)?;
    put_text(line, out)
}

/// Puts the line of accesses: how deep a scan is, and the sums of the sorted and of the random accesses of all lists.
fn put_accesses<O: Sink>(
    alloc: Global,
    scan: &ThresholdScan,
    lists: &IndexLists<'_>,
    out: &mut O,
) -> Result<(), RunFault>
    requires { scan.now.spent ≡ false }
    ensures { (beside : Environment) (i : ScanInput) (asks : ℕ) → IsAsked i asks scan.now lists.now →
        Ran run_faults (lines_run (access_line i asks ∷ [])) result
        (record beside { out = O.state out.old }) (record beside { out = O.state out.new }) }
{
    depths_decide_the_sums_of_accesses();
    // Its contract says that the lists are ranked.
    let _ = lists.lists();
    let (sorted, random) = lists.counts();
    let line = accesses_text(alloc, scan.depth(), sorted, random)?;
    put_text(line.as_bytes(), out)
}

/// The line of these accesses.
fn accesses_text(alloc: Global, depth: u32, sorted: u64, random: u64) -> Result<String, Memory>
    ensures { IfOk result (λ text. string_bytes text ≡ accesses_text depth sorted random) }
{
    Ok(format!(in alloc; "depth={depth} sorted={sorted} random={random}\n")?)
}
