//! The cursors of a script: DECLARE, FETCH and CLOSE.

ghost use Rattle.std.specs.Prelude.{◌≡◌, ◌≤◌, ◌⊎◌, ◌+◌, [], IfOk, drop, false, length, suc, take};
ghost use Rattle.std.specs.List.{AllByRecursion};
ghost use Rattle.std.specs.Map.{keys_of};
ghost use Rattle.rs_value.specs.Answer.{Gives};
ghost use Rattle.rs_syntax.specs.Syntax.{query_of};
ghost use Rattle.rs_syntax.specs.Written.{IsWrittenQuery};
ghost use Rattle.rs_expr.specs.Scoring.{Answering};
ghost use Rattle.rs_catalog.specs.Catalog.{CatalogDef, has_name};
ghost use Rattle.rs_exec.specs.Cursors.{StandsFor};
ghost use Rattle.rs_catalog.specs.IndexesHold.{IndexesHold};
ghost use Rattle.rs_catalog.specs.Snapshot.{HaveRows, snapshot};
ghost use Rattle.rs_query.specs.Tops.{HasTops};
ghost use Rattle.rs_query.specs.WellFormed.{IsQuery};
ghost use Rattle.rs_statement.specs.declared.evaluating.Evaluating.TheVariants.{Plainly, Planned};
ghost use Rattle.rs_statement.specs.Lines.{rank_lines};
ghost use Rattle.rs_statement.specs.Parts.Session.{CanAllBeAsked, CanBeAsked, IsAskedMore, asked_of, cursors_of, held_in, next_of, next_of_cursor, rows_step, seen_by, source_of, state_of, wanted_step};
ghost use Rattle.rs_statement.specs.Parts.Steps.{Leaves, Ran, Stepped};
ghost use Rattle.rs_events.specs.Run.{lines_run};
ghost use Rattle.rs_statement.specs.Session.{IsCursorOf, close_outcome, declare_step, declared_query, fetch_step, fetched_from, next_rows, opened_step};
ghost use Rattle.rs_statement.specs.Statements.{refused_or};
ghost use Rattle.rs_events.specs.Environment.{Environment};

use crate::evaluating::Evaluating;
use crate::fault::{Fault, SessionFault};
use crate::named::Named;
use crate::planned::{put_next, start_planned};
use crate::put::put_rows;
use crate::query::query_fault;
use crate::sampling::Sampling;
use rs_bind::{bind, bind_count};
use rs_catalog::{Catalog, Snapshot};
use rs_events::Host;
use rs_exec::Cursor;
use rs_expr::Scorer;
use rs_lex::Span;
use rs_lines::RowLines;
use rs_outside::Sink;
use rs_plain::answer_plainly;
use rs_query::Query;
use rs_rank::Answer;
use rs_syntax::{Name, Select};
use rs_value::{Memory, Text};
use std::alloc::Global;

/// What gives the rows of an open cursor.
#[derive(Drop)]
enum CursorRows {
    /// A plan, which is asked for one row after another, over the tables with as many rows as each had at the DECLARE.
    Asked { cursor: Cursor, sizes: Vec<u32> },
    /// They stand ready, and this many of them were given.
    Ready { rows: Vec<Answer>, given: usize },
}

/// The open cursors of a script by name, in the order of their DECLARE.
#[derive(Drop)]
pub struct Session {
    cursors: Named<CursorRows>,
}

impl Session {
    /// A session without a cursor.
    pub fn new(alloc: Global) -> Session
        ensures { held_in result ≡ [] }
    {
        Session {
            cursors: Named::new(alloc),
        }
    }
}

/// Lets go of what a script has made. A crate above that did so by itself would prove for each type in them how it is let go of.
pub fn release(catalog: Catalog, session: Session) {
    drop(session);
    drop(catalog);
}

/// DECLARE: opens a cursor over the rows of a query, behind the others. Nothing is put. By a plan it makes the calls of the sample, and
/// plainly all calls of the query. The catalogue then has the tables and the predicates of each open cursor that is asked by a plan, with
/// the rows that it sees.
///
/// # Errors
///
/// - `Script`: exactly where the query breaks a rule of names and types; nobody is called then.
/// - `Session`: behind the rules of the query, `NameTaken` exactly where a cursor of the name is open, and `Full`
///   exactly where 64 are open and the name is free; nobody is called then.
/// - `BadScore`: plainly, exactly at the first call whose answer lies outside 0 to the predicate's MAX, unless `Probe`
///   or `Memory` came before; by a plan never.
/// - `Probe`: only where the last call that was made failed; the scorer's count of faults rose.
/// - `Memory`: at any time, in place of what else would come.
/// - `Read`, `Write`, `Table`: never.
pub fn declare<S: Scorer>(
    alloc: Global,
    evaluating: Evaluating,
    name: &Name,
    select: &Select,
    catalog: &Catalog,
    session: &mut Session,
    scorer: &mut S,
) -> Result<(), Fault>
    requires written { IsWrittenQuery (query_of select.now) }
    requires held { IndexesHold (S.state scorer.old).answer catalog.now }
    requires asked { CanAllBeAsked (S.state scorer.old).answer catalog.now (held_in session.old) }
    ensures opens { (beside : Environment) → Stepped
        (λ step. step ≡ declare_step evaluating (S.state scorer.old).answer (state_of catalog.now (held_in session.old)) name.now (query_of select.now))
        (state_of catalog.now (held_in session.new)) result
        (record beside { scorer = S.state scorer.old }) (record beside { scorer = S.state scorer.new }) }
    ensures asked { IfOk result (λ _. CanAllBeAsked (S.state scorer.old).answer catalog.now (held_in session.new)) }
    ensures cursors { IfOk result (λ _. AllByRecursion (IsCursorOf catalog.now) (cursors_of (held_in session.new))) }
{
    match evaluating {
        Evaluating::Plainly => declare_ready(alloc, name, select, catalog, session, scorer),
        Evaluating::Planned(sampling) => {
            declare_planned(alloc, sampling, name, select, catalog, session, scorer)
        }
    }
}

/// Opens a cursor whose rows stand ready: all calls of its query are made.
fn declare_ready<S: Scorer>(
    alloc: Global,
    name: &Name,
    select: &Select,
    catalog: &Catalog,
    session: &mut Session,
    scorer: &mut S,
) -> Result<(), Fault>
    requires written { IsWrittenQuery (query_of select.now) }
    requires asked { CanAllBeAsked (S.state scorer.old).answer catalog.now (held_in session.old) }
    ensures opens { (beside : Environment) → Stepped
        (λ step. step ≡ refused_or (opened_step Plainly (S.state scorer.old).answer name.now.text (state_of catalog.now (held_in session.old)))
        (declared_query (state_of catalog.now (held_in session.old)) name.now (query_of select.now)))
        (state_of catalog.now (held_in session.new)) result
        (record beside { scorer = S.state scorer.old }) (record beside { scorer = S.state scorer.new }) }
    ensures asked { IfOk result (λ _. CanAllBeAsked (S.state scorer.old).answer catalog.now (held_in session.new)) }
{
    let query = declared_query(alloc, name, select, catalog, session)?;
    let answered = answer_plainly(alloc, catalog, &query, scorer);
    drop(query);
    let rows = match answered {
        Ok(rows) => rows,
        Err(why) => return Err(query_fault(catalog, why)),
    };
    session
        .cursors
        .add(&name.text, CursorRows::Ready { rows, given: 0 })?;
    Ok(())
}

/// Opens a cursor over the least plan of its query, which its sample decides.
fn declare_planned<S: Scorer>(
    alloc: Global,
    sampling: Sampling,
    name: &Name,
    select: &Select,
    catalog: &Catalog,
    session: &mut Session,
    scorer: &mut S,
) -> Result<(), Fault>
    requires written { IsWrittenQuery (query_of select.now) }
    requires held { IndexesHold (S.state scorer.old).answer catalog.now }
    requires asked { CanAllBeAsked (S.state scorer.old).answer catalog.now (held_in session.old) }
    ensures opens { (beside : Environment) → Stepped
        (λ step. step ≡ refused_or (opened_step (Planned sampling) (S.state scorer.old).answer name.now.text (state_of catalog.now (held_in session.old)))
        (declared_query (state_of catalog.now (held_in session.old)) name.now (query_of select.now)))
        (state_of catalog.now (held_in session.new)) result
        (record beside { scorer = S.state scorer.old }) (record beside { scorer = S.state scorer.new }) }
    ensures asked { IfOk result (λ _. CanAllBeAsked (S.state scorer.old).answer catalog.now (held_in session.new)) }
{
    let query = declared_query(alloc, name, select, catalog, session)?;
    let cursor = start_planned(alloc, sampling, catalog, query, scorer)?;
    match catalog.sizes(alloc) {
        Ok(sizes) => session
            .cursors
            .add(&name.text, CursorRows::Asked { cursor, sizes })?,
        Err(Memory) => {
            drop(cursor);
            return Err(Fault::Memory);
        }
    }
    Ok(())
}

/// The query of a DECLARE. Its names and types count first, and then whether a cursor of the name can be opened.
fn declared_query(
    alloc: Global,
    name: &Name,
    select: &Select,
    catalog: &Catalog,
    session: &Session,
) -> Result<Query, Fault>
    requires written { IsWrittenQuery (query_of select.now) }
    ensures gives { Gives Fault.Memory (declared_query (state_of catalog.now (held_in session.now)) name.now (query_of select.now)) result }
    ensures formed { IfOk result (IsQuery catalog.now) }
    ensures tops { IfOk result (HasTops catalog.now) }
    ensures free { IfOk result (λ _. has_name name.now.text (keys_of (held_in session.now)) ≡ false) }
{
    let query = bind(alloc, catalog, select)?;
    session.cursors.room(&name.text)?;
    Ok(query)
}

/// The fault of a statement that can't have the cursor of this name.
pub fn session_fault(why: SessionFault, name: &Text) -> Fault
    ensures { (result ≡ Fault.Session why name.now) ⊎ (result ≡ Fault.Memory) }
{
    match name.copy() {
        Ok(name) => Fault::Session { why, name },
        Err(_) => Fault::Memory,
    }
}

/// FETCH: puts the next rows of a cursor, at most this many, by the calls of these asks alone, each row before the next ask. Ranks go on
/// from the FETCH before it. All other cursors stay as they are.
///
/// # Errors
///
/// - `Script`: exactly where the number of FETCH lies outside 0 to 1,000,000.
/// - `Session`: behind the number, `Unknown` exactly where no cursor of the name is open.
/// - `BadScore`: exactly at the first call whose answer lies outside 0 to the predicate's MAX, unless another fault
///   came before.
/// - `Probe`: only where the last call that was made failed; the scorer's count of faults rose.
/// - `Write`: only where a put failed; standard output's count of faults rose.
/// - `Memory`: at any time, in place of what else would come.
/// - `Read`, `Table`: never.
pub fn fetch<W: Host>(
    alloc: Global,
    count: &(i64, Span),
    name: &Name,
    catalog: &Catalog,
    session: &mut Session,
    host: &mut W,
) -> Result<(), Fault>
    requires { CanAllBeAsked (W.state host.old).scorer.answer catalog.now (held_in session.old) }
    ensures puts { Stepped
        (λ step. step ≡ fetch_step (W.state host.old).scorer.answer (state_of catalog.now (held_in session.old)) count.now name.now)
        (state_of catalog.now (held_in session.new)) result
        (W.state host.old) (W.state host.new) }
    ensures asked { IfOk result (λ _. CanAllBeAsked (W.state host.old).scorer.answer catalog.now (held_in session.new)) }
{
    let count = bind_count(count.0, count.1)?;
    match session.cursors.named_mut(&name.text) {
        Some(held) => fetch_rows(alloc, count, catalog, held, host),
        None => Err(session_fault(SessionFault::Unknown, &name.text)),
    }
}

/// Puts the next rows of a cursor, at most this many.
fn fetch_rows<W: Host>(
    alloc: Global,
    count: u32,
    catalog: &Catalog,
    held: &mut CursorRows,
    host: &mut W,
) -> Result<(), Fault>
    requires { CanBeAsked (W.state host.old).scorer.answer catalog.now held.old }
    ensures puts { Stepped
        (λ step. step ≡ rows_step catalog.now (W.state host.old).scorer.answer held.old count) (seen_by held.old catalog.now) result (W.state host.old) (W.state host.new) }
    ensures source { IfOk result (λ _. source_of held.new ≡ source_of held.old) }
    ensures count { IfOk result (λ _. asked_of held.new ≡ asked_of held.old + next_of catalog.now (W.state host.old).scorer.answer held.old count) }
    ensures asked { IfOk result (λ _. CanBeAsked (W.state host.old).scorer.answer catalog.now held.new) }
{
    match held {
        CursorRows::Asked { cursor, sizes } => fetch_seen(
            alloc, count, catalog, sizes, cursor, host,
        ),
        CursorRows::Ready { rows, given } => fetch_ready(alloc, count, rows, given, host.out()),
    }
}

/// Asks a cursor this many times over tables with so many rows, and puts what it gives.
fn fetch_seen<W: Host>(
    alloc: Global,
    count: u32,
    catalog: &Catalog,
    sizes: &[u32],
    cursor: &mut Cursor,
    host: &mut W,
) -> Result<(), Fault>
    requires have { HaveRows sizes.now catalog.now.tables }
    requires stands { StandsFor (snapshot sizes.now catalog.now) (W.state host.old).scorer.answer cursor.old }
    ensures puts { Stepped (λ step. step ≡ wanted_step (snapshot sizes.now catalog.now) (W.state host.old).scorer.answer cursor.old count) (snapshot sizes.now catalog.now)
        result (W.state host.old) (W.state host.new) }
    ensures count { IfOk result (λ _. IsAskedMore cursor.old (next_of_cursor (snapshot sizes.now catalog.now) (W.state host.old).scorer.answer cursor.old count) cursor.new) }
    ensures stands { IfOk result (λ _. StandsFor (snapshot sizes.now catalog.now) (W.state host.old).scorer.answer cursor.new) }
{
    fetch_asked(alloc, count, &Snapshot::of(catalog, sizes), cursor, host)
}

/// Asks a cursor this many times, or up to the end of its rows, and puts each row before it asks for the next one.
fn fetch_asked<W: Host>(
    alloc: Global,
    count: u32,
    catalog: &Snapshot<'_>,
    cursor: &mut Cursor,
    host: &mut W,
) -> Result<(), Fault>
    requires { StandsFor catalog.now (W.state host.old).scorer.answer cursor.old }
    ensures puts { Stepped (λ step. step ≡ wanted_step catalog.now (W.state host.old).scorer.answer cursor.old count) catalog.now result (W.state host.old) (W.state host.new) }
    ensures count { IfOk result (λ _. IsAskedMore cursor.old (next_of_cursor catalog.now (W.state host.old).scorer.answer cursor.old count) cursor.new) }
    ensures stands { IfOk result (λ _. StandsFor catalog.now (W.state host.old).scorer.answer cursor.new) }
{
    let mut lines = RowLines::new(alloc);
    for _ in 0..count {
        if !put_next(&mut lines, catalog, cursor, host)? {
            return Ok(());
        }
    }
    Ok(())
}

/// Puts the rows that stand ready behind those that were given, at most this many.
fn fetch_ready<O: Sink>(
    alloc: Global,
    count: u32,
    rows: &[Answer],
    given: &mut usize,
    out: &mut O,
) -> Result<(), Fault>
    requires { given.old ≤ length rows.now }
    ensures puts { (beside : Environment) → Ran (lines_run (rank_lines (suc given.old) (take (next_rows rows.now given.old count) (drop given.old rows.now)))) result
        (record beside { out = O.state out.old }) (record beside { out = O.state out.new }) }
    ensures count { IfOk result (λ _. given.new ≡ given.old + next_rows rows.now given.old count) }
{
    let wanted = (count as usize).min(rows.len() - *given);
    put_rows(alloc, *given, &rows[*given..*given + wanted], out)?;
    *given += wanted;
    Ok(())
}

/// CLOSE: the name of a cursor is free again.
///
/// # Errors
///
/// - `Session`: `Unknown` exactly where no cursor of the name is open.
/// - `Memory`: at any time, in place of what else would come.
/// - `Read`, `Write`, `Table`, `BadScore`, `Probe`, `Script`: never.
pub fn close(name: &Name, session: &mut Session) -> Result<(), Fault>
    ensures closes { (catalogue : CatalogDef) → Leaves (close_outcome (state_of catalogue (held_in session.old)) name.now) (state_of catalogue (held_in session.new)) result }
    ensures asked { (answer : Answering) (catalogue : CatalogDef) → CanAllBeAsked answer catalogue (held_in session.old)
        → CanAllBeAsked answer catalogue (held_in session.new) }
{
    session.cursors.remove(&name.text)
}
