ghost use Rattle.std.specs.Prelude.{◌≡◌, ◌++◌, [], Err, IfSome, List, None, ℕ};
ghost use Rattle.std.specs.List.{concat};
ghost use Rattle.rs_value.specs.Outside.{Counts, Outside};
ghost use Rattle.rs_outside.specs.Sink.{Puts};
ghost use Rattle.rs_ask.specs.PutRows.{IsOfRun, IsRefused, Passed, rows_state};
ghost use Rattle.rs_ask.specs.Stops.{StopsAt, differs_as};

use crate::put_rows::{PutRows, new_part};
use crate::row_fault::RowFault;
use crate::stop::Stop;
use rs_outside::{Sink, SinkFault};
use rs_value::Memory;
use std::marker::{Brand, Model, PhantomData};

/// What stood before a run. Proofs alone see it.
pub(crate) trait Began {
    ghost use Rattle.std.specs.Prelude.{List, ℕ};
    ghost use Rattle.rs_value.specs.Outside.{Outside};

    /// What was put where rows go, before the first run.
    ghost out: { Outside (List (List ℕ)) };

    /// All that was put by the runs before.
    ghost shown: { List ℕ };
}

impl Began for Brand {
    ghost use Rattle.std.specs.Prelude.{[]};
    ghost use Rattle.rs_value.specs.Outside.{untold};

    ghost out = { untold 0 };

    ghost shown = { [] };
}

/// Where a run puts its rows: what was put before is compared, and what is new is passed on at once.
pub(crate) struct NewRows<O: Sink, B: Began> {
    rows: PutRows,
    out: O,
    of: PhantomData<B>,
}

impl<O: Sink, B: Began> Model for NewRows<O, B> {
    ghost use Rattle.rs_ask.specs.PutRows.{IsOfRun, NewRowsState};

    ghost Value = { NewRowsState O };

    ghost view = { λ n. record { rows = n.rows; out = n.out } };

    ghost invariant = { λ n. IsOfRun B.shown B.out (O.state n.out) n.rows };
}

impl<O: Sink, B: Began> NewRows<O, B> {
    /// Of a run that begins.
    pub(crate) fn new(rows: PutRows, out: O) -> NewRows<O, B>
        requires { IsOfRun B.shown B.out (O.state out) rows }
        ensures { result ≡ record { rows = rows; out = out } }
    {
        NewRows {
            rows,
            out,
            of: PhantomData,
        }
    }

    /// What stops the asking behind a run, if anything does: a put of its rows that failed, or that it put less than was put before.
    pub(crate) fn stop(&self, lacked_memory: bool) -> Option<Stop>
        ensures none { result ≡ None → (self.now.rows.fault ≡ None) × (self.now.rows.refused ≡ []) × (self.now.rows.bytes ≡ concat self.now.rows.pieces) }
        ensures some { IfSome result (λ stop. StopsAt stop lacked_memory self.now.rows.shown (rows_state self.now.rows) B.out (O.state self.now.out)) }
        ensures of { IsOfRun B.shown B.out (O.state self.now.out) self.now.rows }
    {
        match self.rows.fault() {
            None => {
                if self.rows.rest().is_empty() {
                    return None;
                }
                Some(differs(lacked_memory))
            }
            Some(RowFault::Differs) => Some(differs(lacked_memory)),
            Some(RowFault::Failed) => Some(Stop::Write),
            Some(RowFault::Memory) => Some(Stop::Memory),
        }
    }

    /// What was put so far, and where rows go.
    pub(crate) fn into_parts(self) -> (PutRows, O)
        ensures { result ≡ (self.rows, self.out) }
    {
        let NewRows { rows, out, of: _ } = self;
        (rows, out)
    }
}

/// What a run that differs from what was put before is told as: of one that lacked memory it isn't told.
fn differs(lacked_memory: bool) -> Stop
    ensures { result ≡ differs_as lacked_memory }
{
    if lacked_memory {
        Stop::Memory
    } else {
        Stop::Differs
    }
}

/// Takes a piece of a run: passes on to `out` what of it is new.
fn put_piece<O: Sink>(rows: &mut PutRows, piece: &[u8], out: &mut O) -> Result<(), SinkFault>
    ensures puts { Puts piece.now result (rows_state rows.old).told (rows_state rows.new).told }
    ensures counts { Counts (result ≡ Err SinkFault.Failed) (rows_state rows.old) (rows_state rows.new) }
    ensures shown { rows.new.shown ≡ rows.old.shown }
    ensures passes { (began : Outside (List (List ℕ))) → Passed began (O.state out.old) rows.old → Passed began (O.state out.new) rows.new }
{
    if let Some(fault) = rows.fault() {
        return refuse(rows, b"", fault);
    }
    let Some(new) = new_part(rows.rest(), piece) else {
        return refuse(rows, piece, RowFault::Differs);
    };
    match rows.add(piece, new) {
        Ok(()) => {}
        Err(Memory) => return Err(SinkFault::Memory),
    }
    if new.is_empty() {
        return Ok(());
    }
    match out.put(new) {
        Ok(()) => Ok(()),
        Err(SinkFault::Failed) => {
            rows.fail(RowFault::Failed);
            Err(SinkFault::Failed)
        }
        Err(SinkFault::Memory) => {
            rows.fail(RowFault::Memory);
            Err(SinkFault::Failed)
        }
    }
}

/// Refuses a piece, of which this much was taken, if there is memory for that.
fn refuse(rows: &mut PutRows, taken: &[u8], fault: RowFault) -> Result<(), SinkFault>
    ensures refused { IsRefused taken.now fault result rows.old rows.new }
    ensures counts { Counts (result ≡ Err SinkFault.Failed) (rows_state rows.old) (rows_state rows.new) }
{
    match rows.refuse(taken, fault) {
        Ok(()) => Err(SinkFault::Failed),
        Err(Memory) => Err(SinkFault::Memory),
    }
}

impl<O: Sink, B: Began> Sink for NewRows<O, B> {
    ghost state = { λ new. rows_state new.rows };

    fn put(&mut self, bytes: &[u8]) -> Result<(), SinkFault> {
        put_piece(&mut self.rows, bytes, &mut self.out)
    }
}
