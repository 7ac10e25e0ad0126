ghost use Rattle.std.specs.Prelude.{◌≡◌, ◌∷◌, ◌++◌, ◌⊎◌, [], MatchOption, None, OnErr, OnOk, Some};
ghost use Rattle.std.specs.List.{concat};
ghost use Rattle.rs_value.specs.Faults.{raised};
ghost use Rattle.rs_outside.specs.Sink.{IsPrefix};
ghost use Rattle.rs_ask.specs.PutRows.{after_refusal, no_rows, rows_again, rows_state};
ghost use Rattle.rs_value.specs.Outside.{Counts};

use crate::row_fault::RowFault;
use rs_value::{List, Memory};
use std::alloc::Global;
use std::marker::Model;

/// The bytes that all runs put so far, one after another, and the pieces that the last run put. Each of its pieces is what was put
/// before in its place, or goes on behind it, until a put fails.
#[derive(Debug, Drop)]
pub(crate) struct PutRows {
    bytes: Vec<u8>,
    // How many of the bytes were put before the last run.
    before: usize,
    // The pieces that the run put, by their lengths: they are the first bytes, up to `at`.
    lengths: Vec<usize>,
    at: usize,
    // What was taken by the puts that were refused.
    refused: Vec<List<u8>>,
    fault: Option<RowFault>,
    faults: u64,
}

impl Model for PutRows {
    ghost use Rattle.std.specs.Prelude.{take};
    ghost use Rattle.rs_ask.specs.PutRows.{IsRows, PutRowsState, pieces_of};

    ghost Value = { PutRowsState };

    ghost view = { λ r. record {
      shown = take r.before r.bytes.items;
      bytes = r.bytes.items;
      pieces = pieces_of r.lengths.items r.bytes.items;
      refused = r.refused.items;
      fault = r.fault;
      faults = r.faults;
    } };

    ghost invariant = { λ r. IsRows (record {
      bytes = r.bytes.items;
      before = r.before;
      lengths = r.lengths.items;
      at = r.at;
      refused = r.refused.items;
      fault = r.fault;
    }) };
}

impl PutRows {
    /// No run was made. It takes no memory.
    pub(crate) fn new(alloc: Global) -> PutRows
        ensures { result ≡ no_rows }
    {
        PutRows {
            bytes: Vec::new(alloc),
            before: 0,
            lengths: Vec::new(alloc),
            at: 0,
            refused: Vec::new(alloc),
            fault: None,
            faults: 0,
        }
    }

    /// Begins one more run: what was put so far stays.
    pub(crate) fn begin(&mut self)
        ensures { self.new ≡ rows_again self.old.bytes }
    {
        self.before = self.bytes.len();
        self.lengths.clear();
        self.at = 0;
        self.refused.clear();
        self.fault = None;
        self.faults = 0;
    }

    /// Why a put of the run failed, if one did.
    pub(crate) fn fault(&self) -> Option<RowFault>
        ensures value { result ≡ self.now.fault }
        ensures none { result ≡ None → self.now.refused ≡ [] }
    {
        self.fault
    }

    /// What was put before behind the pieces of this run.
    pub(crate) fn rest(&self) -> &[u8]
        ensures { self.now.bytes ≡ concat self.now.pieces ++ result.now }
    {
        &self.bytes[self.at..]
    }

    /// Adds a piece of the run, of which this much is new.
    pub(crate) fn add(&mut self, piece: &[u8], new: &[u8]) -> Result<(), Memory>
        requires { IsPrefix (concat self.old.pieces ++ piece.now) (self.old.bytes ++ new.now) }
        ensures ok { OnOk result (self.new ≡ record self.old { bytes = self.old.bytes ++ new.now; pieces = self.old.pieces ++ piece.now ∷ [] }) }
        ensures err { OnErr result (self.new ≡ self.old) }
    {
        self.lengths.reserve(1)?;
        self.bytes.extend_from_slice(new)?;
        self.lengths.push(piece.len()).unwrap();
        self.at += piece.len();
        Ok(())
    }

    /// The put of the piece that was added last failed.
    pub(crate) fn fail(&mut self, fault: RowFault)
        ensures value { self.new ≡ record self.old { fault = Some fault; faults = raised self.old.faults } }
        ensures counts { Counts (Unit {0}) (rows_state self.old) (rows_state self.new) }
    {
        self.fault = Some(fault);
        self.faults = self.faults.saturating_add(1);
    }

    /// Refuses a piece, of which this much was taken.
    pub(crate) fn refuse(&mut self, taken: &[u8], fault: RowFault) -> Result<(), Memory>
        ensures ok { OnOk result (self.new ≡ after_refusal taken.now fault self.old) }
        ensures counts { OnOk result (Counts (Unit {0}) (rows_state self.old) (rows_state self.new)) }
        ensures err { OnErr result (self.new ≡ self.old) }
    {
        let taken = Vec::from_slice(*self.bytes.allocator(), taken)?;
        self.refused.push(List::of(taken))?;
        self.fault = Some(fault);
        self.faults = self.faults.saturating_add(1);
        Ok(())
    }
}

/// What of a piece is new where this was put before: nothing, where that begins with the piece; or what stands behind that. There
/// is none where they differ.
pub(crate) fn new_part<'a>(before: &[u8], piece: &'a [u8]) -> Option<&'a [u8]>
    ensures { MatchOption result ((¬ IsPrefix piece.now before.now) × (¬ IsPrefix before.now piece.now))
        (λ new. (IsPrefix piece.now before.now × (new.now ≡ [])) ⊎ (piece.now ≡ before.now ++ new.now)) }
{
    match before.strip_prefix(piece) {
        Some(_) => Some(&[]),
        None => piece.strip_prefix(before),
    }
}
