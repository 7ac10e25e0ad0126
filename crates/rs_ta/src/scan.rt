ghost use Rattle.std.specs.Prelude.{◌≡◌, ◌↔◌, None, suc, false, true, IfOk, OnErr, OnOk, length, slice_get, is_none, is_some, ◌+◌, if◌then◌else◌};
ghost use Rattle.rs_rank.specs.Weights.{IsWeights};
ghost use Rattle.rs_ta.specs.Depths.{answers, depth};
ghost use Rattle.rs_ta.specs.Lists.{rows_in};
ghost use Rattle.rs_ta.specs.Scans.{AreAccessed, AreAccessedWithin, HaveWeights, IsEntry, Stands, asks_of, input_of, new_scan, scan_after};

use crate::lists::Lists;
use crate::round::advance;
use crate::row_test::RowTest;
use crate::seen_rows::SeenRows;
use crate::terms::ScanTerms;
use rs_rank::{Key, RankRow, Weights};
use rs_value::Memory;
use std::alloc::Global;
use std::marker::Model;

/// A scan over ranked lists of the rows of one table. It gives the rows for which a test holds, the greatest sum of weight times
/// score first, and at equal sums the first row.
///
/// A round is one sorted access of each list. A row that is shown for the first time is looked up in all other lists by random
/// accesses, before its condition is tested: so the accesses are a function of the lists and of the depth alone. The scan gives the
/// first row that it holds once its key comes at or before the threshold of the last round: no other row can come before it then. It
/// knows no score but by an access.
///
/// After a call that answered `Memory` it is spent, and no further call is allowed.
#[derive(Drop)]
pub struct ThresholdScan {
    terms: ScanTerms,
    rows: SeenRows,
    // The threshold of the last round.
    last: Option<Key>,
    ended: bool,
    spent: bool,
}

impl Model for ThresholdScan {
    ghost use Rattle.rs_rank.specs.Weights.{IsWeights};
    ghost use Rattle.rs_ta.specs.Scans.{IsEntry, Scan};

    ghost Value = { Scan };

    ghost view = { λ s. record {
      weights = s.terms.weights;
      entry = s.terms.entry;
      block = s.terms.block;
      seen = s.rows.seen;
      held = s.rows.held;
      last = s.last;
      rounds = s.rows.rounds;
      given = s.rows.given;
      ended = s.ended;
      spent = s.spent;
    } };

    ghost invariant = { λ s. IsWeights s.terms.weights × IsEntry s.terms.entry };
}

impl ThresholdScan {
    /// The scan for the terms of these weights, of which the first is that of the first list, and so on, over rows of a FROM entry, from
    /// 1 to 6, of block 1 or 2. It takes no memory.
    pub fn new(alloc: Global, weights: Weights, entry: u8, block: u8) -> ThresholdScan
        requires weights { IsWeights weights }
        requires entry { IsEntry entry }
        ensures { result ≡ new_scan weights entry block }
    {
        ThresholdScan {
            terms: ScanTerms {
                weights,
                entry,
                block,
            },
            rows: SeenRows::new(alloc),
            last: None,
            ended: false,
            spent: false,
        }
    }

    /// How many rounds it made: how deep it went into each list.
    pub fn depth(&self) -> u32
        requires { self.now.spent ≡ false }
        ensures { result ≡ self.now.rounds }
    {
        self.rows.rounds()
    }

    /// The next row of the answer with its sum. The scan and the lists are to stand where the asks so far left them, and each list is
    /// to have a weight.
    ///
    /// # Errors
    ///
    /// - `None`: exactly once all rows of the answer were given, and at each later call.
    /// - `Memory`: at any call; the scan is spent from then on. The lists had the accesses of the asks before this one, and
    ///   none beyond those of this one.
    pub fn next<L: Lists, T: RowTest>(
        &mut self,
        test: &T,
        lists: &mut L,
    ) -> Result<Option<RankRow>, Memory>
        requires same_rows { T.rows test.now ≡ rows_in (L.state lists.old).lists }
        requires weights { HaveWeights (input_of self.old (L.state lists.old) (T.truth test.now)) }
        requires stands { Stands (input_of self.old (L.state lists.old) (T.truth test.now)) self.old (L.state lists.old) }
        ensures row { IfOk result (λ row. row ≡ slice_get (answers (input_of self.old (L.state lists.old) (T.truth test.now))) self.old.given) }
        ensures end { IfOk result (λ row. (row ≡ None) ↔ (self.old.given ≡ length (answers (input_of self.old (L.state lists.old) (T.truth test.now))))) }
        ensures accessed { OnOk result (AreAccessed (input_of self.old (L.state lists.old) (T.truth test.now)) (suc self.old.given) (L.state lists.new)) }
        ensures after { IfOk result (λ row. self.new ≡ scan_after (input_of self.old (L.state lists.old) (T.truth test.now)) (suc self.old.given)
            (if is_some row then self.old.given + 1 else self.old.given) (is_none row)) }
        ensures stands { OnOk result (Stands (input_of self.old (L.state lists.old) (T.truth test.now)) self.new (L.state lists.new)) }
        ensures input { OnOk result (input_of self.new (L.state lists.new) (T.truth test.now) ≡ input_of self.old (L.state lists.old) (T.truth test.now)) }
        ensures lists { (L.state lists.new).lists ≡ (L.state lists.old).lists }
        ensures err { OnErr result (self.new.spent ≡ true) }
        ensures refused { OnErr result (let i = input_of self.old (L.state lists.old) (T.truth test.now) in
            AreAccessedWithin i (depth i (asks_of self.old)) (depth i (suc self.old.given)) (L.state lists.new)) }
    {
        // Its contract says that the lists are ranked.
        let _ = lists.lists();
        let gone = advance(&self.terms, &mut self.rows, &mut self.last, test, lists);
        if gone.is_err() {
            self.spent = true;
            return Err(Memory);
        }
        let row = self.rows.give();
        self.ended = row.is_none();
        Ok(row)
    }
}
