ghost use Rattle.std.specs.Prelude.{◌≡◌, ◌+◌, ◌<◌, ◌^◌, [], false, IfOk, OnOk, not, is_some, drop, slice_get, if◌then◌else◌};
ghost use Rattle.std.specs.BTreeSet.{insert_key};
ghost use Rattle.std.specs.List.{AllByRecursion};
ghost use Rattle.std.specs.Option.{option_map};
ghost use Rattle.std.specs.Ordering.{nat_cmp};
ghost use Rattle.rs_order.specs.Sorting.{put};
ghost use Rattle.rs_rank.specs.Ids.{AreOtherIds};
ghost use Rattle.rs_rank.specs.Keys.{key_cmp};
ghost use Rattle.rs_ta.specs.Depths.{row_key};
ghost use Rattle.rs_ta.specs.Rounds.{has_row, is_reached, reaches, row_of_key};

use rs_queue::Queue;
use rs_rank::{Key, RankRow};
use rs_value::Memory;
use std::alloc::Global;
use std::collections::BTreeSet;
use std::marker::Model;

/// The rows that were shown, and those of them that are held.
///
/// The numbers are kept in an ordered set: a set by hashes whose seed is known is slow on numbers that were made for it.
#[derive(Drop)]
pub(crate) struct SeenRows {
    seen: BTreeSet<u32>,
    // Of each row held its key, whose bound is its sum.
    held: Queue<Key, ()>,
    // How many rounds were made, and how many rows were given.
    rounds: u32,
    given: u64,
}

impl Model for SeenRows {
    ghost use Rattle.rs_ta.specs.Rounds.{SeenState, rows_of_keys};

    ghost Value = { SeenState };

    ghost view = { λ s. record { seen = s.seen.keys; held = rows_of_keys s.held; rounds = s.rounds; given = s.given } };
}

impl SeenRows {
    /// No row. It takes no memory.
    pub(crate) fn new(alloc: Global) -> SeenRows
        ensures { result ≡ record { seen = []; held = []; rounds = 0; given = 0 } }
    {
        SeenRows {
            seen: BTreeSet::new(alloc),
            held: Queue::new(alloc),
            rounds: 0,
            given: 0,
        }
    }

    /// How many rounds were made.
    pub(crate) fn rounds(&self) -> u32
        ensures { result ≡ self.now.rounds }
    {
        self.rounds
    }

    /// Notes that a row was shown. Answers whether it is new.
    pub(crate) fn note(&mut self, row: u32) -> Result<bool, Memory>
        ensures new { IfOk result (λ is_new. is_new ≡ not (has_row row self.old.seen)) }
        ensures ok { OnOk result (self.new ≡ record self.old { seen = insert_key nat_cmp self.old.seen row }) }
        ensures old { result ≡ Ok false → self.new ≡ self.old }
    {
        Ok(self.seen.insert(row)?)
    }

    /// Holds the row of a key, which no row held has.
    pub(crate) fn hold(&mut self, key: Key) -> Result<(), Memory>
        requires { AllByRecursion (λ row. AreOtherIds row.ids key.ids) self.old.held }
        ensures { OnOk result (self.new ≡ record self.old { held = put key_cmp row_key (row_of_key key) self.old.held }) }
    {
        match self.held.push(key, ()) {
            Ok(()) => Ok(()),
            Err(_) => Err(Memory),
        }
    }

    /// Whether a row is held whose key comes at or before the last threshold.
    pub(crate) fn is_reached(&self, last: &Option<Key>) -> bool
        ensures { result ≡ is_reached last.now self.now.held }
    {
        reaches(last, self.held.peek())
    }

    /// Takes the first row held.
    pub(crate) fn give(&mut self) -> Option<RankRow>
        requires { self.old.given + 1 < 2 ^ 64 }
        ensures row { result ≡ slice_get self.old.held 0 }
        ensures after { self.new ≡ record self.old {
          held = drop 1 self.old.held;
          given = if is_some result then self.old.given + 1 else self.old.given;
        } }
    {
        let (key, ()) = self.held.pop()?;
        self.given += 1;
        Some(RankRow {
            ids: key.ids,
            sum: key.bound,
        })
    }

    /// A round is over.
    pub(crate) fn end_round(&mut self)
        requires { self.old.rounds + 1 < 2 ^ 32 }
        ensures { self.new ≡ record self.old { rounds = self.old.rounds + 1 } }
    {
        self.rounds += 1;
    }
}

/// Whether the first key comes at or before the last threshold.
fn reaches(last: &Option<Key>, first: Option<&Key>) -> bool
    ensures { result ≡ reaches last.now (option_map (λ key. key.now) first.entry) }
{
    match last {
        Some(last) => match first {
            Some(first) => first.cmp(last).is_le(),
            None => false,
        },
        None => false,
    }
}
