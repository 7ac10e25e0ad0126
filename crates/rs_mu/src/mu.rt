ghost use Rattle.std.specs.Prelude.{◌≡◌, ◌-◌, ◌*◌, ◌+◌, ◌≤◌, bit_or, false, true, slice_index, OnOk, OnErr};
ghost use Rattle.std.specs.List.{AllByRecursion};
ghost use Rattle.std.specs.Option.{option_map};
ghost use Rattle.rs_order.specs.Climbing.{Climbs};
ghost use Rattle.rs_rank.specs.Keys.{key_cmp};
ghost use Rattle.rs_rank.specs.Masks.{mask_of};
ghost use Rattle.rs_rank.specs.Rows.{HasSum};
ghost use Rattle.rs_rank.specs.Weights.{IsWeights, score_limit};
ghost use Rattle.rs_mu.specs.Mu.{CanEnd, CanFeed, IsNewTerm, ask_first, ask_of, fed, full_key, is_reached, left_for, new_mu, scored, taken_for};

use rs_queue::Queue;
use rs_rank::{Ask, Key, RankRow, Weights, mask_of, union};
use rs_value::Memory;
use std::alloc::Global;
use std::marker::Model;

/// The rank operator over one input, whose rows come in the order of their keys by the terms below. It knows no input:
/// it says what it needs, is fed, and gives.
///
/// After a call that answered `Memory` it is spent, and no further call is allowed.
#[derive(Drop)]
pub struct MuCore {
    weights: Weights,
    terms: u8,
    term: u8,
    // What the terms that aren't evaluated below can give to a score at most, and what those can that aren't evaluated
    // here either.
    below: u64,
    above: u64,
    // The key of the last row that was fed, by the terms below.
    last: Option<Key>,
    ended: bool,
    // Of each row held its key by all these terms, in which its ids stand. Its sum is the key's bound without `above`;
    // held as a number of its own, it would make each pair a fifth larger, and a search can hold many.
    held: Queue<Key, ()>,
    spent: bool,
}

impl Model for MuCore {
    ghost use Rattle.std.specs.Prelude.{◌≡◌, bit_or};
    ghost use Rattle.rs_rank.specs.Masks.{mask_of};
    ghost use Rattle.rs_rank.specs.Weights.{IsWeights, rest};
    ghost use Rattle.rs_mu.specs.Mu.{HaveRest, IsNewTerm, Mu, rows_of_keys};

    ghost Value = { Mu };

    ghost view = { λ m. record {
      weights = m.weights;
      terms = m.terms;
      term = m.term;
      last = m.last;
      ended = m.ended;
      held = rows_of_keys m.above m.held;
      spent = m.spent;
    } };

    ghost invariant = { λ m. IsWeights m.weights × IsNewTerm m.terms m.term
        × (m.below ≡ rest m.weights m.terms) × (m.above ≡ rest m.weights (bit_or m.terms (mask_of m.term)))
        × HaveRest m.above m.held };
}

impl MuCore {
    /// The operator that evaluates `term`, from 1 to 8, over rows of which `terms` are evaluated. It takes no memory.
    pub fn new(alloc: Global, weights: Weights, terms: u8, term: u8) -> MuCore
        requires weights { IsWeights weights }
        requires term { IsNewTerm terms term }
        ensures { result ≡ new_mu weights terms term }
    {
        MuCore {
            weights,
            terms,
            term,
            below: weights.rest(terms),
            above: weights.rest(union(terms, mask_of(term))),
            last: None,
            ended: false,
            held: Queue::new(alloc),
            spent: false,
        }
    }

    /// What the operator does next. What it holds is in the order of the keys, each row with its own. It is `Ready`
    /// where the first held row's key comes at or before that of the last row fed, which is by the terms below, or
    /// where the input has ended and a row is held; it is `End` where the input has ended and none is held, and else
    /// `Need`.
    pub fn ask(&self) -> Ask
        requires { self.now.spent ≡ false }
        ensures ask { result ≡ ask_of self.now }
        ensures ordered { Climbs key_cmp (λ pair. pair.0) self.now.held }
        ensures keys { AllByRecursion (λ pair. pair.0 ≡ full_key self.now pair.1) self.now.held }
    {
        ask_first(&self.last, self.ended, self.held.peek())
    }

    /// Takes the input's next row, and what the operator's term is worth on it. The row is held with weight times worth
    /// added to its sum.
    ///
    /// # Errors
    ///
    /// - `Memory`: at any call; the operator is spent from then on.
    pub fn feed(&mut self, row: RankRow, worth: u32) -> Result<(), Memory>
        requires { CanFeed row worth self.old }
        ensures ok { OnOk result (self.new ≡ fed row worth self.old) }
        ensures err { OnErr result (self.new ≡ record self.old { spent = true }) }
    {
        let last = key_with(&row, self.below);
        let scored = self.add_share(&row, worth);
        let key = key_with(&scored, self.above);
        match self.held.push(key, ()) {
            Ok(()) => {
                self.last = Some(last);
                Ok(())
            }
            Err(_) => {
                self.spent = true;
                Err(Memory)
            }
        }
    }

    /// The row with the term's share of the score.
    fn add_share(&self, row: &RankRow, worth: u32) -> RankRow
        requires sum { HasSum self.now.weights self.now.terms row.now }
        requires limit { worth ≤ slice_index self.now.weights.max (self.now.term - 1) }
        ensures value { result ≡ scored self.now row.now worth }
        ensures sum { HasSum self.now.weights (bit_or self.now.terms (mask_of self.now.term)) result }
    {
        let weight = self.weights.weight[usize::from(self.term - 1)];
        RankRow {
            ids: row.ids,
            sum: row.sum + share(weight, worth),
        }
    }

    /// The input has no more rows.
    pub fn feed_end(&mut self)
        requires { CanEnd self.old }
        ensures { self.new ≡ record self.old { ended = true } }
    {
        self.ended = true;
    }

    /// Takes the first held row, if the operator is ready.
    ///
    /// # Errors
    ///
    /// - `None`: exactly where the operator isn't ready. Then nothing changes.
    pub fn take(&mut self) -> Option<RankRow>
        requires { self.old.spent ≡ false }
        ensures row { result ≡ taken_for (ask_of self.old) self.old }
        ensures left { self.new ≡ left_for (ask_of self.old) self.old }
    {
        match self.ask() {
            Ask::Ready => match self.held.pop() {
                Some((key, ())) => Some(RankRow {
                    ids: key.ids,
                    sum: key.bound - self.above,
                }),
                None => None,
            },
            Ask::Need => None,
            Ask::End => None,
        }
    }
}

/// The key of a row, with what the terms that aren't evaluated on it can give at most.
fn key_with(row: &RankRow, rest: u64) -> Key
    requires { row.now.sum + rest ≤ score_limit }
    ensures { result ≡ record { bound = row.now.sum + rest; ids = row.now.ids } }
{
    Key {
        bound: row.sum + rest,
        ids: row.ids,
    }
}

/// What is done next, by the key of the last row, whether no more comes, and the first key held.
fn ask_first(last: &Option<Key>, ended: bool, first: Option<&Key>) -> Ask
    ensures { result ≡ ask_first last.now ended (option_map (λ key. key.now) first.entry) }
{
    match first {
        Some(first) => {
            if ended || is_reached(last, first) {
                Ask::Ready
            } else {
                Ask::Need
            }
        }
        None => { if ended { Ask::End } else { Ask::Need } }
    }
}

/// Whether a key comes at or before the last row's.
fn is_reached(last: &Option<Key>, key: &Key) -> bool
    ensures { result ≡ is_reached last.now key.now }
{
    match last {
        Some(last) => key.cmp(last).is_le(),
        None => false,
    }
}

/// What a term adds to a score.
fn share(weight: u32, worth: u32) -> u64
    ensures { result ≡ weight * worth }
{
    u64::from(weight) * u64::from(worth)
}
