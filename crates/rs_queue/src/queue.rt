ghost use Rattle.std.specs.Prelude.{◌≡◌, ◌↔◌, false, List, [], ◌∷◌, ◌++◌, length, drop, IsTrue, OnOk, OnErr, IfErr};
ghost use Rattle.std.specs.BinaryHeap.{IsHeap, heap_items};
ghost use Rattle.std.specs.List.{IsDistinct, list_any, slice_get};
ghost use Rattle.std.specs.Option.{option_map};
ghost use Rattle.std.specs.Ordering.{eq_by_cmp, is_eq};
ghost use Rattle.rs_order.specs.Climbing.{Climbs};
ghost use Rattle.rs_order.specs.Sorting.{put, sorted};
ghost use Rattle.rs_queue.specs.Queue.{Leads, by_falling_key, has_key};

use crate::entry::Entry;
use std::alloc::Global;
use std::collections::{BinaryHeap, VecDeque};
use std::marker::Model;

/// Pairs of a key and an item, which contracts see as a list in the order of the keys. No two keys are equal by
/// that order. A push and a pop go along one path of a heap, so their time grows with the logarithm of the number of
/// pairs; for pairs that are pushed in the order of their keys it doesn't grow.
#[derive(Drop)]
pub struct Queue<K: Ord, V> {
    heap: BinaryHeap<Entry<K, V>>,
    // The keys rise. A pair that comes behind all of these is put in here, and any other one into the heap.
    run: VecDeque<Entry<K, V>>,
}

impl<K: Ord, V> Model for Queue<K, V> {
    ghost Value = { List (K × V) };

    ghost view = { λ q. sorted K.cmp (λ pair. pair.0) (heap_items q.heap ++ q.run.items) };

    ghost invariant = { λ q. IsHeap (by_falling_key K.cmp) (heap_items q.heap) × Climbs K.cmp (λ pair. pair.0) q.run.items
        × IsDistinct (eq_by_cmp (by_falling_key K.cmp)) (heap_items q.heap ++ q.run.items) };
}

impl<K: Ord, V> Queue<K, V> {
    /// A queue without a pair. It takes no memory.
    pub fn new(alloc: Global) -> Queue<K, V>
        ensures { result ≡ [] }
    {
        Queue {
            heap: BinaryHeap::new(alloc),
            run: VecDeque::new(alloc),
        }
    }

    /// How many pairs the queue has.
    pub fn len(&self) -> usize
        ensures { result ≡ length self.now }
    {
        self.heap.len() + self.run.len()
    }

    /// Whether the queue has no pair.
    pub fn is_empty(&self) -> bool
        ensures { IsTrue result ↔ (self.now ≡ []) }
    {
        self.len() == 0
    }

    /// Whether a pair has a key that is equal to this one. It looks at all pairs.
    pub fn has_key(&self, key: &K) -> bool
        ensures { result ≡ has_key K.cmp key.now self.now }
    {
        has_entry(self.heap.as_slice(), key) || run_has(&self.run, key)
    }

    /// Puts a pair in at the place of its key. Where there is no memory for it, the pair comes back. No pair is to have
    /// an equal key.
    ///
    /// # Errors
    ///
    /// - `Err`: at any call, for want of memory: the pair comes back, and the queue stays as it was.
    pub fn push(&mut self, key: K, item: V) -> Result<(), (K, V)>
        requires { has_key K.cmp key self.old ≡ false }
        ensures ok { OnOk result (self.new ≡ put K.cmp (λ pair. pair.0) (key, item) self.old) }
        ensures err { OnErr result (self.new ≡ self.old) }
        ensures pair { IfErr result (λ pair. pair ≡ (key, item)) }
    {
        if is_behind(&self.run, &key) {
            match self.run.push_back(Entry::new(key, item)) {
                Ok(()) => Ok(()),
                Err(failed) => Err(failed.value.into_pair()),
            }
        } else {
            match self.heap.push(Entry::new(key, item)) {
                Ok(()) => Ok(()),
                Err(failed) => Err(failed.value.into_pair()),
            }
        }
    }

    /// The first key, which comes before all others.
    ///
    /// # Errors
    ///
    /// - `None`: exactly where the queue is empty.
    pub fn peek(&self) -> Option<&K>
        ensures first { option_map (λ key. key.now) result ≡ option_map (λ pair. pair.0) (slice_get self.now 0) }
        ensures ordered { Climbs K.cmp (λ pair. pair.0) self.now }
    {
        if run_leads(&self.heap, &self.run) {
            match self.run.front() {
                Some(entry) => Some(entry.key()),
                None => None,
            }
        } else {
            match self.heap.peek() {
                Some(entry) => Some(entry.key()),
                None => None,
            }
        }
    }

    /// Takes the first pair out, whose key comes before those of all others.
    ///
    /// # Errors
    ///
    /// - `None`: exactly where the queue is empty.
    pub fn pop(&mut self) -> Option<(K, V)>
        ensures first { result ≡ slice_get self.old 0 }
        ensures rest { self.new ≡ drop 1 self.old }
        ensures ordered { Climbs K.cmp (λ pair. pair.0) self.old }
    {
        if run_leads(&self.heap, &self.run) {
            match self.run.pop_front() {
                Some(entry) => Some(entry.into_pair()),
                None => None,
            }
        } else {
            match self.heap.pop() {
                Some(entry) => Some(entry.into_pair()),
                None => None,
            }
        }
    }
}

/// Whether an entry has a key that is equal to this one.
fn has_entry<K: Ord, V>(entries: &[Entry<K, V>], key: &K) -> bool
    ensures { result ≡ list_any (λ pair. is_eq (K.cmp pair.0 key.now)) entries.now }
{
    entries.iter().any(|entry| entry.key().cmp(key).is_eq())
}

/// The same of a run.
fn run_has<K: Ord, V>(run: &VecDeque<Entry<K, V>>, key: &K) -> bool
    ensures { result ≡ list_any (λ pair. is_eq (K.cmp pair.0 key.now)) run.now.items }
{
    let (front, back) = run.as_slices();
    has_entry(front, key) || has_entry(back, key)
}

/// Whether a key comes behind all keys of a run.
fn is_behind<K: Ord, V>(run: &VecDeque<Entry<K, V>>, key: &K) -> bool
    requires { Climbs K.cmp (λ pair. pair.0) run.now.items }
    ensures { (item : V) → IsTrue result → Climbs K.cmp (λ pair. pair.0) (run.now.items ++ (key.now, item) ∷ []) }
{
    match run.back() {
        Some(last) => last.key().cmp(key).is_lt(),
        None => true,
    }
}

/// Whether the first of all pairs is that of the run; else it is that of the heap, if there is one.
fn run_leads<K: Ord, V>(heap: &BinaryHeap<Entry<K, V>>, run: &VecDeque<Entry<K, V>>) -> bool
    requires heap { IsHeap (by_falling_key K.cmp) (heap_items heap.now) }
    requires run { Climbs K.cmp (λ pair. pair.0) run.now.items }
    ensures run { IsTrue result → Leads K.cmp run.now.items (heap_items heap.now) }
    ensures heap { result ≡ false → Leads K.cmp (heap_items heap.now) run.now.items }
{
    match (run.front(), heap.peek()) {
        (Some(first), Some(top)) => first.key().cmp(top.key()).is_lt(),
        (Some(_), None) => true,
        (None, _) => false,
    }
}
