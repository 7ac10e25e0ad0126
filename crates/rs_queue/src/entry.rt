ghost use Rattle.std.proofs.Common.{rules};
ghost use Rattle.std.specs.Prelude.{◌≡◌};
ghost use Rattle.std.specs.Cmp.{partial_order_from_own_ties};
ghost use Rattle.std.specs.Cmp.Rules.{comparing};
ghost use Rattle.std.specs.Ordering.{as_partial_cmp, eq_by_cmp};
ghost use Rattle.rs_queue.specs.Queue.{by_falling_key};

use std::cmp::Ordering;
use std::marker::Model;

/// A pair of a key and an item. No comparison looks at the item, and the greater pair is the one whose key comes
/// first, since the heap of std gives the greatest first.
#[derive(Drop)]
pub struct Entry<K: Ord, V> {
    key: K,
    item: V,
}

impl<K: Ord, V> Model for Entry<K, V> {
    ghost Value = { K × V };

    ghost view = { λ e. (e.key, e.item) };
}

impl<K: Ord, V> Entry<K, V> {
    pub fn new(key: K, item: V) -> Entry<K, V>
        ensures { result ≡ (key, item) }
    {
        Entry { key, item }
    }

    pub fn key(&self) -> &K
        ensures { result.now ≡ self.now.0 }
    {
        &self.key
    }

    pub fn into_pair(self) -> (K, V)
        ensures { result ≡ self }
    {
        (self.key, self.item)
    }
}

impl<K: Ord, V> Ord for Entry<K, V> {
    ghost cmp = { by_falling_key K.cmp };

    ghost total = { Prim.search (comparing, rules) depth 9 };

    ghost matches_partial_cmp = { Prim.search (comparing, rules) };

    ghost matches_eq = { Prim.search (comparing, rules) };

    fn cmp(&self, other: &Entry<K, V>) -> Ordering {
        other.key.cmp(&self.key)
    }
}

impl<K: Ord, V> PartialOrd for Entry<K, V> {
    ghost partial_cmp = { as_partial_cmp (by_falling_key K.cmp) };

    ghost laws = { partial_order_from_own_ties (Prim.search (comparing, rules) depth 9) (Prim.search (comparing, rules)) };

    fn partial_cmp(&self, other: &Entry<K, V>) -> Option<Ordering> {
        Some(self.cmp(other))
    }
}

impl<K: Ord, V> PartialEq for Entry<K, V> {
    ghost eq = { eq_by_cmp (by_falling_key K.cmp) };

    ghost laws = { Prim.search (comparing, rules) depth 9 };

    fn eq(&self, other: &Entry<K, V>) -> bool {
        self.cmp(other).is_eq()
    }
}

impl<K: Ord, V> Eq for Entry<K, V> {
    ghost laws = { Prim.search (comparing, rules) depth 9 };
}
