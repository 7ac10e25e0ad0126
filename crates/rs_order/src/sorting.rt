//! Laws of the order of a list by a key. The functions compute nothing; each is called for its contract.

ghost use Rattle.std.specs.Prelude.{◌≡◌, Bool, List, ◌∷◌, map};
ghost use Rattle.std.specs.List.{AllByRecursion, filter};
ghost use Rattle.std.specs.List.Sorted.{IsPermutation};
ghost use Rattle.std.specs.Ordering.{on, then_cmp};
ghost use Rattle.rs_order.specs.Climbing.{Climbs, Differs, HasDistinctKeys, SameItems};
ghost use Rattle.rs_order.specs.Sorting.{put, sorted};

/// Putting an item in gives the items that were there and the new one, each as often.
pub fn put_is_permutation<X, K: Ord>()
    ensures { (key : X → K) (x : X) (xs : List X) → IsPermutation (x ∷ xs) (put K.cmp key x xs) }
{}

/// Keys that rise still do so once an item is put in, if none had its key.
pub fn put_climbs<X, K: Ord>()
    ensures { (key : X → K) (x : X) (xs : List X) → Climbs K.cmp key xs → AllByRecursion (Differs K.cmp key x) xs
        → Climbs K.cmp key (put K.cmp key x xs) }
{}

/// The keys of a sorted list rise, if no two items have equal keys.
pub fn sorted_climbs<X, K: Ord>()
    ensures { (key : X → K) (xs : List X) → HasDistinctKeys K.cmp key xs → Climbs K.cmp key (sorted K.cmp key xs) }
{}

/// A sorted list has the items of the list.
pub fn sorted_has_the_items<X, K: Ord>()
    ensures { (key : X → K) (xs : List X) → SameItems xs (sorted K.cmp key xs) }
{}

/// A sorted list has each item as often as the list has it.
pub fn sorted_is_permutation<X, K: Ord>()
    ensures { (key : X → K) (xs : List X) → IsPermutation xs (sorted K.cmp key xs) }
{}

/// A list that was sorted by some key, and then by a second one, is the list sorted by the second one, if no two items
/// have equal second keys.
pub fn sorted_twice_is_sorted_once<X, K: Ord, L: Ord>()
    ensures { (first : X → K) (second : X → L) (xs : List X) → HasDistinctKeys L.cmp second xs
        → sorted L.cmp second (sorted K.cmp first xs) ≡ sorted L.cmp second xs }
{}

/// A list whose places rise, sorted by a key alone, is the list sorted by the key and then the place: items of equal
/// keys stay in the order of their places.
pub fn sorted_keeps_places<X, K: Ord, L: Ord>()
    ensures { (key : X → K) (place : X → L) (xs : List X) → Climbs L.cmp place xs
        → sorted K.cmp key xs ≡ sorted (then_cmp (on key K.cmp) (on place L.cmp)) (λ x. x) xs }
{}

/// Sorting what a function gives of each item is sorting the items by the keys of what it gives.
pub fn sorting_commutes_with_mapping<X, Y, K: Ord>()
    ensures { (key : Y → K) (f : X → Y) (xs : List X)
        → sorted K.cmp key (map f xs) ≡ map f (sorted K.cmp (λ x. key (f x)) xs) }
{}

/// Sorting the items that pass a test is taking those that pass from the sorted list, if no two items have equal keys.
pub fn sorting_commutes_with_filtering<X, K: Ord>()
    ensures { (key : X → K) (passes : X → Bool) (xs : List X) → HasDistinctKeys K.cmp key xs
        → sorted K.cmp key (filter passes xs) ≡ filter passes (sorted K.cmp key xs) }
{}
