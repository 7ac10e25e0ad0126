//! Laws of lists whose keys rise. The functions compute nothing; each is called for its contract.

ghost use Rattle.std.specs.Prelude.{◌≡◌, ◌<◌, ◌⊎◌, ℕ, List, length, slice_index_or, take};
ghost use Rattle.rs_order.specs.Climbing.{Ascends, Climbs, In, IsBeyond, Precedes, SameItems};

/// Two lists whose keys rise, and that have the same items, are equal.
pub fn same_items_make_one_list<X, K: Ord>()
    ensures { (key : X → K) (xs ys : List X) → Climbs K.cmp key xs → Climbs K.cmp key ys → SameItems xs ys
        → xs ≡ ys }
{}

/// A part and a whole whose keys rise have the same first n items, if each item of the whole is in the part or lies
/// beyond the part's first n.
pub fn first_items_are_shared<X, K: Ord>()
    ensures { (key : X → K) (n : ℕ) (part whole : List X) → Climbs K.cmp key part → Climbs K.cmp key whole
        → ((z : X) → In z part → In z whole)
        → ((z : X) → In z whole → In z part ⊎ IsBeyond K.cmp key n part z)
        → take n part ≡ take n whole }
{}

/// In a list whose keys rise, each key comes before that of every later item.
pub fn keys_come_before_later_ones<X, K: Ord>()
    ensures { (key : X → K) (xs : List X) (i j : ℕ) (other : X) → Climbs K.cmp key xs → i < j → j < length xs
        → Precedes K.cmp key (slice_index_or xs i other) (slice_index_or xs j other) }
{}

/// Keys that rise never fall.
pub fn climbing_lists_ascend<X, K: Ord>()
    ensures { (key : X → K) (xs : List X) → Climbs K.cmp key xs → Ascends K.cmp key xs }
{}
