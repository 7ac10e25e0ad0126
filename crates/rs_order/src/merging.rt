//! Laws of the merge of two lists. The functions compute nothing; each is called for its contract.

ghost use Rattle.std.specs.Prelude.{◌≡◌, ◌⊎◌, ◌↔◌, true, false, List, [], ◌∷◌};
ghost use Rattle.std.specs.Ordering.{is_gt};
ghost use Rattle.rs_order.specs.Climbing.{Ascends, Climbs, Differs, In};
ghost use Rattle.rs_order.specs.Merging.{merged};

/// The keys of the merge of two lists whose keys rise do so too, if no item of the one has the key of an item of the
/// other.
pub fn merged_climbs<X, K: Ord>()
    ensures { (key : X → K) (xs ys : List X) → Climbs K.cmp key xs → Climbs K.cmp key ys
        → ((x y : X) → In x xs → In y ys → Differs K.cmp key x y) → Climbs K.cmp key (merged K.cmp key xs ys) }
{}

/// The merge of two lists has the items of both.
pub fn merged_has_the_items<X, K: Ord>()
    ensures { (key : X → K) (xs ys : List X) (z : X) → In z (merged K.cmp key xs ys) ↔ (In z xs ⊎ In z ys) }
{}

/// The keys of the merge of two lists whose keys never fall don't fall either.
pub fn merged_ascends<X, K: Ord>()
    ensures { (key : X → K) (xs ys : List X) → Ascends K.cmp key xs → Ascends K.cmp key ys
        → Ascends K.cmp key (merged K.cmp key xs ys) }
{}

/// A merge takes the item with the lesser key first, and of equal keys that of the first list; then it is the merge of
/// what is left.
pub fn merges_go_on_with_the_lesser<X, K: Ord>()
    ensures left { (key : X → K) (x y : X) (xs ys : List X) → is_gt (K.cmp (key x) (key y)) ≡ false
        → merged K.cmp key (x ∷ xs) (y ∷ ys) ≡ x ∷ merged K.cmp key xs (y ∷ ys) }
    ensures right { (key : X → K) (x y : X) (xs ys : List X) → is_gt (K.cmp (key x) (key y)) ≡ true
        → merged K.cmp key (x ∷ xs) (y ∷ ys) ≡ y ∷ merged K.cmp key (x ∷ xs) ys }
    ensures left_alone { (key : X → K) (xs : List X) → merged K.cmp key xs [] ≡ xs }
    ensures right_alone { (key : X → K) (ys : List X) → merged K.cmp key [] ys ≡ ys }
{}
