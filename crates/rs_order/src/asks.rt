//! Laws of the asks for a bar. The functions compute nothing; each is called for its contract.

ghost use Rattle.std.specs.Prelude.{◌≡◌, ◌<◌, ◌≤◌, ◌↔◌, IsTrue, ℕ, suc, List, Option, length, slice_index_or, take};
ghost use Rattle.rs_order.specs.Asks.{IsNoFurther, asks_for, comes_before_bar, bar_after, those_before};
ghost use Rattle.rs_order.specs.Climbing.{Ascends, Climbs};

/// In a list whose keys rise, the items that come before a bar are its first ones.
pub fn those_before_come_first<X, K: Ord>()
    ensures { (key : X → K) (xs : List X) (bar : Option K) → Climbs K.cmp key xs
        → those_before K.cmp key bar xs ≡ take (length (those_before K.cmp key bar xs)) xs }
{}

/// In a list whose keys rise, exactly the items whose numbers, from 1, are less than the asks come before the bar: item
/// number `asks_for`, if there is one, is the first that doesn't.
pub fn asks_are_exact<X, K: Ord>()
    ensures { (key : X → K) (xs : List X) (bar : Option K) (n : ℕ) (other : X) → Climbs K.cmp key xs → n < length xs
        → IsTrue (comes_before_bar K.cmp bar (key (slice_index_or xs n other))) ↔ (suc n < asks_for K.cmp key xs bar) }
{}

/// In a list whose keys never fall, the items that come before a bar are the first ones of those that come before a bar
/// further on.
pub fn those_before_begin_those_further<X, K: Ord>()
    ensures { (key : X → K) (xs : List X) (bar further : Option K) → Ascends K.cmp key xs → IsNoFurther K.cmp bar further
        → those_before K.cmp key bar xs
        ≡ take (length (those_before K.cmp key bar xs)) (those_before K.cmp key further xs) }
{}

/// A bar that lies further on means as many asks at least.
pub fn asks_grow<X, K: Ord>()
    ensures { (key : X → K) (xs : List X) (bar further : Option K) → IsNoFurther K.cmp bar further
        → asks_for K.cmp key xs bar ≤ asks_for K.cmp key xs further }
{}

/// In a list whose keys rise, a later answer's key lies further on.
pub fn bars_rise<X, K: Ord>()
    ensures { (key : X → K) (xs : List X) (m n : ℕ) → Climbs K.cmp key xs → m ≤ n
        → IsNoFurther K.cmp (bar_after key xs m) (bar_after key xs n) }
{}
