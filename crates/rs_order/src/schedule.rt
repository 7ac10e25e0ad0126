//! Laws of the order in which two sides are asked. The functions compute nothing; each is called for its contract.

ghost use Rattle.std.specs.Prelude.{◌≡◌, List, Option, length, take};
ghost use Rattle.rs_order.specs.Asks.{IsNoFurther, asks_for};
ghost use Rattle.rs_order.specs.Climbing.{Ascends, Climbs};
ghost use Rattle.rs_order.specs.Schedule.{Left, Right, numbers_from, ask_numbers, schedule};

/// Where the keys of a side rise, its asks stand in the order of their numbers, from 1 up to the number of asks for the
/// bar.
pub fn schedules_have_the_asks<K: Ord>()
    ensures left { (lefts rights : List K) (bar : Option K) → Climbs K.cmp (λ key. key) lefts
        → ask_numbers Left (schedule K.cmp lefts rights bar) ≡ numbers_from 1 (asks_for K.cmp (λ key. key) lefts bar) }
    ensures right { (lefts rights : List K) (bar : Option K) → Climbs K.cmp (λ key. key) rights
        → ask_numbers Right (schedule K.cmp lefts rights bar) ≡ numbers_from 1 (asks_for K.cmp (λ key. key) rights bar) }
{}

/// Where the keys of no side fall, the schedule for a bar begins that for every bar further on. The first turns of a
/// join's sides have equal keys.
pub fn schedules_grow<K: Ord>()
    ensures { (lefts rights : List K) (bar further : Option K) → Ascends K.cmp (λ key. key) lefts
        → Ascends K.cmp (λ key. key) rights → IsNoFurther K.cmp bar further
        → schedule K.cmp lefts rights bar
        ≡ take (length (schedule K.cmp lefts rights bar)) (schedule K.cmp lefts rights further) }
{}
