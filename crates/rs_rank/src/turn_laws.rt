//! Laws of the order in which a join asks. The functions compute nothing; each is called for its contract.

ghost use Rattle.std.specs.Prelude.{◌≡◌, List, Option};
ghost use Rattle.rs_order.specs.Climbing.{Climbs};
ghost use Rattle.rs_order.specs.Schedule.{Left, Right, numbers_from, ask_numbers};
ghost use Rattle.rs_rank.specs.Turns.{join_schedule, left_asks, left_keys, right_asks, right_keys};

/// Where the keys of each side rise, a join makes the asks of a side in the order of their numbers, from 1 up to the
/// number of asks for the bar.
pub fn turns_are_the_asks<K: Ord>()
    ensures left { (merge : K → K → K) (lefts rights : List K) (bar : Option K)
        → Climbs K.cmp (λ key. key) (left_keys merge lefts rights)
        → ask_numbers Left (join_schedule K.cmp merge lefts rights bar)
        ≡ numbers_from 1 (left_asks K.cmp merge lefts rights bar) }
    ensures right { (merge : K → K → K) (lefts rights : List K) (bar : Option K)
        → Climbs K.cmp (λ key. key) (right_keys merge lefts rights)
        → ask_numbers Right (join_schedule K.cmp merge lefts rights bar)
        ≡ numbers_from 1 (right_asks K.cmp merge lefts rights bar) }
{}
