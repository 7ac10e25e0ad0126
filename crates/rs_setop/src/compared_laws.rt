//! Laws of INTERSECT and EXCEPT over the rows of their two sides. An operator stands at the asks that were made, those behind
//! the last rows among them, and a number of answers. The functions compute nothing; each is called for its contract.

ghost use Rattle.std.specs.Prelude.{◌≡◌, Bool, false, ℕ, suc, List, [], ◌∷◌, ◌++◌, length, Some, None};
ghost use Rattle.std.specs.List.{slice_get};
ghost use Rattle.std.specs.Option.{option_map};
ghost use Rattle.rs_order.specs.Schedule.{Left, Right, SideAsk, asked};
ghost use Rattle.rs_rank.specs.declared.ask.JoinAsk.TheVariants.{NeedLeft, NeedRight, Ready};
ghost use Rattle.rs_rank.specs.Rows.{HasSum};
ghost use Rattle.rs_rank.specs.Turns.{IsNextAsk};
ghost use Rattle.rs_setop.specs.Compared.{Comparison, ask_of, left_ended, left_fed, left_for, new_compared, right_ended, right_fed, taken_for};
ghost use Rattle.rs_outputs.specs.Rows.{OutputRow};
ghost use Rattle.rs_setop.specs.Sides.{AreSides, Sides, answers, schedule_of};
ghost use Rattle.rs_setop.specs.Stands.{ComparedStands, op_of};

/// A new operator stands at no ask and no answer.
pub fn new_comparison_stands()
    ensures { (s : Sides) (shared : Bool) (lefts rights : List OutputRow) → AreSides s lefts rights
        → ComparedStands s shared lefts rights [] 0 (new_compared s.weights s.terms shared) }
{}

/// Where it needs a row of a side that has one more, it can be fed that row, and stands at one more ask.
pub fn comparison_takes_rows()
    ensures left { (s : Sides) (shared : Bool) (lefts rights : List OutputRow) (made : List SideAsk) (count : ℕ) (c : Comparison)
        → ComparedStands s shared lefts rights made count c → ask_of c ≡ NeedLeft
        → (row : OutputRow) → slice_get lefts (asked Left made) ≡ Some row
        → HasSum c.weights c.terms row.row
        × ComparedStands s shared lefts rights (made ++ record { side = Left; number = suc (asked Left made) } ∷ []) count (left_fed row.row row.values c) }
    ensures right { (s : Sides) (shared : Bool) (lefts rights : List OutputRow) (made : List SideAsk) (count : ℕ) (c : Comparison)
        → ComparedStands s shared lefts rights made count c → ask_of c ≡ NeedRight
        → (row : OutputRow) → slice_get rights (asked Right made) ≡ Some row
        → HasSum c.weights c.terms row.row
        × ComparedStands s shared lefts rights (made ++ record { side = Right; number = suc (asked Right made) } ∷ []) count (right_fed row.row row.values c) }
{}

/// Where it needs a row of a side that has no more, it can be told the end of that side, and stands at one more
/// ask.
pub fn comparison_takes_ends()
    ensures left { (s : Sides) (shared : Bool) (lefts rights : List OutputRow) (made : List SideAsk) (count : ℕ) (c : Comparison)
        → ComparedStands s shared lefts rights made count c → ask_of c ≡ NeedLeft
        → slice_get lefts (asked Left made) ≡ None
        → ComparedStands s shared lefts rights (made ++ record { side = Left; number = suc (asked Left made) } ∷ []) count (left_ended c) }
    ensures right { (s : Sides) (shared : Bool) (lefts rights : List OutputRow) (made : List SideAsk) (count : ℕ) (c : Comparison)
        → ComparedStands s shared lefts rights made count c → ask_of c ≡ NeedRight
        → slice_get rights (asked Right made) ≡ None
        → ComparedStands s shared lefts rights (made ++ record { side = Right; number = suc (asked Right made) } ∷ []) count (right_ended c) }
{}

/// Where it is ready, it gives the next of the answers of both whole sides, and stands at one more answer.
pub fn comparison_gives_the_next_answer()
    ensures { (s : Sides) (shared : Bool) (lefts rights : List OutputRow) (made : List SideAsk) (count : ℕ) (c : Comparison)
        → ComparedStands s shared lefts rights made count c → ask_of c ≡ Ready
        → (taken_for (ask_of c) c
        ≡ option_map (λ (row : OutputRow). row.row) (slice_get (answers s (op_of shared) lefts rights) count))
        × ComparedStands s shared lefts rights made (suc count) (left_for (ask_of c) c) }
{}

/// What it does next is the next ask of the schedule for the next answer; once all these asks are made it is ready,
/// or ends where there is no next answer.
pub fn asks_of_comparison_are_exact()
    ensures next { (s : Sides) (shared : Bool) (lefts rights : List OutputRow) (made : List SideAsk) (count : ℕ) (c : Comparison)
        → ComparedStands s shared lefts rights made count c
        → IsNextAsk (schedule_of s (op_of shared) lefts rights (suc count)) made count (length (answers s (op_of shared) lefts rights)) (ask_of c) }
    ensures alive { (s : Sides) (shared : Bool) (lefts rights : List OutputRow) (made : List SideAsk) (count : ℕ) (c : Comparison)
        → ComparedStands s shared lefts rights made count c → c.spent ≡ false }
{}
