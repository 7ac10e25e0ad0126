//! Laws of UNION ALL and UNION over the rows of their two sides. An operator stands at the asks that were made, those behind the last rows among
//! them, and a number of answers. The functions compute nothing; each is called for its contract.

ghost use Rattle.std.specs.Prelude.{◌≡◌, Bool, false, ℕ, suc, List, [], ◌∷◌, ◌++◌, length, Some, None};
ghost use Rattle.std.specs.List.{slice_get};
ghost use Rattle.std.specs.Option.{option_map};
ghost use Rattle.rs_order.specs.Schedule.{Left, Right, SideAsk, asked};
ghost use Rattle.rs_rank.specs.declared.ask.JoinAsk.TheVariants.{NeedLeft, NeedRight, Ready};
ghost use Rattle.rs_rank.specs.Rows.{HasSum};
ghost use Rattle.rs_rank.specs.Turns.{IsNextAsk};
ghost use Rattle.rs_setop.specs.Heads.{ask_of};
ghost use Rattle.rs_outputs.specs.Rows.{OutputRow};
ghost use Rattle.rs_setop.specs.Sides.{AreSides, Sides, answers, schedule_of};
ghost use Rattle.rs_setop.specs.Stands.{UnionStands, union_op};
ghost use Rattle.rs_setop.specs.Union.{Union, left_ended, left_fed, left_for, new_union, right_ended, right_fed, taken_for};

/// A new operator stands at no ask and no answer.
pub fn new_union_stands()
    ensures { (s : Sides) (distinct : Bool) (lefts rights : List OutputRow) → AreSides s lefts rights
        → UnionStands s distinct lefts rights [] 0 (new_union s.weights s.terms distinct) }
{}

/// Where it needs a row of a side that has one more, it can be fed that row, and stands at one more ask.
pub fn union_takes_rows()
    ensures left { (s : Sides) (distinct : Bool) (lefts rights : List OutputRow) (made : List SideAsk) (count : ℕ) (u : Union)
        → UnionStands s distinct lefts rights made count u → ask_of u.heads ≡ NeedLeft
        → (row : OutputRow) → slice_get lefts (asked Left made) ≡ Some row
        → HasSum u.weights u.terms row.row
        × UnionStands s distinct lefts rights (made ++ record { side = Left; number = suc (asked Left made) } ∷ []) count (left_fed row.row row.values u) }
    ensures right { (s : Sides) (distinct : Bool) (lefts rights : List OutputRow) (made : List SideAsk) (count : ℕ) (u : Union)
        → UnionStands s distinct lefts rights made count u → ask_of u.heads ≡ NeedRight
        → (row : OutputRow) → slice_get rights (asked Right made) ≡ Some row
        → HasSum u.weights u.terms row.row
        × UnionStands s distinct lefts rights (made ++ record { side = Right; number = suc (asked Right made) } ∷ []) count (right_fed row.row row.values u) }
{}

/// Where it needs a row of a side that has no more, it can be told the end of that side, and stands at one more
/// ask.
pub fn union_takes_ends()
    ensures left { (s : Sides) (distinct : Bool) (lefts rights : List OutputRow) (made : List SideAsk) (count : ℕ) (u : Union)
        → UnionStands s distinct lefts rights made count u → ask_of u.heads ≡ NeedLeft
        → slice_get lefts (asked Left made) ≡ None
        → UnionStands s distinct lefts rights (made ++ record { side = Left; number = suc (asked Left made) } ∷ []) count (left_ended u) }
    ensures right { (s : Sides) (distinct : Bool) (lefts rights : List OutputRow) (made : List SideAsk) (count : ℕ) (u : Union)
        → UnionStands s distinct lefts rights made count u → ask_of u.heads ≡ NeedRight
        → slice_get rights (asked Right made) ≡ None
        → UnionStands s distinct lefts rights (made ++ record { side = Right; number = suc (asked Right made) } ∷ []) count (right_ended u) }
{}

/// Where it is ready, it gives the next of the answers of both whole sides, and stands at one more answer.
pub fn union_gives_the_next_answer()
    ensures { (s : Sides) (distinct : Bool) (lefts rights : List OutputRow) (made : List SideAsk) (count : ℕ) (u : Union)
        → UnionStands s distinct lefts rights made count u → ask_of u.heads ≡ Ready
        → (taken_for (ask_of u.heads) u
        ≡ option_map (λ (row : OutputRow). row.row) (slice_get (answers s (union_op distinct) lefts rights) count))
        × UnionStands s distinct lefts rights made (suc count) (left_for (ask_of u.heads) u) }
{}

/// What it does next is the next ask of the schedule for the next answer; once all these asks are made it is ready,
/// or ends where there is no next answer.
pub fn asks_of_union_are_exact()
    ensures next { (s : Sides) (distinct : Bool) (lefts rights : List OutputRow) (made : List SideAsk) (count : ℕ) (u : Union)
        → UnionStands s distinct lefts rights made count u
        → IsNextAsk (schedule_of s (union_op distinct) lefts rights (suc count)) made count (length (answers s (union_op distinct) lefts rights)) (ask_of u.heads) }
    ensures alive { (s : Sides) (distinct : Bool) (lefts rights : List OutputRow) (made : List SideAsk) (count : ℕ) (u : Union)
        → UnionStands s distinct lefts rights made count u → u.spent ≡ false }
{}
