//! Laws of a rank join that keeps its rows, over the rows of its two sides. It stands where its core does. The functions
//! compute nothing; each is called for its contract.

ghost use Rattle.std.specs.Prelude.{◌≡◌, ℕ, suc, List, [], ◌∷◌, ◌++◌, Some, None};
ghost use Rattle.std.specs.List.{slice_get};
ghost use Rattle.rs_order.specs.Schedule.{Left, Right, SideAsk, asked};
ghost use Rattle.rs_rank.specs.declared.ask.JoinAsk.TheVariants.{NeedLeft, NeedRight, Ready};
ghost use Rattle.rs_rank.specs.declared.row.RankRow.{RankRow};
ghost use Rattle.rs_ripple.specs.Joined.{CanFeedLeft, CanFeedRight, Fits, JoinStands, Joined, end_left, end_right, fed_left, fed_right, new_joined, rest_for};
ghost use Rattle.rs_ripple.specs.Ripple.{CanEnd, ask_of, taken_for};
ghost use Rattle.rs_ripple.specs.Stands.{AreSidesOf, Join, answers};

/// A new join stands at no ask and no answer.
pub fn new_join_stands()
    ensures { (j : Join) (lefts rights : List RankRow) → AreSidesOf j lefts rights
        → JoinStands j lefts rights [] 0 (new_joined j.weights j.left j.right) }
{}

/// A join that stands fits what matches its rows.
pub fn standing_join_fits()
    ensures { (j : Join) (lefts rights : List RankRow) (made : List SideAsk) (count : ℕ) (joined : Joined)
        → JoinStands j lefts rights made count joined → Fits j.matches joined }
{}

/// Where it needs a left row and the left side has one more, it can be fed that row. Then it stands at one more ask.
pub fn left_row_is_fed()
    ensures can { (j : Join) (lefts rights : List RankRow) (made : List SideAsk) (count : ℕ) (joined : Joined) (row : RankRow)
        → JoinStands j lefts rights made count joined → ask_of joined.ripple ≡ NeedLeft
        → slice_get lefts (asked Left made) ≡ Some row → CanFeedLeft row joined }
    ensures stands { (j : Join) (lefts rights : List RankRow) (made : List SideAsk) (count : ℕ) (joined : Joined) (row : RankRow)
        → JoinStands j lefts rights made count joined → ask_of joined.ripple ≡ NeedLeft
        → slice_get lefts (asked Left made) ≡ Some row
        → JoinStands j lefts rights (made ++ record { side = Left; number = suc (asked Left made) } ∷ []) count
        (fed_left j.matches row joined) }
{}

/// The same of a right row.
pub fn right_row_is_fed()
    ensures can { (j : Join) (lefts rights : List RankRow) (made : List SideAsk) (count : ℕ) (joined : Joined) (row : RankRow)
        → JoinStands j lefts rights made count joined → ask_of joined.ripple ≡ NeedRight
        → slice_get rights (asked Right made) ≡ Some row → CanFeedRight row joined }
    ensures stands { (j : Join) (lefts rights : List RankRow) (made : List SideAsk) (count : ℕ) (joined : Joined) (row : RankRow)
        → JoinStands j lefts rights made count joined → ask_of joined.ripple ≡ NeedRight
        → slice_get rights (asked Right made) ≡ Some row
        → JoinStands j lefts rights (made ++ record { side = Right; number = suc (asked Right made) } ∷ []) count
        (fed_right j.matches row joined) }
{}

/// Where it needs a row of a side that has no more, it can be told the end of that side, and stands at one more ask.
pub fn side_of_join_ends()
    ensures left { (j : Join) (lefts rights : List RankRow) (made : List SideAsk) (count : ℕ) (joined : Joined)
        → JoinStands j lefts rights made count joined → ask_of joined.ripple ≡ NeedLeft
        → slice_get lefts (asked Left made) ≡ None
        → CanEnd NeedLeft joined.ripple
        × JoinStands j lefts rights (made ++ record { side = Left; number = suc (asked Left made) } ∷ []) count (end_left joined) }
    ensures right { (j : Join) (lefts rights : List RankRow) (made : List SideAsk) (count : ℕ) (joined : Joined)
        → JoinStands j lefts rights made count joined → ask_of joined.ripple ≡ NeedRight
        → slice_get rights (asked Right made) ≡ None
        → CanEnd NeedRight joined.ripple
        × JoinStands j lefts rights (made ++ record { side = Right; number = suc (asked Right made) } ∷ []) count (end_right joined) }
{}

/// Where it is ready, it gives the next of the answers of both whole sides, and stands at one more answer.
pub fn taken_join_stands()
    ensures { (j : Join) (lefts rights : List RankRow) (made : List SideAsk) (count : ℕ) (joined : Joined)
        → JoinStands j lefts rights made count joined → ask_of joined.ripple ≡ Ready
        → (taken_for (ask_of joined.ripple) joined.ripple ≡ slice_get (answers j lefts rights) count)
        × JoinStands j lefts rights made (suc count) (rest_for (ask_of joined.ripple) joined) }
{}
