//! Laws of the core of a rank join over the rows of its two sides. It stands at the asks that were made, those behind the
//! last rows among them, and a number of answers. The functions compute nothing; each is called for its contract.

ghost use Rattle.std.specs.Prelude.{◌≡◌, ℕ, suc, List, [], ◌∷◌, ◌++◌, length, take, Some, None};
ghost use Rattle.std.specs.List.{slice_get};
ghost use Rattle.rs_order.specs.Asks.{bar_after};
ghost use Rattle.rs_order.specs.Climbing.{Climbs};
ghost use Rattle.rs_order.specs.Schedule.{Left, Right, SideAsk, asked};
ghost use Rattle.rs_rank.specs.declared.ask.JoinAsk.TheVariants.{NeedLeft, NeedRight, Ready};
ghost use Rattle.rs_rank.specs.declared.row.RankRow.{RankRow};
ghost use Rattle.rs_rank.specs.Keys.{key_cmp};
ghost use Rattle.rs_rank.specs.Rows.{merge_row};
ghost use Rattle.rs_rank.specs.Turns.{IsNextAsk, left_asks, right_asks};
ghost use Rattle.rs_ripple.specs.Pairs.{pairs_against, pairs_with};
ghost use Rattle.rs_ripple.specs.Ripple.{CanDrawLeft, CanDrawRight, CanEnd, Ripple, ask_of, left_drawn, left_ended, left_for, new_ripple, right_drawn, right_ended, taken_for};
ghost use Rattle.rs_ripple.specs.Stands.{AreFoundOf, AreSidesOf, CanFindEach, Join, Stands, answer_key, answers, found_each, merged_key, schedule_of, side_key, side_keys};

/// A new core stands at no ask and no answer.
pub fn new_core_stands()
    ensures { (j : Join) (lefts rights : List RankRow) → AreSidesOf j lefts rights
        → Stands j lefts rights [] 0 (new_ripple j.weights j.left j.right) }
{}

/// Where it needs a left row and the left side has one more, it can be told that row's key, and each pair of that row
/// with a right row drawn before, in any order. Then it stands at one more ask.
pub fn left_row_is_drawn()
    ensures draw { (j : Join) (lefts rights : List RankRow) (made : List SideAsk) (count : ℕ) (ripple : Ripple) (row : RankRow)
        → Stands j lefts rights made count ripple → ask_of ripple ≡ NeedLeft → slice_get lefts (asked Left made) ≡ Some row
        → CanDrawLeft (side_key j j.left row) ripple }
    ensures find { (j : Join) (lefts rights : List RankRow) (made : List SideAsk) (count : ℕ) (ripple : Ripple)
        (row : RankRow) (pairs : List RankRow)
        → Stands j lefts rights made count ripple → ask_of ripple ≡ NeedLeft → slice_get lefts (asked Left made) ≡ Some row
        → AreFoundOf pairs (pairs_with j.matches merge_row (take (asked Right made) rights) row)
        → CanFindEach pairs (left_drawn (side_key j j.left row) ripple) }
    ensures stands { (j : Join) (lefts rights : List RankRow) (made : List SideAsk) (count : ℕ) (ripple : Ripple)
        (row : RankRow) (pairs : List RankRow)
        → Stands j lefts rights made count ripple → ask_of ripple ≡ NeedLeft → slice_get lefts (asked Left made) ≡ Some row
        → AreFoundOf pairs (pairs_with j.matches merge_row (take (asked Right made) rights) row)
        → Stands j lefts rights (made ++ record { side = Left; number = suc (asked Left made) } ∷ []) count
        (found_each pairs (left_drawn (side_key j j.left row) ripple)) }
{}

/// The same of a right row: its pairs are those with the left rows drawn before.
pub fn right_row_is_drawn()
    ensures draw { (j : Join) (lefts rights : List RankRow) (made : List SideAsk) (count : ℕ) (ripple : Ripple) (row : RankRow)
        → Stands j lefts rights made count ripple → ask_of ripple ≡ NeedRight → slice_get rights (asked Right made) ≡ Some row
        → CanDrawRight (side_key j j.right row) ripple }
    ensures find { (j : Join) (lefts rights : List RankRow) (made : List SideAsk) (count : ℕ) (ripple : Ripple)
        (row : RankRow) (pairs : List RankRow)
        → Stands j lefts rights made count ripple → ask_of ripple ≡ NeedRight → slice_get rights (asked Right made) ≡ Some row
        → AreFoundOf pairs (pairs_against j.matches merge_row (take (asked Left made) lefts) row)
        → CanFindEach pairs (right_drawn (side_key j j.right row) ripple) }
    ensures stands { (j : Join) (lefts rights : List RankRow) (made : List SideAsk) (count : ℕ) (ripple : Ripple)
        (row : RankRow) (pairs : List RankRow)
        → Stands j lefts rights made count ripple → ask_of ripple ≡ NeedRight → slice_get rights (asked Right made) ≡ Some row
        → AreFoundOf pairs (pairs_against j.matches merge_row (take (asked Left made) lefts) row)
        → Stands j lefts rights (made ++ record { side = Right; number = suc (asked Right made) } ∷ []) count
        (found_each pairs (right_drawn (side_key j j.right row) ripple)) }
{}

/// Where it needs a row of a side that has no more, it can be told the end of that side, and stands at one more ask.
pub fn side_ends()
    ensures left { (j : Join) (lefts rights : List RankRow) (made : List SideAsk) (count : ℕ) (ripple : Ripple)
        → Stands j lefts rights made count ripple → ask_of ripple ≡ NeedLeft → slice_get lefts (asked Left made) ≡ None
        → CanEnd NeedLeft ripple
        × Stands j lefts rights (made ++ record { side = Left; number = suc (asked Left made) } ∷ []) count (left_ended ripple) }
    ensures right { (j : Join) (lefts rights : List RankRow) (made : List SideAsk) (count : ℕ) (ripple : Ripple)
        → Stands j lefts rights made count ripple → ask_of ripple ≡ NeedRight → slice_get rights (asked Right made) ≡ None
        → CanEnd NeedRight ripple
        × Stands j lefts rights (made ++ record { side = Right; number = suc (asked Right made) } ∷ []) count (right_ended ripple) }
{}

/// Where it is ready, it gives the next of the answers of both whole sides, and stands at one more answer.
pub fn taken_core_stands()
    ensures { (j : Join) (lefts rights : List RankRow) (made : List SideAsk) (count : ℕ) (ripple : Ripple)
        → Stands j lefts rights made count ripple → ask_of ripple ≡ Ready
        → (taken_for (ask_of ripple) ripple ≡ slice_get (answers j lefts rights) count)
        × Stands j lefts rights made (suc count) (left_for (ask_of ripple) ripple) }
{}

/// What it does next is the next ask of the schedule for the next answer. It is ready exactly where all these asks are
/// made and there is a next answer, and ends exactly where all are made and there is none.
pub fn asks_of_core_are_exact()
    ensures { (j : Join) (lefts rights : List RankRow) (made : List SideAsk) (count : ℕ) (ripple : Ripple)
        → Stands j lefts rights made count ripple
        → IsNextAsk (schedule_of j lefts rights (suc count)) made count (length (answers j lefts rights)) (ask_of ripple) }
{}

/// How often the schedule for a number of answers asks each side: one time more than there are rows of it whose key, merged with
/// the first one of the other side, comes before that of the last of these answers; and where there are fewer answers, one time
/// more than it has rows. But where the right side is empty, each side is asked once; and where the left one is empty, it is asked
/// once and the right one not at all.
pub fn schedule_has_the_asks()
    ensures left { (j : Join) (lefts rights : List RankRow) (n : ℕ) → AreSidesOf j lefts rights
        → asked Left (schedule_of j lefts rights (suc n))
        ≡ left_asks key_cmp (merged_key j) (side_keys j j.left lefts) (side_keys j j.right rights)
        (bar_after (answer_key j) (answers j lefts rights) n) }
    ensures right { (j : Join) (lefts rights : List RankRow) (n : ℕ) → AreSidesOf j lefts rights
        → asked Right (schedule_of j lefts rights (suc n))
        ≡ right_asks key_cmp (merged_key j) (side_keys j j.left lefts) (side_keys j j.right rights)
        (bar_after (answer_key j) (answers j lefts rights) n) }
{}

/// Where it is ready, the answers of the rows drawn so far begin with those of both whole sides, the next one included.
pub fn ready_answers_are_certain()
    ensures { (j : Join) (lefts rights : List RankRow) (made : List SideAsk) (count : ℕ) (ripple : Ripple)
        → Stands j lefts rights made count ripple → ask_of ripple ≡ Ready
        → take (suc count) (answers j (take (asked Left made) lefts) (take (asked Right made) rights))
        ≡ take (suc count) (answers j lefts rights) }
{}

/// The keys of the answers rise, so no two answers are of the same rows.
pub fn answers_rise()
    ensures { (j : Join) (lefts rights : List RankRow) → AreSidesOf j lefts rights
        → Climbs key_cmp (answer_key j) (answers j lefts rights) }
{}
