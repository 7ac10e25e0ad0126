//! Laws of the answers of a set operator over the rows of its two sides. The functions compute nothing; each is called for its
//! contract.

ghost use Rattle.std.specs.Prelude.{◌≡◌, List};
ghost use Rattle.rs_order.specs.Climbing.{Climbs};
ghost use Rattle.rs_order.specs.Sorting.{sorted};
ghost use Rattle.rs_rank.specs.Keys.{key_cmp};
ghost use Rattle.rs_value.specs.declared.set_op.SetOp.{SetOp};
ghost use Rattle.rs_outputs.specs.Rows.{OutputRow};
ghost use Rattle.rs_setop.specs.Sides.{AreBases, AreSides, Sides, answers, row_key};

/// The keys of the answers rise, so no two answers are of the same rows.
pub fn set_answers_rise()
    ensures { (s : Sides) (op : SetOp) (lefts rights : List OutputRow) → AreSides s lefts rights
        → Climbs key_cmp (row_key s) (answers s op lefts rights) }
{}

/// The rows of two blocks, in the order of their ids, can be the sides of an operator once they are sorted by their keys; and
/// its answers are the rows that it makes of both blocks, sorted.
pub fn set_rows_can_be_sorted_first()
    ensures sides { (s : Sides) (lefts rights : List OutputRow) → AreBases s lefts rights
        → AreSides s (sorted key_cmp (row_key s) lefts) (sorted key_cmp (row_key s) rights) }
    ensures answers { (s : Sides) (op : SetOp) (lefts rights : List OutputRow) → AreBases s lefts rights
        → answers s op (sorted key_cmp (row_key s) lefts) (sorted key_cmp (row_key s) rights)
        ≡ answers s op lefts rights }
{}
