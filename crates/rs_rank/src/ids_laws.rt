//! Laws of merged ids. The functions compute nothing; each is called for its contract.

ghost use Rattle.std.specs.Prelude.{◌≡◌};
ghost use Rattle.rs_rank.specs.declared.ids.Ids.{Ids};
ghost use Rattle.rs_rank.specs.Ids.{AreSidesOfRow, merge_ids, rows_inside};

/// The row numbers of merged ids at the entries of a side are that side's.
pub fn merged_ids_have_both_sides()
    ensures left { (left right : Ids) → AreSidesOfRow left right
        → rows_inside left.mask (merge_ids left right).rows ≡ left.rows }
    ensures right { (left right : Ids) → AreSidesOfRow left right
        → rows_inside right.mask (merge_ids left right).rows ≡ right.rows }
{}

/// Merged ids of the same entries are equal only where both sides' are.
pub fn equal_merged_ids_have_equal_sides()
    ensures left { (left right other_left other_right : Ids) → AreSidesOfRow left right → AreSidesOfRow other_left other_right
        → left.mask ≡ other_left.mask → merge_ids left right ≡ merge_ids other_left other_right → left ≡ other_left }
    ensures right { (left right other_left other_right : Ids) → AreSidesOfRow left right → AreSidesOfRow other_left other_right
        → right.mask ≡ other_right.mask → merge_ids left right ≡ merge_ids other_left other_right
        → right ≡ other_right }
{}
