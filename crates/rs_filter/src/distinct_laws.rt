//! Laws of DISTINCT over the rows of its input, in the order of their keys. It stands at a number of rows that were fed. The
//! functions compute nothing; each is called for its contract.

ghost use Rattle.std.specs.Prelude.{◌≡◌, ◌<◌, ℕ, suc, List, length, Some, None};
ghost use Rattle.std.specs.List.{slice_get};
ghost use Rattle.rs_order.specs.Asks.{asks_for, bar_after};
ghost use Rattle.rs_order.specs.Climbing.{Climbs};
ghost use Rattle.rs_rank.specs.Keys.{key_cmp};
ghost use Rattle.rs_rank.specs.declared.key.Key.{Key};
ghost use Rattle.rs_outputs.specs.Rows.{OutputRow, firsts};
ghost use Rattle.rs_outputs.specs.Seen.{with_list};
ghost use Rattle.rs_filter.specs.Distinct.{Distinct, DistinctStands, given_count, given_for, new_distinct};

/// A new operator stands at no row.
pub fn new_distinct_stands()
    ensures { (rows : List OutputRow) → DistinctStands rows 0 new_distinct }
{}

/// It can be fed the next row, and stands at one more. A row that it gives is the next of the first rows of each list of output
/// values, and as many rows were fed as that one takes; for a row that it doesn't give it has asked less often than the next
/// one takes.
pub fn distinct_takes_rows()
    ensures stands { (rows : List OutputRow) (fed : ℕ) (d : Distinct) (row : OutputRow)
        → DistinctStands rows fed d → slice_get rows fed ≡ Some row
        → DistinctStands rows (suc fed) (record d { lists = with_list row.values d.lists }) }
    ensures gives { (rows : List OutputRow) (fed : ℕ) (d : Distinct) (row : OutputRow)
        → DistinctStands rows fed d → slice_get rows fed ≡ Some row
        → given_for row.row row.values d.lists ≡ Some row.row
        → (slice_get (firsts rows) (given_count rows fed) ≡ Some row)
        × (given_count rows (suc fed) ≡ suc (given_count rows fed)) }
    ensures asks { (key : OutputRow → Key) (rows : List OutputRow) (fed : ℕ) (d : Distinct) (row : OutputRow)
        → Climbs key_cmp key rows → DistinctStands rows fed d → slice_get rows fed ≡ Some row
        → given_for row.row row.values d.lists ≡ Some row.row
        → suc fed ≡ asks_for key_cmp key rows (bar_after key (firsts rows) (given_count rows fed)) }
    ensures drops { (key : OutputRow → Key) (rows : List OutputRow) (fed : ℕ) (d : Distinct) (row : OutputRow)
        → Climbs key_cmp key rows → DistinctStands rows fed d → slice_get rows fed ≡ Some row
        → given_for row.row row.values d.lists ≡ None
        → (suc fed < asks_for key_cmp key rows (bar_after key (firsts rows) (given_count rows fed)))
        × (given_count rows (suc fed) ≡ given_count rows fed) }
{}

/// Once all rows were fed it has given all first ones. That there is no further one takes one ask more.
pub fn distinct_ends()
    ensures given { (rows : List OutputRow) → given_count rows (length rows) ≡ length (firsts rows) }
    ensures asks { (key : OutputRow → Key) (rows : List OutputRow)
        → asks_for key_cmp key rows (bar_after key (firsts rows) (length (firsts rows))) ≡ suc (length rows) }
{}
