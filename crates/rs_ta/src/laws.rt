//! Laws of the threshold scan over finished lists. The functions compute nothing; each is called for its contract.

ghost use Rattle.std.specs.Prelude.{◌≡◌, ◌≤◌, ◌*◌, ◌==◌, ◌&&◌, ℕ, Bool, List, suc, [], length, if◌then◌else◌};
ghost use Rattle.std.specs.List.{filter};
ghost use Rattle.rs_order.specs.Climbing.{Climbs, In};
ghost use Rattle.rs_rank.specs.declared.weights.Weights.{Weights};
ghost use Rattle.rs_rank.specs.Keys.{key_cmp};
ghost use Rattle.rs_ta.specs.Depths.{ScanInput, Sight, answers, depth, first_sights, looked_up, lookups, row_key, rows_shown, sights, thresholds};
ghost use Rattle.rs_ta.specs.declared.lists.Lookup.{Lookup};
ghost use Rattle.rs_ta.specs.Lists.{AreRanked, ListsState, rows_in, total};
ghost use Rattle.rs_ta.specs.Scans.{AreAccessed, AreLookedUp, AreSorted, HaveWeights, IsEntry, Stands, input_of, new_scan};

/// A new scan stands over lists of which none was accessed.
pub fn new_scan_stands()
    ensures { (weights : Weights) (entry block : ℕ) (state : ListsState) (truth : ℕ → Bool)
        → AreSorted (input_of (new_scan weights entry block) state truth) state 0
        → AreLookedUp (input_of (new_scan weights entry block) state truth) state []
        → Stands (input_of (new_scan weights entry block) state truth) (new_scan weights entry block) state }
{}

/// The thresholds of the places rise, and so do the keys of the answers, of which there are no more than rows.
pub fn thresholds_and_answers_rise()
    ensures thresholds { (i : ScanInput) → IsEntry i.entry → AreRanked i.lists → HaveWeights i
        → Climbs key_cmp (λ key. key) (thresholds i) }
    ensures answers { (i : ScanInput) → IsEntry i.entry → AreRanked i.lists → HaveWeights i
        → Climbs key_cmp row_key (answers i) }
    ensures count { (i : ScanInput) → length (answers i) ≤ rows_in i.lists }
{}

/// More asks take as many places at least, and never more than there are.
pub fn depths_grow()
    ensures grow { (i : ScanInput) (asks : ℕ) → IsEntry i.entry → AreRanked i.lists → HaveWeights i
        → depth i asks ≤ depth i (suc asks) }
    ensures most { (i : ScanInput) (asks : ℕ) → depth i asks ≤ rows_in i.lists }
{}

/// Each row that is shown is looked up exactly once in each list but the one that shows it first, and no other row is looked up: each
/// list as often as its count says.
pub fn rows_are_looked_up_once()
    ensures once { (lists : ℕ) (shown : List Sight) (sight : Sight) (list : ℕ) → In sight (first_sights shown) → 1 ≤ list → list ≤ lists
        → length (filter (λ lookup. lookup.row == sight.row && lookup.list == list) (looked_up lists shown)) ≡ (if list == sight.list then 0 else 1) }
    ensures no_other { (lists : ℕ) (shown : List Sight) (lookup : Lookup) → In lookup (looked_up lists shown)
        → In lookup.row (rows_shown shown) × (1 ≤ lookup.list) × (lookup.list ≤ lists) }
    ensures counts { (lists : ℕ) (shown : List Sight) (list : ℕ) → 1 ≤ list → list ≤ lists
        → length (filter (λ lookup. lookup.list == list) (looked_up lists shown)) ≡ lookups shown list }
{}

/// How deep the asks go decides what all lists together had: as many sorted accesses as lists times places, and the look-ups of all
/// lists as random ones. There are at most eight times as many of each as rows, so that no sum of them is cut.
pub fn depths_decide_the_sums_of_accesses()
    ensures sorted { (i : ScanInput) (asks : ℕ) (state : ListsState) → AreAccessed i asks state
        → total (length i.lists) state.sorted_count ≡ length i.lists * depth i asks }
    ensures random { (i : ScanInput) (asks : ℕ) (state : ListsState) → AreAccessed i asks state
        → total (length i.lists) state.random_count ≡ total (length i.lists) (lookups (sights i.lists (depth i asks))) }
    ensures few_sorted { (i : ScanInput) (asks : ℕ) → AreRanked i.lists → length i.lists * depth i asks ≤ 8 * rows_in i.lists }
    ensures few_random { (i : ScanInput) (asks : ℕ) → AreRanked i.lists
        → total (length i.lists) (lookups (sights i.lists (depth i asks))) ≤ 8 * rows_in i.lists }
{}
