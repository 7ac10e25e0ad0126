//! Laws of the rank operator over the rows of its input. It stands at a number of asks, the one behind the last row
//! among them, and a number of answers. The functions compute nothing; each is called for its contract.

ghost use Rattle.std.specs.Prelude.{◌≡◌, ◌<◌, ◌≤◌, ◌↔◌, ℕ, suc, true, List, length, take, bit_or, Some, None};
ghost use Rattle.std.specs.List.{AllByRecursion, slice_get};
ghost use Rattle.rs_order.specs.Climbing.{Climbs};
ghost use Rattle.rs_rank.specs.declared.ask.Ask.TheVariants.{Need, Ready, End};
ghost use Rattle.rs_rank.specs.declared.row.RankRow.{RankRow};
ghost use Rattle.rs_rank.specs.Keys.{key_cmp};
ghost use Rattle.rs_rank.specs.Masks.{mask_of};
ghost use Rattle.rs_rank.specs.Rows.{HasSum};
ghost use Rattle.rs_mu.specs.Mu.{CanEnd, CanFeed, Mu, ask_of, fed, left_for, new_mu, taken_for};
ghost use Rattle.rs_rank.specs.Rows.{HaveOtherIds};
ghost use Rattle.rs_mu.specs.Stands.{Evaluation, IsInput, Stands, answers, asks_of, new_key};

/// A new operator stands at no ask and no answer.
pub fn new_core_stands()
    ensures { (e : Evaluation) (rows : List RankRow) → IsInput e rows
        → Stands e rows 0 0 (new_mu e.weights e.terms e.term) }
{}

/// Where it needs a row and its input has one more, it can be fed that row, and stands at one more ask.
pub fn fed_core_stands()
    ensures { (e : Evaluation) (rows : List RankRow) (asks count : ℕ) (mu : Mu) (row : RankRow)
        → Stands e rows asks count mu → ask_of mu ≡ Need → slice_get rows asks ≡ Some row
        → CanFeed row (e.worth row) mu × Stands e rows (suc asks) count (fed row (e.worth row) mu) }
{}

/// Where it needs a row and its input has no more, it can be fed the end, and stands at one more ask.
pub fn ended_core_stands()
    ensures { (e : Evaluation) (rows : List RankRow) (asks count : ℕ) (mu : Mu)
        → Stands e rows asks count mu → ask_of mu ≡ Need → slice_get rows asks ≡ None
        → CanEnd mu × Stands e rows (suc asks) count (record mu { ended = true }) }
{}

/// Where it is ready, it gives the next of the whole input's answers, and stands at one more answer.
pub fn taken_core_stands()
    ensures { (e : Evaluation) (rows : List RankRow) (asks count : ℕ) (mu : Mu)
        → Stands e rows asks count mu → ask_of mu ≡ Ready
        → (taken_for (ask_of mu) mu ≡ slice_get (answers e rows) count)
        × Stands e rows asks (suc count) (left_for (ask_of mu) mu) }
{}

/// What it does next is determined by the asks that the next answer takes: it needs a row exactly where it has asked
/// less often, and is ready exactly where it has asked just as often and there is a next answer. It ends exactly where it
/// has asked for all rows and for the end, and has given all answers.
pub fn asks_of_core_are_exact()
    ensures need { (e : Evaluation) (rows : List RankRow) (asks count : ℕ) (mu : Mu)
        → Stands e rows asks count mu → (ask_of mu ≡ Need) ↔ (asks < asks_of e rows (suc count)) }
    ensures ready { (e : Evaluation) (rows : List RankRow) (asks count : ℕ) (mu : Mu)
        → Stands e rows asks count mu
        → (ask_of mu ≡ Ready) ↔ ((asks ≡ asks_of e rows (suc count)) × (count < length rows)) }
    ensures end { (e : Evaluation) (rows : List RankRow) (asks count : ℕ) (mu : Mu)
        → Stands e rows asks count mu
        → (ask_of mu ≡ End) ↔ ((asks ≡ suc (length rows)) × (count ≡ length rows)) }
{}

/// Where it is ready, the answers of the rows fed so far begin with those of the whole input, the next one included.
pub fn ready_answers_are_certain()
    ensures { (e : Evaluation) (rows : List RankRow) (asks count : ℕ) (mu : Mu)
        → Stands e rows asks count mu → ask_of mu ≡ Ready
        → take (suc count) (answers e (take asks rows)) ≡ take (suc count) (answers e rows) }
{}

/// More answers take as many asks at least, and never more than one for each row and one for the end. Where there are
/// fewer answers they take all of these.
pub fn asks_grow_with_answers()
    ensures grow { (e : Evaluation) (rows : List RankRow) (m n : ℕ) → IsInput e rows → m ≤ n
        → asks_of e rows m ≤ asks_of e rows n }
    ensures most { (e : Evaluation) (rows : List RankRow) (n : ℕ) → asks_of e rows n ≤ suc (length rows) }
    ensures all { (e : Evaluation) (rows : List RankRow) (n : ℕ) → length rows ≤ n
        → asks_of e rows (suc n) ≡ suc (length rows) }
{}

/// The answers can be the input of a further operator: there are as many as rows, their keys rise, their sums are such
/// that all these terms can give, and no two have the same ids.
pub fn answers_can_be_input()
    ensures count { (e : Evaluation) (rows : List RankRow) → length (answers e rows) ≡ length rows }
    ensures rising { (e : Evaluation) (rows : List RankRow) → IsInput e rows
        → Climbs key_cmp (new_key e) (answers e rows) }
    ensures sums { (e : Evaluation) (rows : List RankRow) → IsInput e rows
        → AllByRecursion (HasSum e.weights (bit_or e.terms (mask_of e.term))) (answers e rows) }
    ensures others { (e : Evaluation) (rows : List RankRow) → IsInput e rows → HaveOtherIds (answers e rows) }
{}
