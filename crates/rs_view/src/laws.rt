//! When views stand for a catalogue: laws that hold of every scorer, catalogue and view. The functions compute nothing; each is called
//! for its contract.

ghost use Rattle.std.specs.Prelude.{◌≡◌, ◌++◌, ℕ, [], List, Ok, min, take};
ghost use Rattle.std.specs.List.Sorted.{IsPermutation};
ghost use Rattle.rs_rank.specs.declared.answer.Answer.{Answer};
ghost use Rattle.rs_expr.specs.InOrder.{calls_of};
ghost use Rattle.rs_expr.specs.Scoring.{Answering};
ghost use Rattle.rs_catalog.specs.Catalog.{CatalogDef};
ghost use Rattle.rs_query.specs.Blocks.{block_in};
ghost use Rattle.rs_query.specs.Combinations.{all_combinations};
ghost use Rattle.rs_query.specs.Growth.{CatalogueGrows};
ghost use Rattle.rs_query.specs.Tables.{sizes_of};
ghost use Rattle.rs_query.specs.Views.{all_rows};
ghost use Rattle.rs_query.specs.WellFormed.{IsBlock, IsQuery};
ghost use Rattle.rs_query.specs.declared.block.Block.{Block};
ghost use Rattle.rs_query.specs.declared.query.Query.{Query};
ghost use Rattle.rs_plain.specs.Plain.{evaluation_of};
ghost use Rattle.rs_view.specs.Fresh.{fresh, growing, making};
ghost use Rattle.rs_view.specs.Holding.{HasItsAnswer, limited};
ghost use Rattle.rs_view.specs.Lives.{GrowInTurn, last_from, life_calls};
ghost use Rattle.rs_view.specs.Views.{IsKeepable, Stands, ViewDef, most_kept, rows_in};

/// A view that stands for a catalogue stands for each one that it grows to. So it does behind each call that adds to the catalogue:
/// `catalogues_grow` of rs_query has them.
pub fn views_go_on_to_stand()
    ensures { (answer : Answering) (old new : CatalogDef) (view : ViewDef)
        → CatalogueGrows old new → Stands answer old view → Stands answer new view }
{}

/// A growth of a view whose tables have no new row asks the scorer nothing.
pub fn nothing_new_asks_nothing()
    ensures { (answer : Answering) (catalogue : CatalogDef) (view : ViewDef)
        → view.lengths ≡ sizes_of catalogue (block_in view.query 1) → (growing answer catalogue view).requests ≡ [] }
{}

/// The combinations of before a growth and those with a new row are all combinations behind it, in another order, so each of them
/// comes once. And over its life a view makes exactly the calls of one plain evaluation of its query over its last tables, in another
/// order, however often it grew, where no answer is a bad number.
pub fn views_ask_nothing_twice()
    ensures combinations { (old new : CatalogDef) (block : Block) → CatalogueGrows old new → IsBlock old block
        → IsPermutation (all_combinations old block ++ fresh new block (sizes_of old block)) (all_combinations new block) }
    ensures calls { (answer : Answering) (query : Query) (first : CatalogDef) (later : List CatalogDef) (rows : List Answer)
        → IsQuery first query → IsKeepable query → GrowInTurn first later
        → (evaluation_of answer (last_from first later) query (all_rows (last_from first later) query)).outcome ≡ Ok rows
        → IsPermutation (life_calls answer query first later)
        (calls_of (evaluation_of answer (last_from first later) query (all_rows (last_from first later) query)).requests) }
{}

/// A view has its answer when it is made, behind each growth that comes to no fault, and as a catalogue grows without a new row in the
/// tables of its query. Where it has, one plain evaluation of its query with a LIMIT of some rows, at most as many as the view has at
/// most, gives as many of the view's first rows, and comes to no fault.
pub fn views_have_their_answers()
    ensures made { (answer : Answering) (catalogue : CatalogDef) (query : Query) (view : ViewDef)
        → IsQuery catalogue query → IsKeepable query → (making answer catalogue query).outcome ≡ Ok view → HasItsAnswer answer catalogue view }
    ensures grown { (answer : Answering) (old new : CatalogDef) (view later : ViewDef)
        → CatalogueGrows old new → HasItsAnswer answer old view → (growing answer new view).outcome ≡ Ok later → HasItsAnswer answer new later }
    ensures kept { (answer : Answering) (old new : CatalogDef) (view : ViewDef)
        → CatalogueGrows old new → HasItsAnswer answer old view → sizes_of new (block_in view.query 1) ≡ sizes_of old (block_in view.query 1)
        → HasItsAnswer answer new view }
    ensures limited { (answer : Answering) (catalogue : CatalogDef) (view : ViewDef) (wanted : ℕ) → HasItsAnswer answer catalogue view
        → (evaluation_of answer catalogue (limited (min wanted (most_kept view.query)) view.query)
        (all_rows catalogue (limited (min wanted (most_kept view.query)) view.query))).outcome ≡ Ok (take wanted (rows_in catalogue view)) }
{}
