//! In which order the rows of an answer stand: laws that hold of every scorer, catalogue, query and view. The functions
//! compute nothing; each is called for its contract.

ghost use Rattle.rs_order.specs.Climbing.{Climbs};
ghost use Rattle.rs_rank.specs.Keys.{ids_cmp, key_cmp};
ghost use Rattle.rs_expr.specs.Scoring.{Answering};
ghost use Rattle.rs_catalog.specs.Catalog.{CatalogDef};
ghost use Rattle.rs_query.specs.Answers.{answer_of, rows_of};
ghost use Rattle.rs_query.specs.Views.{View};
ghost use Rattle.rs_query.specs.declared.query.Query.{Query};
ghost use Rattle.rs_plain.specs.Ordering.{key_of_answer};

/// Before they are put into order, the rows of a query stand in the strict order of their ids: those of the left block
/// first, and in a block by the row numbers of the FROM entries.
pub fn rows_climb()
    ensures { (answer : Answering) (catalogue : CatalogDef) (query : Query) (view : View)
        → Climbs ids_cmp (λ row. row.ids) (rows_of answer catalogue query view) }
{}

/// The rows of an answer stand in the strict order of their keys: the greater score comes first, and at equal scores the ids
/// decide. So no row stands twice, and the ids and the scores alone determine the order.
pub fn answers_climb()
    ensures { (answer : Answering) (catalogue : CatalogDef) (query : Query) (view : View)
        → Climbs key_cmp key_of_answer (answer_of answer catalogue query view) }
{}
