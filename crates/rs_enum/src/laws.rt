//! Laws of the order of plans, and of the least one. The functions compute nothing; each is called for its contract.

ghost use Rattle.std.specs.Prelude.{ℕ, ◌≡◌, List, Option};
ghost use Rattle.std.specs.Cmp.{IsTotalOrder};
ghost use Rattle.rs_expr.specs.Scoring.{Answering};
ghost use Rattle.rs_catalog.specs.Catalog.{CatalogDef};
ghost use Rattle.rs_query.specs.declared.query.Query.{Query};
ghost use Rattle.rs_query.specs.Views.{View};
ghost use Rattle.rs_query.specs.WellFormed.{IsQuery};
ghost use Rattle.rs_sample.specs.Cards.{AllSayTheSame, BlockCards};
ghost use Rattle.rs_sample.specs.Sampling.{query_cards};
ghost use Rattle.rs_plan.specs.declared.counts.Counts.{Counts};
ghost use Rattle.rs_plan.specs.Plans.{IsPlan};
ghost use Rattle.rs_plan.specs.Trees.{PlanTree};
ghost use Rattle.rs_enum.specs.Least.{IsLeast, least_plan, plan_cmp};
ghost use Rattle.rs_enum.specs.QueryCards.{AreCards};
ghost use Rattle.rs_enum.specs.Texts.{text_of};

/// Of two plans one comes before the other, or they are equal in cost and code; and what comes before a plan comes before all
/// that it comes before.
pub fn plan_order_is_total()
    ensures { (catalogue : CatalogDef) (query : Query) (cards : List BlockCards) → IsTotalOrder (plan_cmp catalogue query cards) }
{}

/// A query has exactly one least plan: the one that is found among all its plans.
pub fn there_is_one_least_plan()
    ensures unique { (catalogue : CatalogDef) (query : Query) (cards : List BlockCards) (a b : PlanTree)
        → IsLeast catalogue query cards a → IsLeast catalogue query cards b → a ≡ b }
    ensures there_is_one { (catalogue : CatalogDef) (query : Query) (cards : List BlockCards)
        → IsQuery catalogue query → IsLeast catalogue query cards (least_plan catalogue query cards) }
{}

/// Cards that say the same wherever they are asked give the same least plan.
pub fn cards_decide_the_plan()
    ensures { (catalogue : CatalogDef) (query : Query) (cards other : List BlockCards)
        → IsQuery catalogue query → AreCards query cards → AllSayTheSame cards other
        → least_plan catalogue query cards ≡ least_plan catalogue query other }
{}

/// And they give each plan the same text.
pub fn cards_decide_the_text()
    ensures { (catalogue : CatalogDef) (query : Query) (cards other : List BlockCards) (tree : PlanTree) (counts : Option (List Counts))
        → IsQuery catalogue query → AreCards query cards → AllSayTheSame cards other → IsPlan catalogue query tree
        → text_of catalogue query cards tree counts ≡ text_of catalogue query other tree counts }
{}

/// Cards that say what a sample of the tables of a query says are cards of the query.
pub fn sampled_cards_are_those_of_the_query()
    ensures { (answer : Answering) (catalogue : CatalogDef) (query : Query) (view : View) (seed : ℕ) (cards : List BlockCards)
        → AllSayTheSame cards (query_cards answer catalogue query view seed) → AreCards query cards }
{}

/// Each query has a plan.
pub fn each_query_has_a_plan()
    ensures { (catalogue : CatalogDef) (query : Query) → IsQuery catalogue query → (tree : PlanTree) × IsPlan catalogue query tree }
{}
