//! Laws of plans and of their codes. The functions compute nothing; each is called for its contract.

ghost use Rattle.std.specs.Prelude.{◌≡◌};
ghost use Rattle.std.specs.Cmp.{IsTotalOrder};
ghost use Rattle.std.specs.declared.cmp.Ordering.TheVariants.{Equal};
ghost use Rattle.rs_catalog.specs.Catalog.{CatalogDef};
ghost use Rattle.rs_query.specs.declared.query.Query.{Query};
ghost use Rattle.rs_query.specs.WellFormed.{IsQuery};
ghost use Rattle.rs_plan.specs.Numbers.{HasNumbers};
ghost use Rattle.rs_plan.specs.Plans.{IsPlan};
ghost use Rattle.rs_plan.specs.Trees.{PlanTree, code, code_cmp};

/// Different plans of a query have different codes, and no comparison of codes takes them for equal.
pub fn different_plans_have_different_codes()
    ensures codes { (catalogue : CatalogDef) (query : Query) (a b : PlanTree) → IsPlan catalogue query a → IsPlan catalogue query b
        → code a ≡ code b → a ≡ b }
    ensures order { (catalogue : CatalogDef) (query : Query) (a b : PlanTree) → IsPlan catalogue query a → IsPlan catalogue query b
        → code_cmp (code a) (code b) ≡ Equal → a ≡ b }
{}

/// Of two codes one comes before the other, or they are equal; and what comes before a code comes before all that it comes
/// before.
pub fn code_order_is_total()
    ensures { IsTotalOrder code_cmp }
{}

/// The numbers that stand in a plan of a query are those of entries and terms.
pub fn plans_have_numbers()
    ensures { (catalogue : CatalogDef) (query : Query) (tree : PlanTree) → IsQuery catalogue query → IsPlan catalogue query tree
        → HasNumbers tree }
{}
