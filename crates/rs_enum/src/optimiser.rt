//! The least plan of a query. For each signature of a block, those of lesser masks first, the first of all plans is chosen that
//! can be made of what was chosen already; the plan is built of the choices at the end.

ghost use Rattle.std.specs.Prelude.{IfOk};
ghost use Rattle.rs_query.specs.WellFormed.{IsQuery};
ghost use Rattle.rs_sample.specs.Kept.{cards_of};
ghost use Rattle.rs_plan.specs.Shapes.{tree_of};
ghost use Rattle.rs_enum.specs.Least.{IsLeast};
ghost use Rattle.rs_enum.specs.QueryCards.{AreCards};

use crate::grid::Grid;
use crate::planning::Planning;
use rs_catalog::Catalog;
use rs_plan::Plan;
use rs_query::Query;
use rs_sample::Cards;
use rs_value::Memory;
use std::alloc::Global;

/// The plan of least cost, and of least code among those, of a query.
///
/// # Errors
///
/// - `Memory`: at any call.
pub fn best(alloc: Global, catalog: &Catalog, query: &Query, cards: &Cards) -> Result<Plan, Memory>
    requires query { IsQuery catalog.now query.now }
    requires cards { AreCards query.now (cards_of cards.now) }
    ensures { IfOk result (λ plan. IsLeast catalog.now query.now (cards_of cards.now) (tree_of plan)) }
{
    let planning = Planning {
        catalog,
        query,
        cards,
    };
    let mut grid = Grid::make(alloc)?;
    grid.search(&planning);
    grid.plan(alloc, &planning)
}
