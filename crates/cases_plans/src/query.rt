//! A query, and what is asked of it.

ghost use Rattle.rs_expr.specs.MemScorer.{answered_score};
ghost use Rattle.rs_syntax.specs.Syntax.{query_of};
ghost use Rattle.rs_syntax.specs.Written.{IsWrittenQuery};
ghost use Rattle.rs_query.specs.Tops.{HasTops};
ghost use Rattle.rs_query.specs.WellFormed.{IsQuery};
ghost use Rattle.rs_catalog.specs.IndexesHold.{IndexesHold};

use crate::asks::tell_rows;
use crate::cards::{tell_cards, tell_sample};
use crate::costs::{Sought, tell_costs};
use crate::least::tell_least;
use crate::scans::tell_scan;
use crate::time::tell_time;
use cases_lines::Fault;
use cases_scripts::bind_fault;
use rs_bind::bind;
use rs_catalog::Catalog;
use rs_enum::Grid;
use rs_expr::MemScorer;
use rs_plan::{Counts, Plan};
use rs_query::Query;
use rs_syntax::Select;
use std::alloc::Global;

/// What is asked of a query.
#[derive(Drop)]
pub enum Asked {
    /// The text of the least plan by a sample of this seed.
    Least(u64),
    /// The same, with these counts of the nodes.
    Counted(u64, Vec<Counts>),
    /// The least costs of these signatures by a sample of this seed.
    Costs(u64, Vec<Sought>),
    /// The rows that this plan gives, asked for this many times.
    Rows(Plan, u32),
    /// The rows that a threshold scan gives, asked for this many times.
    Scan(u32),
    /// The calls of a sample by this seed.
    Calls(u64),
    /// The estimates of a sample by this seed.
    Cards(u64),
    /// The sum of the estimates, asked for this many times behind each of this many samples.
    Time { takes: u32, asks: u32 },
}

/// Binds a query, and tells what is asked of it.
pub fn tell_query(
    alloc: Global,
    catalog: &Catalog,
    select: &Select,
    asked: &Asked,
    scorer: &mut MemScorer,
    grid: &mut Grid,
) -> Result<String, Fault>
    requires written { IsWrittenQuery (query_of select.now) }
    requires held { IndexesHold (answered_score scorer.old) catalog.now }
{
    match bind(alloc, catalog, select) {
        Ok(query) => tell_bound(alloc, catalog, query, asked, scorer, grid),
        Err(fault) => Err(bind_fault(fault)),
    }
}

/// Tells what is asked of a query.
fn tell_bound(
    alloc: Global,
    catalog: &Catalog,
    query: Query,
    asked: &Asked,
    scorer: &mut MemScorer,
    grid: &mut Grid,
) -> Result<String, Fault>
    requires formed { IsQuery catalog.now query }
    requires tops { HasTops catalog.now query }
    requires held { IndexesHold (answered_score scorer.old) catalog.now }
{
    let told = match asked {
        Asked::Least(seed) => tell_least(alloc, catalog, &query, *seed, None, scorer),
        Asked::Counted(seed, counts) => {
            tell_least(alloc, catalog, &query, *seed, Some(counts), scorer)
        }
        Asked::Costs(seed, sought) => {
            tell_costs(alloc, catalog, &query, *seed, sought, scorer, grid)
        }
        Asked::Rows(plan, count) => {
            return tell_rows(alloc, catalog, query, plan, *count, scorer);
        }
        Asked::Scan(count) => tell_scan(alloc, catalog, &query, *count),
        Asked::Calls(seed) => tell_sample(alloc, catalog, &query, *seed, scorer),
        Asked::Cards(seed) => tell_cards(alloc, catalog, &query, *seed, scorer),
        Asked::Time { takes, asks } => tell_time(alloc, catalog, &query, *takes, *asks),
    };
    drop(query);
    told
}
